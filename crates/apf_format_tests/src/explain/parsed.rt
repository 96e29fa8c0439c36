//! What is read of files that no command prints: the work of a request, and a script of more requests than a file has. And that the
//! readers of bytes, which no command calls, answer what is judged of what was parsed.

use crate::asserts::is;
use apf_files::{
    Command, Request, judge_config, judge_requests, parse, read_config, read_requests, read_script,
};
use std::alloc::Global;
use std::process::Abort;
use std::test::Fail;

#[test]
fn reads_every_key(rt: HostRuntime) -> Result<(), Fail> {
    let text =
        "[{\"schema\":\"\",\"distinguisher\":\"\",\"width\":20000,\"work\":1000000,\"cancels\":1,\"closes\":true},
        {\"hash\":18446744073709551615,\"width\":1,\"work\":0,\"cancels\":0,\"closes\":false}]";
    let every_key = [
        Request {
            width: 20_000,
            hash: 0x987a_b3ff_9c0b_346e,
            work: 1_000_000,
            cancels: Some(1),
            closes: true,
        },
        Request {
            width: 1,
            hash: 18_446_744_073_709_551_615,
            work: 0,
            cancels: Some(0),
            closes: false,
        },
    ];
    let requests = read_requests(rt.alloc(), text.as_bytes())?;
    is(&rt, requests.as_slice(), every_key.as_slice());
    Ok(())
}

// Of more requests than a requests file can have.
#[test]
fn reads_every_form(rt: HostRuntime) -> Result<(), Fail> {
    let text = "arrive 0\nfinish 12\ncancel 99999\nclose\nlimit 1\nlimit 10000\n";
    let every_form = [
        Command::Arrive(0),
        Command::Finish(12),
        Command::Cancel(99_999),
        Command::Close,
        Command::Limit(1),
        Command::Limit(10_000),
    ];
    let commands = read_script(rt.alloc(), text.as_bytes(), 100_000)?;
    is(&rt, commands.as_slice(), every_form.as_slice());
    Ok(())
}

fn agrees(rt: &impl Abort, alloc: Global, text: &[u8], is_json: bool) -> Result<(), Fail> {
    let parsed = parse(alloc, text)?;
    is(rt, parsed.value().is_some(), is_json);
    is(rt, judge_config(&parsed), read_config(alloc, text));
    let requests = judge_requests(alloc, &parsed);
    is(rt, requests, read_requests(alloc, text));
    Ok(())
}

const JUDGED: [(&[u8], bool); 8] = [
    (b"", false),
    (b"{", false),
    (b"[]", true),
    (b"{}", true),
    (b"{\"limit\":1}", true),
    (b"{\"limit\":0}", true),
    (b"[{\"hash\":0}]", true),
    (b"[{\"hash\":0,\"width\":0}]", true),
];

#[test]
fn judges_what_is_parsed(rt: HostRuntime) -> Result<(), Fail> {
    for (text, is_json) in JUDGED {
        agrees(&rt, rt.alloc(), text, is_json)?;
    }
    Ok(())
}
