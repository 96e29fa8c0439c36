//! What the tests call.

use crate::asserts::is;
use apf_explain::{
    ExplainFault, explain_config, explain_dealer, explain_objects, explain_requests, explain_script,
};
use apf_files::{Config, ConfigFault, RequestFault, Response, judge_script, parse};
use apf_flow::DealerFault;
use std::alloc::Global;
use std::io::Write;
use std::process::Abort;
use std::test::Fail;

/// What is explained: a fault of a config or of requests, that objects are no JSON, the fault of a script for three requests, or that of
/// so many queues and such a hand.
#[derive(Clone, Copy)]
pub enum Asked {
    Config(ConfigFault),
    Requests(RequestFault),
    Objects,
    Script,
    Dealer(u32, u32, DealerFault),
}

fn write_config<W: Write>(
    alloc: Global,
    bytes: &[u8],
    fault: ConfigFault,
    out: &mut W,
) -> Result<(), ExplainFault> {
    let Ok(parsed) = parse(alloc, bytes) else {
        return Err(ExplainFault::NoMemory);
    };
    explain_config(alloc, "x", bytes, &parsed, fault, out)
}

fn write_requests<W: Write>(
    alloc: Global,
    bytes: &[u8],
    fault: RequestFault,
    out: &mut W,
) -> Result<(), ExplainFault> {
    let Ok(parsed) = parse(alloc, bytes) else {
        return Err(ExplainFault::NoMemory);
    };
    explain_requests(alloc, "x", bytes, &parsed, fault, out)
}

fn write_objects<W: Write>(alloc: Global, bytes: &[u8], out: &mut W) -> Result<(), ExplainFault> {
    let Ok(parsed) = parse(alloc, bytes) else {
        return Err(ExplainFault::NoMemory);
    };
    explain_objects(alloc, "x", bytes, &parsed, out)
}

fn write_script<W: Write>(alloc: Global, bytes: &[u8], out: &mut W) -> Result<(), ExplainFault> {
    let Err(refused) = judge_script(alloc, bytes, 3) else {
        return Ok(());
    };
    explain_script("x", bytes, 3, refused, out)
}

fn write_dealer<W: Write>(
    queues: u32,
    hand_size: u32,
    fault: DealerFault,
    out: &mut W,
) -> Result<(), ExplainFault> {
    let config = Config {
        limit: 1,
        queues,
        hand_size,
        queue_length_limit: 1,
        limit_response: Response::Queue,
    };
    explain_dealer("x", &config, fault, out)
}

/// Writes the line that explains it of a file of these bytes.
pub fn write<W: Write>(
    alloc: Global,
    asked: Asked,
    bytes: &[u8],
    out: &mut W,
) -> Result<(), ExplainFault> {
    match asked {
        Asked::Config(fault) => write_config(alloc, bytes, fault, out),
        Asked::Requests(fault) => write_requests(alloc, bytes, fault, out),
        Asked::Objects => write_objects(alloc, bytes, out),
        Asked::Script => write_script(alloc, bytes, out),
        Asked::Dealer(queues, hand_size, fault) => write_dealer(queues, hand_size, fault, out),
    }
}

/// Asserts that this line explains it.
pub fn says(
    rt: &impl Abort,
    alloc: Global,
    asked: Asked,
    bytes: &[u8],
    line: &str,
) -> Result<(), Fail> {
    let mut out = Vec::new(alloc);
    write(alloc, asked, bytes, &mut out)?;
    is(rt, out.as_slice(), line.as_bytes());
    Ok(())
}

/// Asserts that a writer fails that has room for fewer bytes than the line has, down to none.
pub fn fails(rt: &impl Abort, alloc: Global, asked: Asked, bytes: &[u8]) -> Result<(), Fail> {
    let mut whole = Vec::new(alloc);
    write(alloc, asked, bytes, &mut whole)?;
    let mut room: Vec<u8> = Vec::new(alloc);
    for _ in 0..whole.len() {
        let mut out = room.as_mut_slice();
        let answer = write(alloc, asked, bytes, &mut out);
        is(rt, answer, Err(ExplainFault::CannotWrite));
        room.push(0)?;
    }
    Ok(())
}
