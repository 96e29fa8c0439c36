//! Faults that no reader answers for these bytes: still one true line. And calls without memory, which write nothing.

use crate::asserts::is;
use crate::explain::calls::{Asked, says, write};
use apf_explain::{ExplainFault, explain_script, explain_trace, explain_trace_line};
use apf_files::{ConfigFault, ConfigKey, InScript, RefusedScript, RequestFault, ScriptFault};
use apf_flow::DealerFault;
use apf_traces::TraceFault;
use std::test::Fail;

const LINES: [(&[u8], Asked, &str); 9] = [
    (
        b"{}",
        Asked::Config(ConfigFault::NotJson),
        "x: this is not JSON\n",
    ),
    (
        b"{",
        Asked::Config(ConfigFault::NotObject),
        "x: a config is a JSON object, but this is something else\n",
    ),
    (
        b"{}",
        Asked::Config(ConfigFault::UnknownKey),
        "x: a key is unknown: a config has limit, queues, handSize, queueLengthLimit and limitResponse\n",
    ),
    (
        b"{}",
        Asked::Config(ConfigFault::BadValue(ConfigKey::Queues)),
        "x: queues is something else: it must be a whole number from 1 to 1024\n",
    ),
    (
        b"{}",
        Asked::Requests(RequestFault::TooMany),
        "x: there are too many requests: at most 10000 may be there\n",
    ),
    (
        b"[]",
        Asked::Requests(RequestFault::NotObject(7)),
        "x: request 7: a request is a JSON object, but this is something else\n",
    ),
    (
        b"[]",
        Asked::Requests(RequestFault::BadFlow(0)),
        "x: request 0: the flow is bad: a flow is either hash alone, or both schema and distinguisher\n",
    ),
    (
        b"",
        Asked::Dealer(0, 1, DealerFault::NotPositive),
        "x: handSize is 1 and queues is 0: both must be at least 1 (8 and 64 if absent)\n",
    ),
    (
        b"",
        Asked::Dealer(67_108_865, 1, DealerFault::DeckTooLarge),
        "x: queues is 67108865: it must be at most 2 to the power of 26 (64 if absent)\n",
    ),
];

// The two of a dealer are of no config: a reader refuses its numbers first.
#[test]
fn lines(rt: HostRuntime) -> Result<(), Fail> {
    for (bytes, asked, line) in LINES {
        says(&rt, rt.alloc(), asked, bytes, line)?;
    }
    Ok(())
}

// A request that comes too late is told of a whole trace too, which is not read in pieces.
#[test]
fn too_late(rt: HostRuntime) -> Result<(), Fail> {
    let mut out = Vec::new(rt.alloc());
    explain_trace(rt.alloc(), b"{", TraceFault::TooLate(2), &mut out)?;
    let line = b"apf: trace fault 13 at line 2: arrives more than 131072 requests late\n";
    is(&rt, out.as_slice(), line.as_slice());
    Ok(())
}

const TEXTS: [(ExplainFault, &str); 2] = [
    (ExplainFault::NoMemory, "out of memory"),
    (ExplainFault::CannotWrite, "cannot write"),
];

#[test]
fn texts_of_faults(rt: HostRuntime) -> Result<(), Fail> {
    for (fault, text) in TEXTS {
        is(&rt, fault.to_string(rt.alloc())?.as_str(), text);
    }
    Ok(())
}

const WITHOUT: Result<(), ExplainFault> = Err(ExplainFault::NoMemory);

#[test]
fn files_without_memory(rt: HostRuntime) {
    for (bytes, asked) in [
        (b"{", Asked::Config(ConfigFault::NoMemory)),
        (b"[", Asked::Requests(RequestFault::NoMemory)),
    ] {
        let mut out = Vec::new(rt.alloc());
        is(&rt, write(rt.alloc(), asked, bytes, &mut out), WITHOUT);
        is(&rt, out.is_empty(), true);
    }
}

#[test]
fn a_script_without_memory(rt: HostRuntime) {
    let mut out = Vec::new(rt.alloc());
    let refused = RefusedScript {
        fault: ScriptFault::NoMemory,
        found: InScript::Nothing,
    };
    let answer = explain_script("x", b"close\n", 1, refused, &mut out);
    is(&rt, answer, WITHOUT);
    is(&rt, out.is_empty(), true);
}

#[test]
fn a_line_without_memory(rt: HostRuntime) {
    let mut out = Vec::new(rt.alloc());
    let fault = TraceFault::NoMemory;
    let answer = explain_trace_line(rt.alloc(), b"{\"width\":0}", fault, &mut out);
    is(&rt, answer, WITHOUT);
    is(&rt, out.is_empty(), true);
}
