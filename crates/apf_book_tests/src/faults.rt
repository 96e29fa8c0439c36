//! Why a book is refused, and what each fault prints.

use crate::asserts::is;
use crate::level::Totals;
use crate::opening::Fault;
use crate::scripts::{Row, run, settings};
use apf_book::{BookFault, Config};
use std::alloc::Global;
use std::process::Abort;
use std::sync::Wait;
use std::test::Fail;

// The fault of a book of no requests with these settings, if it has one.
fn fault_of<R: Wait + Abort>(rt: &R, alloc: Global, config: Config) -> Option<Fault> {
    let row = Row {
        config,
        asks: &[],
        steps: &[],
        totals: Totals {
            open: true,
            level: [0, 0],
            decided: [0, 0, 0, 0],
            rejected: [0, 0, 0],
            logged: [0, 0, 0],
        },
    };
    run(rt, alloc, &row).err()
}

// A level of this many queues, with hands of this many, whose queues have room for this many requests.
fn shaped(queues: u32, hand_size: u32, queue_length_limit: u32) -> Config {
    Config {
        hand_size,
        queue_length_limit,
        ..settings(1, queues)
    }
}

// The text is the dealer's, the queues', or that of a call without memory, with nothing beside it.
#[test]
fn texts_of_faults(rt: HostRuntime) -> Result<(), Fail> {
    is(&rt, fault_of(&rt, rt.alloc(), shaped(1, 1, 1)), None);
    for (config, text) in [
        (shaped(0, 0, 1), "not positive"),
        (shaped(8, 9, 1), "hand too large"),
        (shaped(67_108_865, 1, 1), "deck too large"),
        (shaped(64, 11, 1), "too much entropy"),
        (shaped(1, 1, 0), "bad shape"),
    ] {
        let Some(Fault::Book(fault)) = fault_of(&rt, rt.alloc(), config) else {
            panic!(rt; "{text}")
        };
        is(&rt, fault.to_string(rt.alloc())?.as_str(), text);
    }
    let text = BookFault::NoMemory.to_string(rt.alloc())?;
    is(&rt, text.as_str(), "out of memory");
    Ok(())
}
