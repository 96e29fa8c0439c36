//! What is granted while a request waits.

ghost use Rattle.std.specs.Prelude.{◌<◌, ◌↔◌, All, IsTrue};
ghost use Rattle.apf_words.specs.Limits.{max_queues};
ghost use Rattle.apf_model.specs.History.{queue_of};

use crate::asserts::{is, is_at};
use crate::stretches::{Row, assert_legal, have_widths};
use apf_book::Wait;
use apf_model::Event::{self, Dispatch, Enter, Strike};
use std::alloc::{AllocError, Global};
use std::process::Abort;
use std::test::Fail;

// Whether each queue of the log is one of 1,024.
fn have_queues(log: &[Event]) -> bool
    ensures { IsTrue result ↔ All (λ e. queue_of e < max_queues) log.now }
{
    log.iter().all(|event| {
        let (Enter(_, queue) | Event::Full(_, queue) | Dispatch(_, queue) | Strike(_, queue)) =
            *event;
        queue < 1024
    })
}

// The wait of the request in this log.
fn wait_in(
    rt: &impl Abort,
    alloc: Global,
    row: Row<'_>,
    request: u32,
) -> Result<Option<Wait>, AllocError> {
    assert_legal(rt, alloc, row.log, row.queues)?;
    let wide = have_widths(row.log, row.widths);
    assert!(rt; wide);
    let few = have_queues(row.log);
    assert!(rt; few);
    assert!(rt; row.log.len() < 100);
    Ok(apf_book::overtaken(row.log, row.widths, request))
}

// A wait in this queue, with its seats ahead, the most of another queue, and all.
fn wait(queue: u32, ahead: u64, most: u64, all: u64) -> Option<Wait> {
    Some(Wait {
        queue,
        ahead,
        most,
        all,
    })
}

// Requests 0, 1 and 2 share queue 0, and 3 and 4 have one each. Request 5 does not arrive.
const QUEUES: &[u32] = &[0, 0, 0, 1, 2, 2];

const WIDTHS: &[u32] = &[2, 3, 1, 4, 1, 1];

const LOG: [Event; 10] = [
    Enter(0, 0),
    Enter(3, 1),
    Enter(1, 0),
    Enter(2, 0),
    Dispatch(0, 0),
    Dispatch(3, 1),
    Enter(4, 2),
    Dispatch(4, 2),
    Strike(1, 0),
    Dispatch(2, 0),
];

#[test]
fn waits(rt: HostRuntime) -> Result<(), Fail> {
    let log = LOG;
    let row = Row {
        log: &log,
        queues: QUEUES,
        widths: WIDTHS,
    };
    for (request, want) in [
        (0, wait(0, 0, 0, 0)),
        (1, wait(0, 2, 4, 7)),
        (2, wait(0, 5, 4, 7)),
        (3, wait(1, 0, 2, 2)),
        (4, wait(2, 0, 0, 0)),
        (5, None),
        (9, None),
    ] {
        is_at(&rt, wait_in(&rt, rt.alloc(), row, request)?, want, request);
    }
    Ok(())
}

#[test]
fn waits_at_the_end(rt: HostRuntime) -> Result<(), Fail> {
    let log = LOG;
    let row = Row {
        log: &log[..7],
        queues: QUEUES,
        widths: WIDTHS,
    };
    is(&rt, wait_in(&rt, rt.alloc(), row, 2)?, wait(0, 5, 4, 6));
    is(&rt, wait_in(&rt, rt.alloc(), row, 4)?, wait(2, 0, 0, 0));
    Ok(())
}
