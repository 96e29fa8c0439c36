//! The services of two queues in a stretch.

ghost use Rattle.std.specs.Prelude.{◌<◌, ◌↔◌, length, reverse, All, OnOk, IsTrue};
ghost use Rattle.apf_model.specs.History.{request_of, IsLegal};
ghost use Rattle.apf_plain.specs.Histories.{hand_in};

use crate::asserts::is_at;
use crate::judging::newest_first;
use apf_model::Event::{self, Dispatch, Enter};
use apf_plain::is_legal;
use std::alloc::{AllocError, Global};
use std::process::Abort;
use std::test::Fail;

// Whether each request of the log has a width.
pub fn have_widths(log: &[Event], widths: &[u32]) -> bool
    ensures { IsTrue result ↔ All (λ e. request_of e < length widths.now) log.now }
{
    log.iter().all(|event| {
        let (Enter(request, _)
        | Event::Full(request, _)
        | Dispatch(request, _)
        | Event::Strike(request, _)) = *event;
        (request as usize) < widths.len()
    })
}

// A log in the order of time, with the queue that each request was dealt and how wide it is.
#[derive(Clone, Copy)]
pub struct Row<'a> {
    pub log: &'a [Event],
    pub queues: &'a [u32],
    pub widths: &'a [u32],
}

// Asserts that the log is legal, each hand being one queue.
pub fn assert_legal(
    rt: &impl Abort,
    alloc: Global,
    log: &[Event],
    queues: &[u32],
) -> Result<(), AllocError>
    ensures { OnOk result (IsLegal (hand_in queues.now 1) 10 (reverse log.now)) }
{
    let history = newest_first(alloc, log)?;
    let legal = is_legal(alloc, queues, 1, 10, history.as_slice())?;
    assert!(rt; legal);
    Ok(())
}

// The services of queues 0 and 1 between two places of the log.
fn services(
    rt: &impl Abort,
    alloc: Global,
    row: Row<'_>,
    from: u32,
    to: u32,
) -> Result<Option<(u64, u64)>, AllocError> {
    assert_legal(rt, alloc, row.log, row.queues)?;
    let wide = have_widths(row.log, row.widths);
    assert!(rt; wide);
    assert!(rt; from <= to && to as usize <= row.log.len());
    Ok(apf_book::balance(row.log, row.widths, from, to, 0, 1))
}

#[test]
fn balance(rt: HostRuntime) -> Result<(), Fail> {
    // The wide ones of four requests enter first.
    let row = Row {
        log: &[
            Enter(1, 0),
            Enter(2, 0),
            Enter(3, 1),
            Enter(4, 1),
            Dispatch(3, 1),
            Dispatch(4, 1),
            Dispatch(1, 0),
            Dispatch(2, 0),
        ],
        queues: &[0, 0, 0, 1, 1],
        widths: &[3, 3, 3, 1, 1],
    };
    for (from, to, want) in [
        (4, 5, Some((0, 1))),
        (3, 5, Some((0, 1))),
        (2, 5, None),
        (4, 6, None),
    ] {
        is_at(
            &rt,
            services(&rt, rt.alloc(), row, from, to)?,
            want,
            (from, to),
        );
    }
    Ok(())
}
