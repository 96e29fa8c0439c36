//! The numbers of a history, and what became of each request.

ghost use Rattle.std.specs.Prelude.{◌≡◌, ◌≤◌, ◌<◌, ◌*◌, ◌^◌, length, count_by, IfOk};
ghost use Rattle.apf_history.specs.Tally.{tally};
ghost use Rattle.apf_history.specs.History.{waiting};
ghost use Rattle.apf_history.specs.Outcome.{is_enter, is_full, is_dispatch, is_strike, stats_of};
ghost use Rattle.apf_history.specs.Order.{status};
ghost use Rattle.apf_plain.specs.Histories.{AreStats};

use crate::waiting;
use apf_model::{Event, Status};
use std::alloc::{AllocError, Global};

/// The numbers of a history.
#[derive(Clone, Copy, Debug, PartialEq, Eq)]
pub struct Stats {
    /// How many entered a queue.
    pub entered: u64,
    /// How many were dispatched.
    pub dispatched: u64,
    /// How many were struck out of their queue.
    pub struck: u64,
    /// How many were rejected, as their queue was full.
    pub full: u64,
    /// How many wait, in all queues together.
    pub waiting: u64,
}

/// What became of the request, by the history.
pub fn status(history: &[Event], request: u32) -> Status
    ensures { result ≡ status history.now request }
{
    let Some((newest, before)) = history.split_first() else {
        return Status::Away;
    };
    match *newest {
        Event::Enter(named, _) if named == request => Status::Waits,
        Event::Full(named, _) if named == request => Status::Full,
        Event::Dispatch(named, _) if named == request => Status::Dispatched,
        Event::Strike(named, _) if named == request => Status::Struck,
        _ => status(before, request),
    }
}

// How many events of each kind there are.
#[tactic(auto, using(crate::proofs::Events::count))]
fn counted(history: &[Event]) -> Stats
    requires short { length history.now < 2 ^ 20 }
    ensures entered { result.entered ≡ count_by is_enter history.now }
    ensures dispatched { result.dispatched ≡ count_by is_dispatch history.now }
    ensures struck { result.struck ≡ count_by is_strike history.now }
    ensures full { result.full ≡ count_by is_full history.now }
    ensures few { (result.entered ≤ length history.now) × (result.dispatched ≤ length history.now)
        × (result.struck ≤ length history.now) × (result.full ≤ length history.now) }
{
    let Some((newest, before)) = history.split_first() else {
        return Stats {
            entered: 0,
            dispatched: 0,
            struck: 0,
            full: 0,
            waiting: 0,
        };
    };
    let mut stats = counted(before);
    match *newest {
        Event::Enter(..) => stats.entered += 1,
        Event::Full(..) => stats.full += 1,
        Event::Dispatch(..) => stats.dispatched += 1,
        Event::Strike(..) => stats.struck += 1,
    }
    stats
}

// How many wait in the queues together.
#[tactic(auto, using(crate::proofs::Events::waiting_short))]
fn waiting_together(alloc: Global, queues: u32, history: &[Event]) -> Result<u64, AllocError>
    requires short { length history.now < 2 ^ 20 }
    ensures { IfOk result (λ n. n ≡ tally (λ q. length (waiting history.now q)) queues) }
{
    let mut sum = 0;
    for queue in 0..queues {
        sum += waiting(alloc, history, queue)?.len() as u64;
    }
    Ok(sum)
}

/// The numbers of a history over this many queues.
pub fn stats_of(alloc: Global, queues: u32, history: &[Event]) -> Result<Stats, AllocError>
    requires short { length history.now < 2 ^ 20 }
    ensures { IfOk result (AreStats (stats_of queues history.now)) }
{
    let mut stats = counted(history);
    stats.waiting = waiting_together(alloc, queues, history)?;
    Ok(stats)
}
