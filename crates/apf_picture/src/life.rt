//! What is drawn of one request.

ghost use Rattle.std.specs.Prelude.{◌≡◌, ◌<◌, ◌≤◌, length, map, vec_len, All, IfOk};
ghost use Rattle.apf_picture.specs.Lives.{fate_of, later_by, seats_by, life_by, lives_by, life_seen, queue_seen, seen_at};

use crate::scene::Outcome;
use apf_traces::TraceRequest;
use apf_words::Decision;
use std::alloc::{AllocError, Global};

/// How a request ended.
#[derive(Clone, Copy, PartialEq, Eq)]
pub(crate) enum Fate {
    Executed,
    Rejected,
    GaveUp,
}

/// One request. Times are microseconds, at most 2^64 - 1: what is later is then.
#[derive(Clone, Copy)]
pub(crate) struct Life {
    /// The number of its row.
    pub(crate) row: u32,
    pub(crate) fate: Fate,
    pub(crate) arrives: u64,
    /// When its wait was over.
    pub(crate) until: u64,
    /// When it gave its seats back, if it had seats.
    pub(crate) ends: u64,
    /// The seats that it had from the end of its wait on.
    pub(crate) seats: u32,
    pub(crate) wait: u64,
    /// The queue in which it waited.
    pub(crate) queue: Option<u32>,
}

// How a request ended of which this was decided.
fn decided_fate(decision: Decision) -> Fate
    ensures { result ≡ fate_of decision }
{
    match decision {
        Decision::Execute => Fate::Executed,
        Decision::Cancelled => Fate::GaveUp,
        Decision::QueueFull | Decision::Closed | Decision::ConcurrencyLimit => Fate::Rejected,
    }
}

// A later time.
fn later(time: u64, by: u64) -> u64
    ensures { result ≡ later_by time by }
{
    if by > u64::MAX - time {
        return u64::MAX;
    }
    time + by
}

// The seats that a request was given.
fn seats(decision: Decision, width: u32) -> u32
    ensures { result ≡ seats_by decision width }
{
    match decision {
        Decision::Execute => width,
        Decision::QueueFull | Decision::Closed | Decision::Cancelled | Decision::ConcurrencyLimit =>
            0,
    }
}

// What is drawn of a request.
fn request_life(request: &TraceRequest, outcome: Outcome, row: u32) -> Life
    ensures { result ≡ life_by request.now outcome row }
{
    let until = later(request.arrives_at, outcome.wait);
    Life {
        row,
        fate: decided_fate(outcome.decision),
        arrives: request.arrives_at,
        until,
        ends: later(until, request.runs_for),
        seats: seats(outcome.decision, request.width),
        wait: outcome.wait,
        queue: outcome.queue,
    }
}

/// What is drawn of each request, where each flow has this row.
pub(crate) fn lives(
    alloc: Global,
    trace: &[TraceRequest],
    outcomes: &[Outcome],
    flows: &[u32],
    rows: &[u32],
) -> Result<Vec<Life>, AllocError>
    requires outcomes { length outcomes.now ≡ length trace.now }
    requires flows { length flows.now ≡ length trace.now }
    requires rows { All (λ flow. flow < length rows.now) flows.now }
    ensures lives { IfOk result (λ lives. lives.items ≡ lives_by trace.now outcomes.now flows.now rows.now) }
    ensures each { IfOk result (λ lives. vec_len lives ≡ length trace.now) }
{
    let mut lives = Vec::new(alloc);
    for (number, request) in trace.iter().enumerate() {
        let row = rows[flows[number] as usize];
        lives.push(request_life(request, outcomes[number], row))?;
    }
    Ok(lives)
}

// A time as the stretch from this time on shows it, which is so long.
fn seen_time(time: u64, from: u64, long: u64) -> u64
    ensures { result ≡ seen_at from long time }
{
    let behind = time.saturating_sub(from);
    if behind <= long { behind } else { long + 1 }
}

// The queue of a request that waited from this time on.
fn seen_queue(life: &Life, from: u64) -> Option<u32>
    ensures { result ≡ queue_seen from life.now }
{
    if from <= life.until { life.queue } else { None }
}

// A request as the stretch from this time on shows it, which is so long.
fn seen_life(life: &Life, from: u64, long: u64) -> Life
    ensures { result ≡ life_seen from long life.now }
{
    Life {
        row: life.row,
        fate: life.fate,
        arrives: seen_time(life.arrives, from, long),
        until: seen_time(life.until, from, long),
        ends: seen_time(life.ends, from, long),
        seats: life.seats,
        wait: life.wait,
        queue: seen_queue(life, from),
    }
}

/// What the stretch from this time on shows of each request, which is so long.
pub(crate) fn seen(
    alloc: Global,
    lives: &[Life],
    from: u64,
    long: u64,
) -> Result<Vec<Life>, AllocError>
    ensures seen { IfOk result (λ seen. seen.items ≡ map (life_seen from long) lives.now) }
    ensures each { IfOk result (λ seen. vec_len seen ≡ length lives.now) }
{
    let mut seen = Vec::new(alloc);
    for life in lives {
        seen.push(seen_life(life, from, long))?;
    }
    Ok(seen)
}
