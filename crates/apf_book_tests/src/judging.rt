//! The plain program judges a level that ended.

ghost use Rattle.std.specs.Prelude.{◌≡◌, ◌≤◌, length, IfOk, reverse};

use crate::asserts::is;
use crate::opening::Fault;
use apf_book::{Ask, Config, Stats};
use apf_gate::Words;
use apf_model::Event;
use apf_plain::{
    agrees, decided, executes_arrivals, is_fair, is_legal, names_queues, names_requests, stats_of,
};
use apf_words::Decision;
use std::alloc::{AllocError, Global};
use std::process::Abort;

/// A level that ended: what it was opened with, and what came of it.
#[derive(Clone, Copy)]
pub struct Ended<'a> {
    pub config: Config,
    pub asks: &'a [Ask],
    /// The hand of each request, one after another.
    pub hands: &'a [u32],
    /// The log, the oldest event first.
    pub log: &'a [Event],
    pub stats: Stats,
    /// Which requests executed with the seats that they took on arrival.
    pub took: &'a [bool],
}

/// The log as a history.
pub fn newest_first(alloc: Global, log: &[Event]) -> Result<Vec<Event, Global>, AllocError>
    ensures { IfOk result (λ v. v.items ≡ reverse log.now) }
{
    let mut history = log.to_vec(alloc)?;
    history.reverse();
    Ok(history)
}

// Asserts that the log is of the level's requests and queues, legal and fair, and that the numbers kept beside it
// are those that the plain program counts.
fn judge_log<R: Abort>(rt: &R, alloc: Global, ended: &Ended<'_>) -> Result<(), Fault> {
    let history = newest_first(alloc, ended.log)?;
    let history = history.as_slice();
    let widths: Vec<u32, Global> = ended.asks.iter().map(|ask| ask.width).collect(alloc)?;
    let config = ended.config;
    let few = history.len() < 1000 && widths.len() < 1000;
    assert!(rt; few);
    let named = names_requests(widths.len() as u32, history);
    let of_queues = names_queues(config.queues, history);
    assert!(rt; named && of_queues);
    let size = config.hand_size;
    let most = config.queue_length_limit;
    assert!(rt; is_legal(alloc, ended.hands, size, most, history)?);
    let fair = is_fair(
        alloc,
        config.queues,
        widths.as_slice(),
        ended.hands,
        size,
        most,
        history,
    )?;
    assert!(rt; fair);
    let counted = stats_of(alloc, config.queues, history)?;
    is(rt, u64::from(ended.stats.entered), counted.entered);
    is(rt, u64::from(ended.stats.dispatched), counted.dispatched);
    is(rt, u64::from(ended.stats.struck), counted.struck);
    is(rt, u64::from(ended.stats.full), counted.full);
    is(rt, u64::from(ended.stats.waiting), counted.waiting);
    Ok(())
}

// Asserts that the log agrees with the decisions, and that the decisions are of all requests.
fn judge_decisions<R: Abort>(
    rt: &R,
    alloc: Global,
    ended: &Ended<'_>,
    decisions: &[Option<Decision>],
) -> Result<(), Fault> {
    let history = newest_first(alloc, ended.log)?;
    let few = decisions.len() < 1000 && ended.asks.len() < 1000;
    assert!(rt; few);
    assert!(rt; agrees(history.as_slice(), decisions));
    assert!(rt; executes_arrivals(history.as_slice(), decisions, ended.took));
    let executed = decided(Decision::Execute, decisions);
    let cancelled = decided(Decision::Cancelled, decisions);
    let full = decided(Decision::QueueFull, decisions);
    is(rt, executed + cancelled + full, ended.asks.len() as u32);
    let took = ended.took.iter().filter(|took| **took).count();
    is(
        rt,
        u64::from(ended.stats.dispatched) + took as u64,
        u64::from(executed),
    );
    is(rt, ended.stats.full, full);
    is(rt, ended.stats.waiting, 0);
    Ok(())
}

// The decisions that the words say.
fn decisions_of(
    alloc: Global,
    words: &Words<Global>,
    count: u32,
) -> Result<Vec<Option<Decision>, Global>, AllocError>
    requires { count ≤ length words.now.decisions }
{
    let mut decisions = Vec::new(alloc);
    for request in 0..count {
        decisions.push(words.decision(request))?;
    }
    Ok(decisions)
}

/// Asserts that the log is legal and fair, that the numbers kept beside it are its own, and that it agrees with
/// the decisions that the words say: each request is executed, cancelled or rejected as its queue was full, and
/// nothing is left of seats and waiters.
pub fn judge<R: Abort>(
    rt: &R,
    alloc: Global,
    ended: &Ended<'_>,
    words: &Words<Global>,
) -> Result<(), Fault>
    requires { length words.now.decisions ≡ length ended.now.asks.now }
{
    let level = words.level();
    is(rt, level.seats(), 0);
    is(rt, level.waiters(), 0);
    let few = ended.asks.len() < 1000;
    assert!(rt; few);
    let decisions = decisions_of(alloc, words, ended.asks.len() as u32)?;
    judge_log(rt, alloc, ended)?;
    judge_decisions(rt, alloc, ended, decisions.as_slice())
}
