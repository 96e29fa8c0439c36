//! Writes what a level and its callers told, a line for each fact.

use crate::levels::stress::course::Course;
use crate::levels::stress::judged::Verdict;
use crate::levels::stress::note::{Act, Note};
use apf_book::{Ask, Stats};
use apf_model::Event;
use apf_words::Decision;
use std::io;

fn word(decision: Decision) -> &'static str {
    match decision {
        Decision::Execute => "execute",
        Decision::QueueFull => "queue-full",
        Decision::Closed => "closed",
        Decision::Cancelled => "cancelled",
        Decision::ConcurrencyLimit => "concurrency-limit",
    }
}

// A request: its width, its flow's hash, what its caller was told, and how.
fn tell_request(rt: &HostRuntime, number: usize, ask: Ask, note: Note) -> io::Result<()> {
    let (width, hash) = (ask.width, ask.hash);
    let told = match note.told {
        Some(decision) => word(decision),
        None => "nothing",
    };
    let tried = if note.tried { " tried" } else { "" };
    let waited = if note.waited { " waited" } else { "" };
    let late = if note.late { " late" } else { "" };
    println!(rt; "request {number} {width} {hash} {told}{tried}{waited}{late}")
}

fn tell_act(rt: &HostRuntime, act: Act) -> io::Result<()> {
    match act {
        Act::Cancel(request, decision) => {
            let told = word(decision);
            println!(rt; "cancel {request} {told}")
        }
        Act::Strike(request) => println!(rt; "strike {request}"),
        Act::Limit(old, new) => println!(rt; "limit {old} {new}"),
        Act::Close(told) => println!(rt; "close {told:?}"),
    }
}

fn tell_event(rt: &HostRuntime, event: Event) -> io::Result<()> {
    match event {
        Event::Enter(request, queue) => println!(rt; "event enter {request} {queue}"),
        Event::Full(request, queue) => println!(rt; "event full {request} {queue}"),
        Event::Dispatch(request, queue) => println!(rt; "event dispatch {request} {queue}"),
        Event::Strike(request, queue) => println!(rt; "event strike {request} {queue}"),
    }
}

fn tell_numbers(rt: &HostRuntime, name: &str, stats: Stats) -> io::Result<()> {
    let Stats {
        entered,
        dispatched,
        struck,
        full,
        waiting,
    } = stats;
    println!(rt; "{name} {entered} {dispatched} {struck} {full} {waiting}")
}

// What the level was opened with, and what its callers were told.
fn tell_calls(rt: &HostRuntime, course: &Course) -> io::Result<()> {
    let config = course.config;
    let (limit, queues) = (config.limit, config.queues);
    let (hand, most) = (config.hand_size, config.queue_length_limit);
    println!(rt; "config {limit} {queues} {hand} {most}")?;
    for (number, (ask, note)) in course.asks.iter().zip(&course.told.notes).enumerate() {
        tell_request(rt, number, *ask, *note)?;
    }
    for act in &course.told.acts {
        tell_act(rt, *act)?;
    }
    Ok(())
}

// What the level told at its end.
fn tell_report(rt: &HostRuntime, course: &Course) -> io::Result<()> {
    let report = &course.told.report;
    let level = report.word;
    let is = if level.closed() { "closed" } else { "open" };
    let (seats, waiters, limit) = (level.seats(), level.waiters(), level.limit());
    println!(rt; "word {is} {seats} {waiters} {limit}")?;
    for (number, decision) in report.decisions.iter().enumerate() {
        let decision = word(*decision);
        println!(rt; "decision {number} {decision}")?;
    }
    for event in &report.log {
        tell_event(rt, *event)?;
    }
    tell_numbers(rt, "stats", report.stats)?;
    let counts = report.counts;
    let (executed, full) = (counts.executed, counts.queue_full);
    let (closed, limited) = (counts.closed, counts.concurrency_limit);
    let cancelled = counts.cancelled;
    println!(rt; "counts {executed} {full} {closed} {limited} {cancelled}")
}

/// Writes what the plain program says.
///
/// # Errors
///
/// Why it could not be written.
pub fn tell_verdict(rt: &HostRuntime, verdict: Verdict) -> io::Result<()> {
    let Verdict {
        is_fair,
        agrees,
        is_balanced,
        adds_up,
    } = verdict;
    println!(rt; "plain fair {is_fair} agrees {agrees} balanced {is_balanced} adds-up {adds_up}")
}

/// Writes the whole of what the level and its callers told.
///
/// # Errors
///
/// Why it could not be written.
pub fn tell(rt: &HostRuntime, course: &Course) -> io::Result<()> {
    tell_calls(rt, course)?;
    let most = course.told.most;
    println!(rt; "most {most}")?;
    tell_numbers(rt, "read", course.told.read)?;
    tell_report(rt, course)
}
