//! The plain program judges a level that ended: the oldest part of its log, and the sums of all its decisions.

ghost use Rattle.std.specs.Prelude.{◌<◌, ◌≤◌, ◌^◌, length};

use crate::levels::stress::course::Course;
use apf_book::Ask;
use apf_flow::Dealer;
use apf_level::Report;
use apf_model::Event;
use apf_plain::{
    agrees, decided, executes_arrivals, is_fair, is_never_empty, names_queues, names_requests,
    service,
};
use apf_words::Decision;
use std::alloc::{AllocError, Global};

// In how many stretches the log is cut, in which the services of queues are compared.
const STRETCHES: usize = 8;

/// What the plain program says of a level.
#[derive(Clone, Copy)]
pub struct Verdict {
    /// The oldest events, so far as they were judged, are a legal and fair history.
    pub is_fair: bool,
    /// They agree with the decisions.
    pub agrees: bool,
    /// The services of queues that are never empty in a stretch of them are balanced.
    pub is_balanced: bool,
    /// The counts are those of the decisions, and sum to the requests.
    pub adds_up: bool,
}

// The hand of each request, one after another.
fn hands_of(alloc: Global, dealer: &Dealer, asks: &[Ask]) -> Result<Vec<u32>, AllocError> {
    let mut hands = Vec::new(alloc);
    for ask in asks {
        hands.extend_from_slice(dealer.deal(ask.hash).as_slice())?;
    }
    Ok(hands)
}

// The oldest events of the log, this many at most, as a history: the newest first.
fn oldest(alloc: Global, log: &[Event], most: usize) -> Result<Vec<Event>, AllocError> {
    let count = log.len().min(most);
    let mut history = log[..count].to_vec(alloc)?;
    history.reverse();
    Ok(history)
}

// The decisions, without those of requests that a later event names.
fn decisions_of(
    alloc: Global,
    report: &Report,
    most: usize,
) -> Result<Vec<Option<Decision>>, AllocError> {
    let mut decisions = Vec::with_capacity(alloc, report.decisions.len())?;
    for decision in &report.decisions {
        decisions.push(Some(*decision))?;
    }
    for event in report.log.iter().skip(most) {
        let (Event::Enter(request, _)
        | Event::Full(request, _)
        | Event::Dispatch(request, _)
        | Event::Strike(request, _)) = *event;
        if let Some(place) = decisions.get_mut(request as usize) {
            *place = None;
        }
    }
    Ok(decisions)
}

// Whether the services of queues that are never empty in the newest events of the history differ by at most twice
// the largest width.
fn is_balanced_in(
    alloc: Global,
    queues: u32,
    widths: &[u32],
    history: &[Event],
    stretch: usize,
) -> Result<bool, AllocError>
    requires inside { stretch ≤ length history.now }
    requires short { length history.now < 2 ^ 20 }
{
    let mut least = u64::MAX;
    let mut most = 0;
    for queue in 0..queues {
        if is_never_empty(alloc, history, stretch, queue)? {
            let served = service(widths, &history[..stretch], queue);
            least = least.min(served);
            most = most.max(served);
        }
    }
    let widest = u64::from(widths.iter().copied().max().unwrap_or(0));
    Ok(most.saturating_sub(least) <= 2 * widest)
}

// Whether the services are balanced in each stretch of the history.
fn is_balanced(
    alloc: Global,
    queues: u32,
    widths: &[u32],
    history: &[Event],
) -> Result<bool, AllocError>
    requires short { length history.now < 2 ^ 20 }
{
    let stretch = history.len() / STRETCHES;
    for later in 0..STRETCHES {
        let end = &history[(later * stretch).min(history.len())..];
        let stretch = stretch.min(end.len());
        if !is_balanced_in(alloc, queues, widths, end, stretch)? {
            return Ok(false);
        }
    }
    Ok(true)
}

// Whether the counts are those of the decisions, and sum to the requests.
fn adds_up(alloc: Global, report: &Report, requests: usize) -> Result<bool, AllocError> {
    let decisions = decisions_of(alloc, report, usize::MAX)?;
    if decisions.len() != requests || requests > 10_000 {
        return Ok(false);
    }
    let counts = report.counts;
    for (decision, count) in [
        (Decision::Execute, counts.executed),
        (Decision::QueueFull, counts.queue_full),
        (Decision::Closed, counts.closed),
        (Decision::ConcurrencyLimit, counts.concurrency_limit),
        (Decision::Cancelled, counts.cancelled),
    ] {
        if decided(decision, decisions.as_slice()) != count {
            return Ok(false);
        }
    }
    let sum = u64::from(counts.executed)
        .saturating_add(u64::from(counts.queue_full))
        .saturating_add(u64::from(counts.closed))
        .saturating_add(u64::from(counts.concurrency_limit))
        .saturating_add(u64::from(counts.cancelled));
    Ok(sum == requests as u64)
}

/// What the plain program says of the level, by this many of its oldest events, or `None` if it can't judge them.
///
/// # Errors
///
/// `AllocError` if memory was refused.
pub fn judge(alloc: Global, course: &Course, most: usize) -> Result<Option<Verdict>, AllocError> {
    let config = &course.config;
    let report = &course.told.report;
    let history = oldest(alloc, report.log.as_slice(), most)?;
    let history = history.as_slice();
    let widths: Vec<u32> = course.asks.iter().map(|ask| ask.width).collect(alloc)?;
    let widths = widths.as_slice();
    let Ok(dealer) = Dealer::new(config.queues, config.hand_size) else {
        return Ok(None);
    };
    let hands = hands_of(alloc, &dealer, course.asks.as_slice())?;
    let decisions = decisions_of(alloc, report, most)?;
    let took: Vec<bool> = course
        .told
        .notes
        .iter()
        .map(|note| !note.waited)
        .collect(alloc)?;
    let is_short = history.len() < 1_000_000 && widths.len() <= 10_000 && decisions.len() <= 10_000;
    if !is_short
        || !names_queues(config.queues, history)
        || !names_requests(widths.len() as u32, history)
    {
        return Ok(None);
    }
    Ok(Some(Verdict {
        is_fair: is_fair(
            alloc,
            config.queues,
            widths,
            hands.as_slice(),
            config.hand_size,
            config.queue_length_limit,
            history,
        )?,
        agrees: agrees(history, decisions.as_slice())
            && executes_arrivals(history, decisions.as_slice(), took.as_slice()),
        is_balanced: is_balanced(alloc, config.queues, widths, history)?,
        adds_up: adds_up(alloc, report, course.asks.len())?,
    }))
}
