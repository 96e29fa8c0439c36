//! Whether a history agrees with the decisions.

ghost use Rattle.std.specs.Prelude.{◌≡◌, ◌↔◌, ℕ, ◌<◌, ◌≤◌, ◌^◌, length, true, false, Some, IsTrue, Contains};
ghost use Rattle.apf_words.specs.declared.decision.Decision.TheVariants.{Execute, QueueFull};
ghost use Rattle.apf_history.specs.declared.events.Event.TheVariants as events;
ghost use Rattle.apf_history.specs.Outcome.{Agrees, ExecutesArrivals, decided};
ghost use Rattle.apf_plain.specs.Histories.{decision_in, took_in, AreDecided, has_full, has_dispatch};

use apf_model::Event;
use apf_words::Decision;

// What the request is decided, if anything.
fn decision_of(decisions: &[Option<Decision>], request: u32) -> Option<Decision>
    ensures { result ≡ decision_in decisions.now request }
{
    decisions.get(request as usize).copied().unwrap_or(None)
}

// Whether each dispatched request is decided execute, each struck one cancelled, and each refused one
// queue-full.
fn are_decided(history: &[Event], decisions: &[Option<Decision>]) -> bool
    ensures { IsTrue result ↔ AreDecided (decision_in decisions.now) history.now }
{
    let Some((newest, before)) = history.split_first() else {
        return true;
    };
    let fits = match *newest {
        Event::Enter(..) => true,
        Event::Full(request, _) => { decision_of(decisions, request) == Some(Decision::QueueFull) }
        Event::Dispatch(request, _) => {
            decision_of(decisions, request) == Some(Decision::Execute)
        }
        Event::Strike(request, _) => {
            decision_of(decisions, request) == Some(Decision::Cancelled)
        }
    };
    fits && are_decided(before, decisions)
}

// Whether the request was refused, as its queue was full.
fn has_full(history: &[Event], request: u32) -> bool
    ensures { result ≡ has_full history.now request }
{
    let Some((newest, before)) = history.split_first() else {
        return false;
    };
    match *newest {
        Event::Full(named, _) => named == request || has_full(before, request),
        Event::Enter(..) | Event::Dispatch(..) | Event::Strike(..) => has_full(before, request),
    }
}

// Whether each request that is decided queue-full was refused so.
#[tactic(auto, using(crate::proofs::Agreeing::decided_within))]
fn has_each_full(history: &[Event], decisions: &[Option<Decision>]) -> bool
    requires few { length decisions.now < 2 ^ 32 }
    ensures { IsTrue result ↔ ((r : ℕ) → decision_in decisions.now r ≡ Some QueueFull → has_full history.now r ≡ true) }
{
    for request in 0..decisions.len() as u32 {
        let is_full = decision_of(decisions, request) == Some(Decision::QueueFull);
        if is_full && !has_full(history, request) {
            return false;
        }
    }
    true
}

/// Whether the history agrees with the decisions: each dispatched request is decided execute, each
/// struck one cancelled, and those with a Full event are exactly those decided queue-full. The
/// decisions stand in the order of the requests; `None` is undecided.
#[tactic(auto, using(crate::proofs::Agreeing::agrees_by, crate::proofs::Agreeing::agrees_decided, crate::proofs::Agreeing::agrees_full))]
pub fn agrees(history: &[Event], decisions: &[Option<Decision>]) -> bool
    requires few { length decisions.now < 2 ^ 32 }
    ensures { IsTrue result ↔ Agrees history.now (decision_in decisions.now) }
{
    are_decided(history, decisions) && has_each_full(history, decisions)
}

// Whether the request was dispatched.
fn has_dispatch(history: &[Event], request: u32) -> bool
    ensures { result ≡ has_dispatch history.now request }
{
    let Some((newest, before)) = history.split_first() else {
        return false;
    };
    match *newest {
        Event::Dispatch(named, _) => named == request || has_dispatch(before, request),
        Event::Enter(..) | Event::Full(..) | Event::Strike(..) => has_dispatch(before, request),
    }
}

// Whether the request took its seats on arrival.
fn took_seats(took: &[bool], request: u32) -> bool
    ensures { result ≡ took_in took.now request }
{
    took.get(request as usize).copied().unwrap_or(false)
}

// Whether the request, if it is decided execute and took no seats, was dispatched.
fn is_accounted(
    history: &[Event],
    decisions: &[Option<Decision>],
    took: &[bool],
    request: u32,
) -> bool
    ensures { IsTrue result ↔ (decision_in decisions.now request ≡ Some Execute → took_in took.now request ≡ false
        → has_dispatch history.now request ≡ true) }
{
    let executes = decision_of(decisions, request) == Some(Decision::Execute);
    !executes || took_seats(took, request) || has_dispatch(history, request)
}

/// Whether each request that is decided execute was dispatched, or took its seats on arrival, as
/// `took` says of each request.
#[tactic(auto, using(crate::proofs::Agreeing::decided_within, crate::proofs::Agreeing::dispatch_in, crate::proofs::Agreeing::in_dispatch))]
pub fn executes_arrivals(history: &[Event], decisions: &[Option<Decision>], took: &[bool]) -> bool
    requires few { length decisions.now < 2 ^ 32 }
    ensures { IsTrue result ↔ ExecutesArrivals history.now (decision_in decisions.now) (took_in took.now) }
{
    for request in 0..decisions.len() as u32 {
        if !is_accounted(history, decisions, took, request) {
            return false;
        }
    }
    true
}

/// How many of the requests are decided so.
#[tactic(auto, using(crate::proofs::Agreeing::decided_yes, crate::proofs::Agreeing::decided_no))]
pub fn decided(decision: Decision, decisions: &[Option<Decision>]) -> u32
    requires few { length decisions.now < 2 ^ 32 }
    ensures value { result ≡ decided decision (decision_in decisions.now) (length decisions.now) }
    ensures few { result ≤ length decisions.now }
{
    let mut count = 0;
    for request in 0..decisions.len() as u32 {
        if decision_of(decisions, request) == Some(decision) {
            count += 1;
        }
    }
    count
}
