//! The services of two queues in a stretch of a log.

ghost use Rattle.std.specs.Prelude.{◌≡◌, ◌⊎◌, ◌*◌, ◌+◌, ◌^◌, ◌<◌, ◌≤◌, ◌∷◌, ℕ, List, length, reverse, All, MatchOption, IfSome};
ghost use Rattle.apf_history.specs.declared.events.Event.{Event};
ghost use Rattle.apf_model.specs.History.{request_of, IsLegal};
ghost use Rattle.apf_model.specs.Fair.{IsFair, service, widest, DifferAtMost};
ghost use Rattle.apf_book.specs.Stretch.{IsEmptyIn, IsBacklogged, service_in};
ghost use Rattle.apf_book.specs.Counted.{IsCountAt, coming, leaving};

use crate::histories::{fair_histories_are_balanced, legal_histories_are_in_order};
use apf_model::Event;

// What is counted of a queue along a log.
#[derive(Clone, Copy)]
pub struct Count {
    // How many requests wait in it.
    waiting: u32,
    // The sum of the widths dispatched from it since the stretch began.
    service: u64,
}

/// The services of queues `a` and `b`, in seats, in the stretch of the log between two places, if
/// neither is empty at a place of it, both ends included; else `None`. Place k is after k events.
///
/// The log has its oldest event first. It is legal for some hands and some length limit, and each of
/// its requests has a width. Where it is fair for these widths and some number of queues, among which
/// are `a` and `b`, the two services differ by at most twice the largest width. It goes over the log
/// once, and takes no memory.
pub fn balance(
    log: &[Event],
    widths: &[u32],
    from: u32,
    to: u32,
    a: u32,
    b: u32,
) -> Option<(u64, u64)>
    requires in_order { from ≤ to }
    requires in_log { to ≤ length log.now }
    requires legal { (hands : ℕ → List ℕ) × ((limit : ℕ) × IsLegal hands limit (reverse log.now)) }
    requires have_widths { All (λ e. request_of e < length widths.now) log.now }
    ensures services { MatchOption result (IsEmptyIn log.now from to a ⊎ IsEmptyIn log.now from to b)
        (λ s. IsBacklogged log.now from to a × IsBacklogged log.now from to b
        × (s.0 ≡ service_in widths.now log.now from to a) × (s.1 ≡ service_in widths.now log.now from to b)) }
    ensures balanced { IfSome result (λ s. (queues : ℕ) (hands : ℕ → List ℕ) (limit : ℕ)
        → IsFair queues widths.now hands limit (reverse log.now) → a < queues → b < queues
        → DifferAtMost (2 * widest widths.now) s.0 s.1) }
{
    fair_histories_are_balanced();
    services(log, widths, from, to, a, b)
}

// The two services, or `None` if one of the queues is empty at a place of the stretch.
fn services(log: &[Event], widths: &[u32], from: u32, to: u32, a: u32, b: u32) -> Option<(u64, u64)>
    requires in_order { from ≤ to }
    requires in_log { to ≤ length log.now }
    requires legal { (hands : ℕ → List ℕ) × ((limit : ℕ) × IsLegal hands limit (reverse log.now)) }
    requires have_widths { All (λ e. request_of e < length widths.now) log.now }
    ensures { MatchOption result (IsEmptyIn log.now from to a ⊎ IsEmptyIn log.now from to b)
        (λ s. IsBacklogged log.now from to a × IsBacklogged log.now from to b
        × (s.0 ≡ service_in widths.now log.now from to a) × (s.1 ≡ service_in widths.now log.now from to b)) }
{
    let mut of_a = nothing();
    let mut of_b = nothing();
    for place in 0..to {
        if place >= from && (of_a.waiting == 0 || of_b.waiting == 0) {
            return None;
        }
        of_a = follow(log, widths, from, place, a, of_a);
        of_b = follow(log, widths, from, place, b, of_b);
    }
    if of_a.waiting == 0 || of_b.waiting == 0 {
        return None;
    }
    Some((of_a.service, of_b.service))
}

// What is counted before the first event.
fn nothing() -> Count
    ensures { (widths : List ℕ) (log : List Event) (from queue : ℕ) → IsCountAt widths log from 0 queue result }
{
    Count {
        waiting: 0,
        service: 0,
    }
}

// What is counted after the event at this place.
fn follow(log: &[Event], widths: &[u32], from: u32, place: u32, queue: u32, count: Count) -> Count
    requires in_log { place < length log.now }
    requires low { place + 1 < 2 ^ 32 }
    requires legal { (hands : ℕ → List ℕ) × ((limit : ℕ) × IsLegal hands limit (reverse log.now)) }
    requires have_widths { All (λ e. request_of e < length widths.now) log.now }
    requires counted { IsCountAt widths.now log.now from place queue count }
    ensures { IsCountAt widths.now log.now from (place + 1) queue result }
{
    legal_histories_are_in_order();
    let event = log[place as usize];
    Count {
        waiting: waiting_after(count.waiting, event, queue),
        service: if place >= from {
            service_after(count.service, event, widths, queue)
        } else {
            count.service
        },
    }
}

// How many wait in the queue after an event.
fn waiting_after(waiting: u32, event: Event, queue: u32) -> u32
    requires some { leaving event queue ≤ waiting }
    requires few { waiting + 1 < 2 ^ 32 }
    ensures { result + leaving event queue ≡ waiting + coming event queue }
{
    match event {
        Event::Enter(_, at) if at == queue => waiting + 1,
        Event::Dispatch(_, at) | Event::Strike(_, at) if at == queue => waiting - 1,
        _ => waiting,
    }
}

// The service of the queue after an event.
fn service_after(served: u64, event: Event, widths: &[u32], queue: u32) -> u64
    requires has_width { request_of event < length widths.now }
    requires small { served + 2 ^ 32 < 2 ^ 64 }
    ensures value { (stretch : List Event) → served ≡ service widths.now stretch queue
        → result ≡ service widths.now (event ∷ stretch) queue }
    ensures small { result ≤ served + 2 ^ 32 }
{
    match event {
        Event::Dispatch(request, from) if from == queue => {
            served + u64::from(widths[request as usize])
        }
        _ => served,
    }
}
