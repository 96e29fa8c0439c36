//! The wait of a request in a log, and what is granted while it lasts.

ghost use Rattle.std.specs.Prelude.{◌≡◌, ◌≢◌, ℕ, ◌+◌, ◌-◌, ◌*◌, ◌^◌, ◌<◌, ◌≤◌, ◌∷◌, List, length, reverse, slice_get, slice_index, All, MatchOption, IfSome};
ghost use Rattle.apf_words.specs.Limits.{max_queues};
ghost use Rattle.apf_history.specs.declared.events.Event.{Event};
ghost use Rattle.apf_model.specs.History.{request_of, queue_of, IsLegal};
ghost use Rattle.apf_model.specs.Fair.{IsFair, service, widest};
ghost use Rattle.apf_model.specs.Waits.{granted};
ghost use Rattle.apf_book.specs.Stretch.{WaitsFrom, seats_before, service_in, granted_in};
ghost use Rattle.apf_book.specs.Seats.{seats_coming, seats_leaving, is_leaving_of};
ghost use Rattle.apf_book.specs.Overtaken.{NeverEnters, IsWaitOf, EndsAt};

use crate::histories::{legal_histories_are_in_order, waits_are_bounded};
use apf_model::Event;

// The most queues of a level.
const QUEUES: usize = 1024;

/// The wait of a request, from its Enter to its Dispatch, its Strike or the log's end.
#[derive(Clone, Copy, Debug, PartialEq, Eq)]
pub struct Wait {
    /// The queue that it entered.
    pub queue: u32,
    /// The seats of those that stood before it in its queue when it entered.
    pub ahead: u64,
    /// The most seats that one other queue was given while it waited.
    pub most: u64,
    /// All seats that were given while it waited, those of its own queue among them.
    pub all: u64,
}

/// The wait of a request, in seats, or `None` if the log has no Enter of it.
///
/// The log has its oldest event first. It is legal for some hands and some length limit, each of its
/// requests has a width, and each of its queues is below 1,024. What was given while the request waited is
/// counted from its Enter until its Dispatch, its Strike or the log's end, and that Dispatch is left out.
/// Where the log is fair for these widths and some number of queues, among which is the request's own, no
/// other queue was given more than the seats before it and twice the largest width, and all queues together
/// at most so much for each other queue, and the seats before it. It goes over the log a few times, and takes
/// no memory.
pub fn overtaken(log: &[Event], widths: &[u32], request: u32) -> Option<Wait>
    requires few { length log.now < 2 ^ 32 }
    requires legal { (hands : ℕ → List ℕ) × ((limit : ℕ) × IsLegal hands limit (reverse log.now)) }
    requires have_widths { All (λ e. request_of e < length widths.now) log.now }
    requires have_queues { All (λ e. queue_of e < max_queues) log.now }
    ensures wait { MatchOption result (NeverEnters log.now request) (IsWaitOf widths.now log.now request) }
    ensures most_bounded { IfSome result (λ w. (queues : ℕ) (hands : ℕ → List ℕ) (limit : ℕ)
        → IsFair queues widths.now hands limit (reverse log.now) → w.queue < queues
        → w.most ≤ w.ahead + 2 * widest widths.now) }
    ensures all_bounded { IfSome result (λ w. (queues : ℕ) (hands : ℕ → List ℕ) (limit : ℕ)
        → IsFair queues widths.now hands limit (reverse log.now) → w.queue < queues
        → w.all ≤ w.ahead + (queues - 1) * (w.ahead + 2 * widest widths.now)) }
{
    waits_are_bounded();
    wait_of(log, widths, request)
}

// The wait of the request, if it enters.
fn wait_of(log: &[Event], widths: &[u32], request: u32) -> Option<Wait>
    requires few { length log.now < 2 ^ 32 }
    requires legal { (hands : ℕ → List ℕ) × ((limit : ℕ) × IsLegal hands limit (reverse log.now)) }
    requires have_widths { All (λ e. request_of e < length widths.now) log.now }
    requires have_queues { All (λ e. queue_of e < max_queues) log.now }
    ensures { MatchOption result (NeverEnters log.now request) (IsWaitOf widths.now log.now request) }
{
    let (from, queue) = entry_of(log, request)?;
    let ahead = seats_at(log, widths, from, queue);
    let to = end_of(log, request, queue, from);
    let (most, all) = given(log, widths, from + 1, to, queue);
    Some(Wait {
        queue,
        ahead,
        most,
        all,
    })
}

// The place before the request's Enter, and the queue that it enters.
fn entry_of(log: &[Event], request: u32) -> Option<(u32, u32)>
    requires few { length log.now < 2 ^ 32 }
    ensures { MatchOption result (NeverEnters log.now request)
        (λ e. slice_get log.now e.0 ≡ Some (Event.Enter request e.1)) }
{
    for place in 0..log.len() as u32 {
        if let Some(queue) = entered(log[place as usize], request) {
            return Some((place, queue));
        }
    }
    None
}

// The queue that the request enters by this event.
fn entered(event: Event, request: u32) -> Option<u32>
    ensures { MatchOption result ((q : ℕ) → event ≢ Event.Enter request q) (λ q. event ≡ Event.Enter request q) }
{
    match event {
        Event::Enter(other, queue) if other == request => Some(queue),
        _ => None,
    }
}

// The seats of those that wait in the queue at this place.
fn seats_at(log: &[Event], widths: &[u32], place: u32, queue: u32) -> u64
    requires in_log { place ≤ length log.now }
    requires legal { (hands : ℕ → List ℕ) × ((limit : ℕ) × IsLegal hands limit (reverse log.now)) }
    requires have_widths { All (λ e. request_of e < length widths.now) log.now }
    ensures { result ≡ seats_before widths.now log.now place queue }
{
    let mut seats = 0;
    for at in 0..place {
        seats = follow_seats(log, widths, at, queue, seats);
    }
    seats
}

// The seats of those that wait in the queue after the event at this place.
fn follow_seats(log: &[Event], widths: &[u32], place: u32, queue: u32, seats: u64) -> u64
    requires in_log { place < length log.now }
    requires low { place + 1 < 2 ^ 32 }
    requires legal { (hands : ℕ → List ℕ) × ((limit : ℕ) × IsLegal hands limit (reverse log.now)) }
    requires have_widths { All (λ e. request_of e < length widths.now) log.now }
    requires counted { seats ≡ seats_before widths.now log.now place queue }
    requires small { seats ≤ 2 ^ 32 * place }
    ensures counted { result ≡ seats_before widths.now log.now (place + 1) queue }
    ensures small { result ≤ 2 ^ 32 * (place + 1) }
{
    legal_histories_are_in_order();
    seats_after(seats, log[place as usize], widths, queue)
}

// The seats of those that wait in the queue after an event.
fn seats_after(seats: u64, event: Event, widths: &[u32], queue: u32) -> u64
    requires has_width { request_of event < length widths.now }
    requires some { seats_leaving widths.now event queue ≤ seats }
    requires small { seats + 2 ^ 32 < 2 ^ 64 }
    ensures moved { result + seats_leaving widths.now event queue ≡ seats + seats_coming widths.now event queue }
    ensures small { result ≤ seats + 2 ^ 32 }
{
    match event {
        Event::Enter(request, at) if at == queue => seats + u64::from(widths[request as usize]),
        Event::Dispatch(request, at) | Event::Strike(request, at) if at == queue => {
            seats - u64::from(widths[request as usize])
        }
        _ => seats,
    }
}

// The place at which the wait of the request ends.
fn end_of(log: &[Event], request: u32, queue: u32, from: u32) -> u32
    requires few { length log.now < 2 ^ 32 }
    requires legal { (hands : ℕ → List ℕ) × ((limit : ℕ) × IsLegal hands limit (reverse log.now)) }
    requires enters { slice_get log.now from ≡ Some (Event.Enter request queue) }
    ensures waits { WaitsFrom log.now from result request queue }
    ensures ends { EndsAt log.now result request queue }
{
    legal_histories_are_in_order();
    let end = log.len() as u32;
    for place in from + 1..end {
        if leaves(log[place as usize], request) {
            return place;
        }
    }
    end
}

// Whether the event is the request's Dispatch or Strike.
fn leaves(event: Event, request: u32) -> bool
    ensures { result ≡ is_leaving_of request event }
{
    match event {
        Event::Dispatch(other, _) | Event::Strike(other, _) => other == request,
        _ => false,
    }
}

// The most seats that a queue other than this one was given between two places, and all that were given.
fn given(log: &[Event], widths: &[u32], from: u32, to: u32, queue: u32) -> (u64, u64)
    requires in_order { from ≤ to }
    requires in_log { to ≤ length log.now }
    requires have_widths { All (λ e. request_of e < length widths.now) log.now }
    requires have_queues { All (λ e. queue_of e < max_queues) log.now }
    requires is_queue { queue < max_queues }
    ensures others { (other : ℕ) → other ≢ queue → service_in widths.now log.now from to other ≤ result.0 }
    ensures one_other { (other : ℕ) × (other ≢ queue) × (service_in widths.now log.now from to other ≡ result.0) }
    ensures all { (queues : ℕ) → All (λ e. queue_of e < queues) log.now
        → result.1 ≡ granted_in queues widths.now log.now from to }
{
    let mut services = no_services();
    let mut all = 0;
    for place in from..to {
        all += give(&mut services, log[place as usize], widths);
    }
    (most_of_others(&services, queue), all)
}

// The services of no events.
fn no_services() -> [u64; QUEUES]
    ensures { (queue : ℕ) → slice_index result queue ≡ 0 }
{
    let services = [0; QUEUES];
    services
}

// Adds what the event gives to its queue's service. Tells how much it gives.
fn give(services: &mut [u64; QUEUES], event: Event, widths: &[u32]) -> u64
    requires has_width { request_of event < length widths.now }
    requires has_queue { queue_of event < max_queues }
    requires small { (queue : ℕ) → slice_index services.old queue + 2 ^ 32 < 2 ^ 64 }
    ensures services { (stretch : List Event) (queue : ℕ)
        → slice_index services.old queue ≡ service widths.now stretch queue
        → slice_index services.new queue ≡ service widths.now (event ∷ stretch) queue }
    ensures all { (stretch : List Event) (queues : ℕ) → queue_of event < queues
        → granted queues widths.now (event ∷ stretch) ≡ granted queues widths.now stretch + result }
    ensures few { result < 2 ^ 32 }
    ensures small { (queue : ℕ) → slice_index services.new queue ≤ slice_index services.old queue + 2 ^ 32 }
{
    match event {
        Event::Dispatch(request, queue) => {
            let width = u64::from(widths[request as usize]);
            services[queue as usize] += width;
            width
        }
        _ => 0,
    }
}

// The most that a queue other than this one was given.
fn most_of_others(services: &[u64; QUEUES], queue: u32) -> u64
    requires { queue < max_queues }
    ensures others { (other : ℕ) → other ≢ queue → slice_index services.now other ≤ result }
    ensures one_other { (other : ℕ) × (other ≢ queue) × (slice_index services.now other ≡ result) }
{
    let mut most = 0;
    for (place, service) in services.iter().enumerate() {
        if place != queue as usize && *service > most {
            most = *service;
        }
    }
    most
}
