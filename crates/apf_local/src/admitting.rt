//! The arrival of a request.

ghost use Rattle.std.specs.Prelude.{◌≡◌, ◌≤◌, ◌<◌, length, IfSome, IfNone};
ghost use Rattle.apf_words.specs.Limits.{max_width, max_cost};
ghost use Rattle.apf_flow.specs.Deal.{hand_of};
ghost use Rattle.apf_book.specs.Life.{sizes_of};
ghost use Rattle.apf_line.specs.Tokens.{IsDone};
ghost use Rattle.apf_local.specs.Owners.{SameOwner, Moves, IsSlotOf, IsUsedUp, IsBegun, IsFresh, HasHeard};
ghost use Rattle.apf_line.specs.declared.attempts.Tried.TheVariants as tries;
ghost use Rattle.apf_local.specs.Levels.{Admits, Stands, Enqueues, answer_of, place_of};

use crate::answer::{Answer, Ask, Place};
use crate::owner::Owner;
use apf_book::{Arrived, LifeEvent};
use apf_flow::Dealer;
use apf_line::attempts::Tried;
use apf_words::Decision;

/// What became of a request that arrived.
#[derive(Clone, Copy, Debug, PartialEq, Eq)]
pub enum Admitted {
    /// It executes.
    Run,
    /// It is decided so, and was not executed.
    Over(Decision),
    /// It waits.
    Waits,
}

impl Admitted {
    /// What is answered of it.
    pub fn answer(self) -> Answer
        ensures { result ≡ answer_of self }
    {
        match self {
            Admitted::Run => Answer::Run,
            Admitted::Over(decision) => Answer::Over(decision),
            Admitted::Waits => Answer::Waits,
        }
    }

    /// Where it is.
    pub fn place(self) -> Place
        ensures { result ≡ place_of self }
    {
        match self {
            Admitted::Run => Place::Runs,
            Admitted::Over(_decision) => Place::Free,
            Admitted::Waits => Place::Waits,
        }
    }
}

/// The next request of a free slot arrives: it takes its seats, or enters a queue, or is decided otherwise. Answers also
/// the event that the history got by it: the request's Enter or Full, which name its queue, or none. `None` if the slot's
/// numbers are used up: then nothing was done.
pub fn admit(
    owner: &mut Owner,
    dealer: &Dealer,
    slot: usize,
    ask: Ask,
) -> Option<(Admitted, Option<LifeEvent>)>
    requires is_slot { slot < length owner.old.passes }
    requires free { IsSlotOf owner.old.passes slot IsDone }
    requires dealt { dealer.now ≡ sizes_of owner.old.book.queues }
    requires some_width { 1 ≤ ask.width }
    requires narrow { ask.width ≤ max_width }
    requires some_cost { 1 ≤ ask.cost }
    requires low_cost { ask.cost ≤ max_cost }
    ensures same { SameOwner owner.old owner.new }
    ensures spent { IfNone result (owner.new ≡ owner.old) }
    ensures used_up { IfNone result (IsSlotOf owner.old.passes slot (IsUsedUp owner.old.gate ask.width)) }
    ensures operators { owner.new.stations ≡ owner.old.stations }
    ensures admits { IfSome result (λ a. Moves slot owner.old.passes owner.new.passes (Admits ask (hand_of dealer.now ask.hash) owner.old.book a.0 a.1 owner.new.book)) }
{
    if !owner.renew(slot, ask) {
        return None;
    }
    Some(come(owner, dealer, slot, ask))
}

/// The slot's request arrives, which is there and heard what the Desk knows.
pub fn come(
    owner: &mut Owner,
    dealer: &Dealer,
    slot: usize,
    ask: Ask,
) -> (Admitted, Option<LifeEvent>)
    requires is_slot { slot < length owner.old.passes }
    requires fresh { IsSlotOf owner.old.passes slot (IsFresh ask) }
    requires heard { HasHeard slot owner.old }
    requires dealt { dealer.now ≡ sizes_of owner.old.book.queues }
    requires some_cost { 1 ≤ ask.cost }
    requires low_cost { ask.cost ≤ max_cost }
    ensures same { SameOwner owner.old owner.new }
    ensures operators { owner.new.stations ≡ owner.old.stations }
    ensures stands { Moves slot owner.old.passes owner.new.passes (Stands ask (hand_of dealer.now ask.hash) owner.old.book result.0 result.1 owner.new.book) }
{
    match owner.take_seats(slot, ask) {
        Tried::Run => (Admitted::Run, None),
        Tried::Over(decision, _waiting) => (Admitted::Over(decision), None),
        Tried::Blocked => enqueue(owner, dealer, slot, ask),
        Tried::Raced => unreachable!(),
    }
}

// The slot's request, which took no seats, arrives in the line.
fn enqueue(
    owner: &mut Owner,
    dealer: &Dealer,
    slot: usize,
    ask: Ask,
) -> (Admitted, Option<LifeEvent>)
    requires is_slot { slot < length owner.old.passes }
    requires begun { IsSlotOf owner.old.passes slot (IsBegun ask tries.Blocked) }
    requires dealt { dealer.now ≡ sizes_of owner.old.book.queues }
    requires some_cost { 1 ≤ ask.cost }
    requires low_cost { ask.cost ≤ max_cost }
    ensures same { SameOwner owner.old owner.new }
    ensures operators { owner.new.stations ≡ owner.old.stations }
    ensures stands { Moves slot owner.old.passes owner.new.passes (Enqueues ask (hand_of dealer.now ask.hash) owner.old.book result.0 result.1 owner.new.book) }
{
    let hand = dealer.deal(ask.hash);
    let ticket = owner.ticket(slot);
    match owner.enter(slot, hand.as_slice(), ask.cost) {
        Arrived::Queued(queue) => (Admitted::Waits, Some(LifeEvent::Enter(ticket, queue))),
        Arrived::Full(queue) => (
            Admitted::Over(Decision::QueueFull),
            Some(LifeEvent::Full(ticket, queue)),
        ),
        Arrived::Closed => (Admitted::Over(Decision::Closed), None),
        Arrived::Cancelled => (Admitted::Over(Decision::Cancelled), None),
        Arrived::Again => unreachable!(),
    }
}
