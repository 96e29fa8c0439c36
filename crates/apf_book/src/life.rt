//! The queues of a level whose slots are used again, and whose requests bring their hands and costs.
//!
//! The history and its log are stored nowhere. Each call says what becomes of every one that the queues are of.

ghost use Rattle.std.specs.Prelude.{◌≡◌, ◌≢◌, ℕ, ◌<◌, ◌≤◌, List, [], length, slice_index, slice_set, true, false, All, Contains, ◌↔◌, IsTrue, MatchBool, IsErrOf, OnOk, IfOk, IfSome, IfNone, MatchOption};
ghost use Rattle.apf_words.specs.Limits.{max_cost};
ghost use Rattle.apf_gate.specs.Slots.{slot_of};
ghost use Rattle.apf_history.specs.declared.events.Event.TheVariants as events;
ghost use Rattle.apf_model.specs.World.{width};
ghost use Rattle.apf_model.specs.History.{waiting, IsShortest};
ghost use Rattle.apf_queue.specs.View.{queue_count, queue_in, IsQueueShape, StandsNowhere, IsChosen, HasTime, max_charge};
ghost use Rattle.apf_book.specs.Life.{places_of, charge_in, how_many, LifeView, IsLifeOf, SameSlots, Comes, asked, then_came, IsNextIn, IsOpening, SettlesOne, SpendsOne, CannotSettle, CannotSpend};

use crate::histories::{legal_histories_are_in_order, settled_logs_stand};
use crate::settling::Settling;
use apf_history::Charge;
use apf_queue::{Chosen, QueueFault, Queues};
use std::alloc::Allocator;
use std::marker::Model;

// Queues of slots, with the number of the request that holds each slot that waits.
#[derive(Drop)]
pub struct LifeLedger<A: Allocator> {
    queues: Queues<A>,
    length_limit: u32,
    holders: Vec<u128, A>,
    hand: u32,
    // Whether it is known beforehand what each request asks for.
    known: bool,
    // What is charged for the request that holds each slot. There are no places where nothing is settled.
    running: Vec<Option<Charge>, A>,
}

impl<A: Allocator> Model for LifeLedger<A> {
    ghost use Rattle.std.specs.Prelude.{◌≡◌, length};
    ghost use Rattle.apf_book.specs.Life.{LifeState};

    ghost Value = { LifeState };

    ghost view = { λ s. record { queues = s.queues; holders = s.holders.items; hand = s.hand; known = s.known; running = s.running.items } };

    ghost invariant = { λ s. (length s.holders.items ≡ length s.queues.costs) × (s.length_limit ≡ s.queues.length_limit) };
}

impl<A: Allocator + Copy> LifeLedger<A> {
    // Empty queues for this many slots. All memory is taken here.
    pub fn new(
        alloc: A,
        queues: u32,
        length_limit: u32,
        slots: u32,
        hand: u32,
        known: bool,
        settling: Settling,
    ) -> Result<LifeLedger<A>, QueueFault>
        ensures bad_shape { IsErrOf result QueueFault.BadShape ↔ (¬ IsQueueShape queues length_limit slots) }
        ensures shape { OnOk result (IsQueueShape queues length_limit slots) }
        ensures slots { IfOk result (λ l. length l.holders ≡ slots) }
        ensures hand { IfOk result (λ l. l.hand ≡ hand) }
        ensures known { IfOk result (λ l. l.known ≡ known) }
        ensures places { IfOk result (λ l. length l.running ≡ places_of settling slots) }
        ensures opening { IfOk result (λ l. (v : LifeView) → IsOpening v queues length_limit → IsLifeOf v l) }
    {
        Ok(LifeLedger {
            queues: Queues::new(alloc, queues, length_limit, slots)?,
            length_limit,
            holders: vec![in alloc; 0; slots as usize]?,
            hand,
            known,
            running: vec![in alloc; None; settling.places(slots) as usize]?,
        })
    }
}

impl<A: Allocator> LifeLedger<A> {
    // The request, whose slot waits in no queue, enters the queue. Its dispatch is charged this cost.
    pub fn enter(&mut self, request: u128, queue: u32, cost: u32)
        requires is_queue { queue < queue_count self.old.queues }
        requires has_slot { slot_of request < length self.old.holders }
        requires is_nowhere { StandsNowhere self.old.queues (slot_of request) }
        requires room { length (queue_in self.old.queues queue) ≢ self.old.queues.length_limit }
        requires has_cost { 1 ≤ cost }
        requires low { cost ≤ max_cost }
        ensures enters { (v : LifeView) (hand : List ℕ) → IsLifeOf v self.old → Comes v request hand queue
            → IsLifeOf (then_came (asked v request hand cost) (events.Enter request queue)) self.new }
        ensures slots { SameSlots self.old self.new }
        ensures places { length self.new.running ≡ length self.old.running }
    {
        legal_histories_are_in_order();
        settled_logs_stand();
        let slot = (request % 16_384) as u32;
        let Ok(()) = self.queues.push(queue, slot, cost) else {
            unreachable!()
        };
        self.holders[slot as usize] = request;
        keep(&mut self.running, slot, None);
    }

    // The request is refused, as the queue is full. Nothing that is stored changes.
    pub fn refuse(&self, request: u128, queue: u32)
        requires full { length (queue_in self.now.queues queue) ≡ self.now.queues.length_limit }
        ensures { (v : LifeView) (hand : List ℕ) (cost : ℕ) → IsLifeOf v self.now → Comes v request hand queue → cost ≤ max_cost
            → IsLifeOf (then_came (asked v request hand cost) (events.Full request queue)) self.now }
    {
        legal_histories_are_in_order();
        settled_logs_stand();
    }

    // The shortest queue of the hand.
    pub fn shortest(&self, hand: &[u32]) -> u32
        requires has_cards { 0 < length hand.now }
        requires are_queues { All (λ q. q < queue_count self.now.queues) hand.now }
        ensures shortest { (v : LifeView) → IsLifeOf v self.now → IsShortest (waiting v.history) hand.now result }
        ensures is_queue { result < queue_count self.now.queues }
    {
        self.queues.shortest(hand)
    }

    // Whether the queue holds as many requests as it may.
    pub fn is_full(&self, queue: u32) -> bool
        requires { queue < queue_count self.now.queues }
        ensures { IsTrue result ↔ (length (queue_in self.now.queues queue) ≡ self.now.queues.length_limit) }
    {
        self.queues.len(queue) == self.length_limit
    }

    // Whether the request waits in a queue.
    pub fn waits(&self, request: u128) -> bool
        requires has_slot { slot_of request < length self.now.holders }
        ensures { (v : LifeView) → IsLifeOf v self.now
            → MatchBool result ((q : ℕ) × Contains (waiting v.history q) request) ((q : ℕ) → ¬ Contains (waiting v.history q) request) }
    {
        let slot = (request % 16_384) as u32;
        if self.holders[slot as usize] != request {
            return false;
        }
        match self.queues.queue_of(slot) {
            Some(_queue) => true,
            None => false,
        }
    }

    // The request that holds the slot.
    pub fn holder(&self, slot: u32) -> u128
        requires { slot < length self.now.holders }
        ensures { result ≡ slice_index self.now.holders slot }
    {
        self.holders[slot as usize]
    }

    // What is dispatched next, in every history that the queues are of, or `None` if nothing waits.
    pub fn choose(&self) -> Option<Chosen>
        ensures chosen { IfSome result (IsChosen self.now.queues) }
        ensures next { (v : LifeView) → IsLifeOf v self.now → MatchOption result ((q : ℕ) → waiting v.history q ≡ []) (IsNextIn v self.now) }
        ensures time { (v : LifeView) (q : ℕ) → IsLifeOf v self.now → HasTime self.now.queues q }
    {
        legal_histories_are_in_order();
        self.queues.choose()
    }

    // The request that holds the chosen slot is dispatched.
    pub fn dispatch(&mut self, chosen: Chosen)
        requires chosen { IsChosen self.old.queues chosen }
        requires time { HasTime self.old.queues chosen.queue }
        ensures slots { SameSlots self.old self.new }
        ensures places { length self.new.running ≡ length self.old.running }
        ensures fewer { how_many self.new.queues < how_many self.old.queues }
        ensures dispatches { (v : LifeView) → IsLifeOf v self.old
            → IsLifeOf (then_came v (events.Dispatch (slice_index self.old.holders chosen.request) chosen.queue)) self.new }
    {
        legal_histories_are_in_order();
        self.queues.dispatch(chosen);
        let charge = Charge {
            queue: chosen.queue,
            amount: u64::from(chosen.cost),
        };
        keep(&mut self.running, chosen.request, Some(charge));
    }

    // What a queue is charged for the request, if that is kept: it was dispatched from the queue, holds its slot, and is
    // not settled.
    pub fn charge(&self, request: u128) -> Option<Charge>
        requires has_slot { slot_of request < length self.now.holders }
        ensures { result ≡ charge_in self.now request }
    {
        let slot = (request % 16_384) as usize;
        let holds = self.holders[slot] == request;
        match self.running.get(slot) {
            Some(charge) if holds => *charge,
            Some(_) | None => None,
        }
    }

    // A queue is charged so much for the request in place of what it was charged for it, once and for all. Tells whether
    // it is: not if nothing is kept of the request, or the queue's number is past 2^126.
    pub fn settle(&mut self, request: u128, amount: u64) -> bool
        requires has_slot { slot_of request < length self.old.holders }
        requires low { amount ≤ max_charge }
        requires lived { (v : LifeView) × IsLifeOf v self.old }
        ensures slots { SameSlots self.old self.new }
        ensures places { length self.new.running ≡ length self.old.running }
        ensures settles { result ≡ true → SettlesOne self.old request amount self.new }
        ensures cannot { result ≡ false → (self.new ≡ self.old) × CannotSettle self.old request }
    {
        settled_logs_stand();
        let Some(charge) = self.charge(request) else {
            return false;
        };
        if !self.queues.may_settle(charge.queue) {
            return false;
        }
        let slot = (request % 16_384) as u32;
        self.queues.settle(charge.queue, charge.amount, amount);
        keep(&mut self.running, slot, None);
        true
    }

    // A queue is charged so much for the request, which executes still, in place of what it was charged for it, if that
    // was less. Tells whether it is: see `settle`.
    pub fn spend(&mut self, request: u128, amount: u64) -> bool
        requires has_slot { slot_of request < length self.old.holders }
        requires low { amount ≤ max_charge }
        requires lived { (v : LifeView) × IsLifeOf v self.old }
        ensures slots { SameSlots self.old self.new }
        ensures places { length self.new.running ≡ length self.old.running }
        ensures spends { result ≡ true → SpendsOne self.old request amount self.new }
        ensures cannot { result ≡ false → (self.new ≡ self.old) × CannotSpend self.old request amount }
    {
        settled_logs_stand();
        let Some(charge) = self.charge(request) else {
            return false;
        };
        if amount <= charge.amount {
            return false;
        }
        if !self.queues.may_settle(charge.queue) {
            return false;
        }
        let slot = (request % 16_384) as u32;
        let queue = charge.queue;
        self.queues.settle(queue, charge.amount, amount);
        keep(&mut self.running, slot, Some(Charge { queue, amount }));
        true
    }

    // Strikes the request out of its queue, and tells the queue: `None`, with nothing changed, if it
    // waits in none.
    pub fn strike(&mut self, request: u128) -> Option<u32>
        requires has_slot { slot_of request < length self.old.holders }
        ensures none { IfNone result (self.new ≡ self.old) }
        ensures nowhere { IfNone result ((v : LifeView) → IsLifeOf v self.old → (q : ℕ) → ¬ Contains (waiting v.history q) request) }
        ensures some { IfSome result (λ q. (v : LifeView) → IsLifeOf v self.old → IsLifeOf (then_came v (events.Strike request q)) self.new) }
        ensures fewer { IfSome result (λ q. how_many self.new.queues < how_many self.old.queues) }
        ensures slots { SameSlots self.old self.new }
        ensures places { length self.new.running ≡ length self.old.running }
    {
        legal_histories_are_in_order();
        let slot = (request % 16_384) as u32;
        if self.holders[slot as usize] != request {
            return None;
        }
        self.queues.remove(slot)
    }
}

// What is charged for the request that holds the slot is kept, where there are places for it.
fn keep<A: Allocator>(running: &mut Vec<Option<Charge>, A>, slot: u32, charge: Option<Charge>)
    ensures { running.new.items ≡ slice_set running.old.items slot charge }
{
    let slot = slot as usize;
    if slot < running.len() {
        running[slot] = charge;
    }
}

// A batch is the case in which all is known before: a request that asks for what is known of it changes
// nothing.
pub fn a_batch_is_known()
    ensures { (v : LifeView) (r : ℕ) → asked v r (v.hands r) (width v.costs r) ≡ v }
{}
