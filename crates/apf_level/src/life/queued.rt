//! What stands under the lock of a level with queues.

ghost use Rattle.std.specs.Prelude.{◌≡◌, ◌≢◌, ◌*◌, ◌^◌, ◌<◌, ◌≤◌, All, length, true, Some, None};
ghost use Rattle.apf_words.specs.declared.decision.Decision.TheVariants.{Execute, Cancelled};
ghost use Rattle.apf_model.specs.declared.response.Response.TheVariants.{Queue};
ghost use Rattle.apf_gate.specs.declared.record.State.TheVariants.{InLine};
ghost use Rattle.apf_gate.specs.Records.{told_own};
ghost use Rattle.apf_gate.specs.Slots.{IsTicket};
ghost use Rattle.apf_gate.specs.Tokens.{pass_gate, desk_gate};
ghost use Rattle.apf_book.specs.Life.{LifeView};
ghost use Rattle.apf_book.specs.LifeBook.{IsLifeKept, ServesLife};
ghost use Rattle.apf_book.specs.LifeCalls.{SameLifeBook};
ghost use Rattle.apf_line.specs.Levels.{IsBookOf};
ghost use Rattle.apf_line.specs.Tokens.{IsOf, IsRunning, IsDone};
ghost use Rattle.apf_queue.specs.View.{max_charge};
ghost use Rattle.apf_level.specs.LifeReleases.{GivesBack};
ghost use Rattle.apf_level.specs.LifeArrivals.{EnqueuedAs, TraceGoesOn};
ghost use Rattle.apf_level.specs.LifeSections.{IsCopied, AreStatsOf, AreSleepers};
ghost use Rattle.apf_level.specs.LifeLocked.{StrikesAndServes, SettlesAndServes};
ghost use Rattle.apf_book.specs.RecentEvents.{AreLifeStats, CopiesLate};
ghost use Rattle.apf_level.specs.LifeCalls.{StandsInLine};
ghost use Rattle.apf_line.specs.Stopped.{IsStopped};

use crate::life::answers::Enqueued;
use crate::life::naming::Naming;
use apf_book::{Arrived, Copied, LifeBook, LifeEvent, LifeStats};
use apf_flow::Dealer;
use apf_gate::{Gate, Pass, Ticket};
use apf_line::every_level_has_histories;
use apf_words::Decision;
use std::alloc::Global;
use std::marker::PhantomData;
use std::sync::{Mutex, Wait};

/// The book of K's level, beside those who may sleep.
///
/// Nothing waits, or who is dispatched next does not fit the level word that the Desk found last.
#[derive(Drop)]
pub struct Queued<K: Naming> {
    pub book: LifeBook<Global>,
    // For each slot the ticket of the request that somebody slept for last. At first it is that of the slot's first
    // request.
    pub sleepers: Vec<Ticket>,
    // Whether anybody ever slept: till then nobody has to be woken.
    pub slept: bool,
    pub of: PhantomData<K>,
    ghost has_queues: { K.level.gate.shape.response ≡ Queue },
    ghost tied: { IsBookOf K.level book },
    ghost room: { book.notes.capacity ≡ 2 * K.level.gate.shape.slots },
    ghost each_slot: { AreSleepers K.level sleepers.items },
    ghost stopped: { IsStopped book },
}

/// The lock of a level with queues, and who deals a request its hand of them, outside the lock.
#[derive(Drop)]
pub struct QueuedLock<K: Naming> {
    pub lock: Mutex<Queued<K>>,
    pub dealer: Dealer,
    ghost has_queues: { K.level.gate.shape.response ≡ Queue },
    ghost sizes: { dealer ≡ K.level.sizes },
}

// Wakes those who may sleep until a request is decided that was dispatched since there were this many events.
fn wake(gate: &Gate<Global>, book: &LifeBook<Global>, sleepers: &[Ticket], before: u64)
    requires tickets { All (λ t. IsTicket gate.now.shape t.number) sleepers.now }
{
    for place in before..book.events() {
        let mut newest = [LifeEvent::Full(Ticket::of(0), 0)];
        book.copy_events(place, &mut newest);
        if let LifeEvent::Dispatch(ticket, _queue) = newest[0] {
            wake_one(gate, sleepers, ticket);
        }
    }
}

// Wakes whoever may sleep until this request is decided.
fn wake_one(gate: &Gate<Global>, sleepers: &[Ticket], ticket: Ticket)
    requires tickets { All (λ t. IsTicket gate.now.shape t.number) sleepers.now }
{
    if let Some(sleeper) = sleepers.get(ticket.slot() as usize) {
        if *sleeper == ticket {
            gate.wake(sleeper.number);
        }
    }
}

// Dispatches while the chosen head fits. If anybody ever slept, it wakes whoever was dispatched since there were this many
// events. Tells how many were dispatched now.
fn serve<R: Wait>(
    rt: &R,
    gate: &Gate<Global>,
    book: &mut LifeBook<Global>,
    sleepers: &[Ticket],
    slept: bool,
    before: u64,
) -> u64
    requires own { desk_gate book.old.desk ≡ gate.now }
    requires tickets { All (λ t. IsTicket gate.now.shape t.number) sleepers.now }
    ensures same { SameLifeBook book.old book.new }
    ensures served { (v : LifeView) → IsLifeKept v book.old → ServesLife v book.old result book.new }
{
    let count = book.dispatch(rt, gate);
    if slept && count != 0 {
        wake(gate, book, sleepers, before);
    }
    count
}

impl<K: Naming> Queued<K> {
    /// The request arrives, with its hand of queues and what its dispatch is charged, and whoever waits is dispatched
    /// while the chosen head fits, also where the request does not enter.
    pub fn arrive<R: Wait>(
        &mut self,
        rt: &R,
        gate: &Gate<Global>,
        pass: &mut Pass,
        dealt: &[u32],
        cost: u32,
    ) -> Enqueued
        requires own { gate.now ≡ K.level.gate }
        requires stands { StandsInLine K.level pass.old dealt.now cost }
        ensures same { IsOf pass.old pass.new }
        ensures goes_on { TraceGoesOn pass.old pass.new }
        ensures in_line { pass.new.pass.state ≡ InLine }
        ensures stands { EnqueuedAs K.level pass.old.pass.knows.trace dealt.now cost pass.new.pass result }
    {
        every_level_has_histories();
        self.book.has_a_history();
        let before = self.book.events();
        let arrived = self.book.arrive(rt, gate, pass, dealt, cost);
        // its Pass knows then what the Desk does, so that the answer can be said of the history as it stands here
        self.book.hear(gate, pass);
        serve(
            rt,
            gate,
            &mut self.book,
            self.sleepers.as_slice(),
            self.slept,
            before,
        );
        match arrived {
            Arrived::Queued(queue) => Enqueued::Entered(queue),
            Arrived::Full(queue) => Enqueued::Full(queue),
            Arrived::Closed => Enqueued::Over(Decision::Closed),
            Arrived::Cancelled => Enqueued::Over(Decision::Cancelled),
            Arrived::Again => unreachable!(),
        }
    }

    /// Dispatches while the chosen head fits. Tells how many.
    pub fn dispatch<R: Wait>(&mut self, rt: &R, gate: &Gate<Global>) -> u64
        requires own { gate.now ≡ K.level.gate }
        ensures same { SameLifeBook self.old.book self.new.book }
        ensures served { (v : LifeView) → IsLifeKept v self.old.book → ServesLife v self.old.book result self.new.book }
    {
        every_level_has_histories();
        self.book.has_a_history();
        let before = self.book.events();
        serve(
            rt,
            gate,
            &mut self.book,
            self.sleepers.as_slice(),
            self.slept,
            before,
        )
    }

    /// The Pass's request, which executes, took so much, in microseconds of a seat. If it was dispatched from a queue,
    /// that queue is charged this in place of what it was charged for the request. Then it gives its seats back, and
    /// others are dispatched while the chosen head fits. Says whether requests waited as the seats went back.
    pub fn finish<R: Wait>(
        &mut self,
        rt: &R,
        gate: &Gate<Global>,
        pass: &mut Pass,
        amount: u64,
    ) -> bool
        requires own { gate.now ≡ K.level.gate }
        requires own_pass { pass_gate pass.old ≡ K.level.gate }
        requires runs { IsRunning pass.old }
        requires low { amount ≤ max_charge }
        ensures done { IsDone pass.new }
        ensures same { IsOf pass.old pass.new }
        ensures told { told_own pass.new.pass ≡ Some Execute }
        ensures answer { GivesBack pass.old.pass result pass.new.pass }
        ensures finished { SettlesAndServes self.old.book pass.old.pass.number amount self.new.book }
    {
        every_level_has_histories();
        self.book.has_a_history();
        let before = self.book.events();
        self.book.settle(pass, amount);
        let waiting = gate.release(pass);
        serve(
            rt,
            gate,
            &mut self.book,
            self.sleepers.as_slice(),
            self.slept,
            before,
        );
        waiting
    }

    /// Strikes the request, if it waits and is cancelled, and dispatches while the chosen head fits. Says whether it
    /// struck.
    pub fn strike<R: Wait>(&mut self, rt: &R, gate: &Gate<Global>, request: Ticket) -> bool
        requires own { gate.now ≡ K.level.gate }
        requires is_request { IsTicket K.level.gate.shape request.number }
        ensures struck { StrikesAndServes self.old.book request.number result self.new.book }
    {
        every_level_has_histories();
        self.book.has_a_history();
        let before = self.book.events();
        let struck = self.book.strike(gate, request);
        serve(
            rt,
            gate,
            &mut self.book,
            self.sleepers.as_slice(),
            self.slept,
            before,
        );
        struck
    }

    /// The Pass's request, which entered and was told that it does not execute, is cancelled. It is struck out of its
    /// queue, if it waits there still, and others are dispatched then. The Pass hears that it left.
    pub fn withdraw<R: Wait>(&mut self, rt: &R, gate: &Gate<Global>, pass: &mut Pass)
        requires own { gate.now ≡ K.level.gate }
        requires own_pass { pass_gate pass.old ≡ K.level.gate }
        requires entered { pass.old.pass.entered ≡ true }
        requires is_told { told_own pass.old.pass ≢ None }
        requires not_executed { told_own pass.old.pass ≢ Some Execute }
        ensures same { IsOf pass.old pass.new }
        ensures left { pass.new.pass.left ≡ true }
        ensures state { pass.new.pass.state ≡ pass.old.pass.state }
        ensures told { told_own pass.new.pass ≡ told_own pass.old.pass }
        ensures cancelled { told_own pass.new.pass ≡ Some Cancelled }
        ensures goes_on { TraceGoesOn pass.old pass.new }
    {
        every_level_has_histories();
        self.book.has_a_history();
        let before = self.book.events();
        // the Desk, which let it enter, knows that it is decided by nobody else
        self.book.hear(gate, pass);
        let _struck = self.book.withdraw(gate, pass);
        serve(
            rt,
            gate,
            &mut self.book,
            self.sleepers.as_slice(),
            self.slept,
            before,
        );
    }

    /// Somebody may sleep from now on until the request is decided.
    pub fn will_sleep(&mut self, request: Ticket)
        requires is_request { IsTicket K.level.gate.shape request.number }
    {
        if let Some(sleeper) = self.sleepers.get_mut(request.slot() as usize) {
            *sleeper = request;
            self.slept = true;
        }
    }

    /// Copies events from this place on, of all that there ever were, the oldest first, as many as there is room for.
    /// Tells from which place on it copied.
    pub fn copy_events(&self, from: u64, into: &mut [LifeEvent]) -> Copied
        ensures copied { (v : LifeView) → IsLifeKept v self.now.book → length v.history < 2 ^ 64 → CopiesLate self.now.book.notes.capacity v.history from into.old result into.new }
        ensures of_level { IsCopied K.level from into.old result into.new }
    {
        every_level_has_histories();
        self.book.has_a_history();
        self.book.copy_events(from, into)
    }

    /// How many events there ever were of each kind.
    pub fn stats(&self) -> LifeStats
        ensures stats { (v : LifeView) → IsLifeKept v self.now.book → length v.history < 2 ^ 64 → AreLifeStats result v.history }
        ensures of_level { AreStatsOf K.level result }
    {
        every_level_has_histories();
        self.book.has_a_history();
        self.book.stats()
    }
}
