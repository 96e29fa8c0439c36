//! A slot's Pass, with how far its request is.

ghost use Rattle.std.specs.Prelude.{◌≡◌, ◌≢◌, ◌≤◌, true, false, Some, None};
ghost use Rattle.apf_model.specs.declared.response.Response.TheVariants.{Queue};
ghost use Rattle.apf_words.specs.Limits.{max_width, max_cost};
ghost use Rattle.apf_gate.specs.declared.record.State.TheVariants as states;
ghost use Rattle.apf_words.specs.declared.decision.Decision.TheVariants.{Execute};
ghost use Rattle.apf_gate.specs.Records.{told_own};
ghost use Rattle.apf_gate.specs.Slots.{IsTicket};
ghost use Rattle.apf_gate.specs.Traces.{asked_in};
ghost use Rattle.apf_gate.specs.Tokens.{pass_gate, desk_gate};
ghost use Rattle.apf_queue.specs.View.{max_charge};
ghost use Rattle.apf_book.specs.Life.{sizes_of};
ghost use Rattle.apf_book.specs.LifeBook.{HoldsSeats};
ghost use Rattle.apf_book_tests.specs.declared.life.tenant.Stage.TheVariants as stages;

use crate::marks::Mark;
use apf_book::{Arrived, LifeBook};
use apf_flow::Dealer;
use apf_gate::{Gate, Pass, Renew, Ticket};
use apf_words::Decision;
use std::alloc::Global;
use std::marker::PhantomData;
use std::sync::Wait;

/// How far a request is.
#[derive(Clone, Copy, Debug, PartialEq, Eq)]
pub enum Stage {
    /// Nobody held the slot yet.
    Free,
    /// It did not arrive.
    Fresh,
    /// It entered a queue, and was not seen decided.
    Waits,
    /// It executes.
    Runs,
    /// It executed, and gave its seats back.
    Ended,
    /// It was rejected, or cancelled before it entered.
    Refused,
    /// It was cancelled while it waited, and left.
    Withdrawn,
}

/// A slot's Pass, of the gate that the marker names.
#[derive(Drop)]
pub struct Tenant<K: Mark> {
    pass: Pass,
    stage: Stage,
    hash: u64,
    cost: u32,
    of: PhantomData<K>,
    ghost own: { pass_gate pass ≡ K.gate },
    ghost free: { stage ≡ stages.Free → pass.pass.state ≡ states.Fresh },
    ghost fresh: { stage ≡ stages.Fresh → pass.pass.state ≡ states.Fresh },
    ghost asked: { stage ≡ stages.Fresh → asked_in pass.pass.knows.trace pass.pass.number ≡ Some (record { hash = hash; cost = cost }) },
    ghost some_cost: { (1 ≤ cost) × (cost ≤ max_cost) },
    ghost waits: { stage ≡ stages.Waits → (pass.pass.state ≡ states.InLine) × (pass.pass.entered ≡ true) },
    ghost runs: { stage ≡ stages.Runs → (pass.pass.state ≡ states.InLine) × (told_own pass.pass ≡ Some Execute) },
    ghost seats: { stage ≡ stages.Runs → HoldsSeats pass },
    ghost ended: { stage ≡ stages.Ended → (pass.pass.state ≡ states.Over) × (told_own pass.pass ≢ None) },
    ghost refused: { stage ≡ stages.Refused → (pass.pass.state ≡ states.InLine) × (pass.pass.entered ≡ false) × (told_own pass.pass ≢ None) },
    ghost withdrawn: { stage ≡ stages.Withdrawn → (pass.pass.state ≡ states.InLine) × (pass.pass.left ≡ true) × (told_own pass.pass ≢ None) },
}

impl<K: Mark> Tenant<K> {
    /// A slot that nobody held yet.
    pub fn new(pass: Pass) -> Tenant<K>
        requires own { pass_gate pass ≡ K.gate }
        requires fresh { pass.pass.state ≡ states.Fresh }
    {
        Tenant {
            pass,
            stage: Stage::Free,
            hash: 0,
            cost: 1,
            of: PhantomData,
        }
    }

    /// How far its request is.
    pub fn stage(&self) -> Stage {
        self.stage
    }

    /// Whether its request is over, so that it may be renewed.
    pub fn is_over(&self) -> bool {
        match self.stage {
            Stage::Ended | Stage::Refused | Stage::Withdrawn => true,
            Stage::Free | Stage::Fresh | Stage::Waits | Stage::Runs => false,
        }
    }

    /// What names the present request.
    pub fn ticket(&self) -> Ticket
        ensures { IsTicket K.gate.shape result.number }
    {
        self.pass.ticket()
    }

    /// The hash of its request's flow, and what its dispatch is charged.
    pub fn asks(&self) -> (u64, u32) {
        (self.hash, self.cost)
    }

    /// Gets in line, and comes to the book with the hand of its flow, if it did not arrive.
    pub fn arrive<R: Wait>(
        &mut self,
        rt: &R,
        gate: &Gate<Global>,
        book: &mut LifeBook<Global>,
        dealer: &Dealer,
    ) -> Option<Arrived>
        requires gate { gate.now ≡ K.gate }
        requires has_queues { K.gate.shape.response ≡ Queue }
        requires book { desk_gate book.old.desk ≡ K.gate }
        requires sizes { sizes_of book.old.queues ≡ dealer.now }
        ensures book { desk_gate book.new.desk ≡ K.gate }
        ensures sizes { sizes_of book.new.queues ≡ dealer.now }
    {
        if self.stage != Stage::Fresh {
            return None;
        }
        gate.ask(&mut self.pass);
        let hand = dealer.deal(self.hash);
        let arrived = book.arrive(rt, gate, &mut self.pass, hand.as_slice(), self.cost);
        self.stage = match arrived {
            Arrived::Queued(_) => Stage::Waits,
            Arrived::Full(_) | Arrived::Closed | Arrived::Cancelled => Stage::Refused,
            Arrived::Again => unreachable!(),
        };
        Some(arrived)
    }

    /// Reads its decision, if it waits. One that is cancelled is withdrawn.
    pub fn look(&mut self, gate: &Gate<Global>, book: &mut LifeBook<Global>) -> Option<Decision>
        requires gate { gate.now ≡ K.gate }
        requires book { desk_gate book.old.desk ≡ K.gate }
        ensures book { desk_gate book.new.desk ≡ K.gate }
        ensures sizes { sizes_of book.new.queues ≡ sizes_of book.old.queues }
    {
        if self.stage != Stage::Waits {
            return None;
        }
        let told = gate.told(&mut self.pass);
        match told {
            Some(Decision::Execute) => self.stage = Stage::Runs,
            Some(Decision::Cancelled) => {
                let _struck = book.withdraw(gate, &mut self.pass);
                self.stage = Stage::Withdrawn;
            }
            _ => {}
        }
        told
    }

    /// Gives its seats back, if it executes.
    pub fn finish(&mut self, gate: &Gate<Global>) -> bool
        requires gate { gate.now ≡ K.gate }
    {
        if self.stage != Stage::Runs {
            return false;
        }
        let _waiting = gate.release(&mut self.pass);
        self.stage = Stage::Ended;
        true
    }

    /// As `finish`, of a request that took so much, which the book settles before. Says what the book said of that.
    pub fn finish_measured(
        &mut self,
        gate: &Gate<Global>,
        book: &mut LifeBook<Global>,
        amount: u64,
    ) -> Option<bool>
        requires gate { gate.now ≡ K.gate }
        requires book { desk_gate book.old.desk ≡ K.gate }
        requires low { amount ≤ max_charge }
        ensures book { desk_gate book.new.desk ≡ K.gate }
        ensures sizes { sizes_of book.new.queues ≡ sizes_of book.old.queues }
    {
        if self.stage != Stage::Runs {
            return None;
        }
        let settled = book.settle(&self.pass, amount);
        self.finish(gate);
        Some(settled)
    }

    /// Has taken so much, if it executes, and the book is told. Says what the book said of that.
    pub fn has_taken(&self, book: &mut LifeBook<Global>, amount: u64) -> Option<bool>
        requires book { desk_gate book.old.desk ≡ K.gate }
        requires low { amount ≤ max_charge }
        ensures book { desk_gate book.new.desk ≡ K.gate }
        ensures sizes { sizes_of book.new.queues ≡ sizes_of book.old.queues }
    {
        if self.stage != Stage::Runs {
            return None;
        }
        Some(book.spend(&self.pass, amount))
    }

    /// Leaves the request, if it is over or nobody held the slot yet, for the next one of the slot, which asks for this.
    /// Tells how the one before was decided.
    pub fn renew(
        &mut self,
        gate: &Gate<Global>,
        width: u32,
        hash: u64,
        cost: u32,
    ) -> Option<Decision>
        requires gate { gate.now ≡ K.gate }
        requires some { 1 ≤ width }
        requires narrow { width ≤ max_width }
        requires some_cost { 1 ≤ cost }
        requires low_cost { cost ≤ max_cost }
    {
        match self.stage {
            Stage::Free | Stage::Ended | Stage::Refused | Stage::Withdrawn => {}
            Stage::Fresh | Stage::Waits | Stage::Runs => return None,
        }
        let Renew::Began(decision) = gate.renew(&mut self.pass, width, hash, cost) else {
            return None;
        };
        self.stage = Stage::Fresh;
        self.hash = hash;
        self.cost = cost;
        decision
    }
}
