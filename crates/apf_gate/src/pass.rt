//! The token of a request, and its steps.

ghost use Rattle.std.specs.Prelude.{◌≡◌, ◌≢◌, ◌↔◌, ◌+◌, ◌^◌, ◌<◌, ◌≤◌, ◌==◌, length, not, true, false, MatchBool, Option, Some};
ghost use Rattle.apf_gate.specs.Traces.{asked_in};
ghost use Rattle.apf_words.specs.Fits.{Fits};
ghost use Rattle.apf_words.specs.declared.decision.Decision.{Decision};
ghost use Rattle.apf_words.specs.Level.{Level};
ghost use Rattle.apf_model.specs.declared.response.Response.TheVariants.{Reject};
ghost use Rattle.apf_gate.specs.declared.record.State.TheVariants.{Fresh};
ghost use Rattle.apf_words.specs.Limits.{max_width};
ghost use Rattle.apf_model.specs.World.{width as width_in};
ghost use Rattle.apf_gate.specs.Slots.{next_of, round_of, IsTicket};
ghost use Rattle.apf_gate.specs.Records.{own_width, KnowsMore};
ghost use Rattle.apf_gate.specs.Counted.{AreCounts, total};
ghost use Rattle.apf_gate.specs.Steps.{IsInRange};
ghost use Rattle.apf_gate.specs.PassSteps.{PassLoadsLevel, PassMissesLevel, PassExchangesLevel, PassSubtractsLevel, PassLoadsDecision, PassAsksDecision, IsNextRequest, MayRenew, PassRenews};
ghost use Rattle.apf_gate.specs.Tokens.{pass_gate};
ghost use Rattle.apf_gate.specs.PassCalls.{TriesToTake, MayWrite, MayRelease, Decides};
ghost use Rattle.apf_gate.specs.PassResults.{SamePass, AfterTryTake, AfterAsk, AfterTold, AfterDecide, AfterRelease};

use crate::answers::{Renew, TryTake};
use crate::counts::Counts;
use crate::gate::{Gate, level_in, mark, word_of};
use crate::plays::{
    Asking, PassAskDecision, PassExchangeDecision, PassExchangeLevel, PassLoadDecision,
    PassLoadLevel, PassRenew, PassSubtractLevel,
};
use crate::rule::Place;
use crate::ticket::Ticket;
use apf_words::{Decision, LevelWord, decided, decision_in, fits, undecided};
use std::alloc::Allocator;
use std::marker::{Brand, Model};

/// The token of one request.
#[derive(Drop)]
pub struct Pass {
    pub(crate) seat: Place,
    pub(crate) number: u128,
    pub(crate) width: u32,
    // How the requests were decided that held the slot before.
    pub(crate) counts: Counts,
}

impl Model for Pass {
    ghost use Rattle.apf_gate.specs.Rule.{pass_of};
    ghost use Rattle.apf_gate.specs.Tokens.{PassToken, IsPass};

    ghost Value = { PassToken };

    ghost view = { λ p. record {
      table = p.seat.table_id;
      pass = pass_of p.seat.me.0;
    } };

    ghost invariant = { λ p. IsPass p.seat.me p.number p.width p.counts };
}

impl Pass {
    /// The request's number: its place in a batch, from 0. No two requests that ever hold a slot have one number.
    pub fn number(&self) -> u128
        ensures number { result ≡ self.now.pass.number }
        ensures inside { result < length self.now.pass.knows.shape.widths }
        ensures is_ticket { IsTicket self.now.pass.knows.shape result }
    {
        self.number
    }

    /// How many seats its request takes while it executes, 1 to 20,000.
    pub fn width(&self) -> u32
        ensures value { result ≡ own_width self.now.pass }
        ensures small { result ≤ max_width }
    {
        self.width
    }

    /// How the requests were decided that held the slot before.
    pub(crate) fn before(&self) -> Counts
        ensures counts { AreCounts result self.now.pass.past }
        ensures few { total result ≤ 2 ^ 46 }
    {
        self.counts
    }

    /// What names its request for ever.
    pub fn ticket(&self) -> Ticket
        ensures number { result.number ≡ self.now.pass.number }
        ensures is_ticket { IsTicket self.now.pass.knows.shape result.number }
    {
        Ticket {
            number: self.number,
        }
    }
}

impl<A: Allocator> Gate<A> {
    /// Takes the request's seats, where the level is open, nobody waits and they fit.
    ///
    /// It makes one load of the level word, and an exchange where that showed room.
    pub fn try_take(&self, pass: &mut Pass) -> TryTake
        requires own { pass_gate pass.old ≡ self.now }
        requires fresh { pass.old.pass.state ≡ Fresh }
        ensures same { SamePass pass.old pass.new }
        ensures answer { TriesToTake pass.old.pass result pass.new.pass }
        ensures after { AfterTryTake pass.old.pass result pass.new.pass }
    {
        let level = self.load_as_pass(pass);
        if level.closed() {
            return TryTake::Closed;
        }
        if level.waiters() != 0 {
            return TryTake::Waiters;
        }
        if !fits(level.seats(), level.limit(), pass.width) {
            return TryTake::NoRoom;
        }
        if !self.exchange_for_seats(pass, level) {
            return TryTake::Raced;
        }
        TryTake::Taken
    }

    /// Asks for what others decide, and reads the request's decision: a fresh Pass is in line afterwards. It
    /// makes one load of the request's decision word.
    pub fn ask(&self, pass: &mut Pass) -> Option<Decision>
        requires own { pass_gate pass.old ≡ self.now }
        ensures same { SamePass pass.old pass.new }
        ensures answer { PassAsksDecision pass.old.pass result pass.new.pass }
        ensures after { AfterAsk pass.old.pass result pass.new.pass }
    {
        let word = word_of(pass.number);
        let shared = &self.board.shared;
        decision_in(shared.load::<PassAskDecision>(&mut pass.seat, word))
    }

    /// Reads the request's decision, by one load of its word.
    pub fn told(&self, pass: &mut Pass) -> Option<Decision>
        requires own { pass_gate pass.old ≡ self.now }
        ensures same { SamePass pass.old pass.new }
        ensures answer { PassLoadsDecision pass.old.pass result pass.new.pass }
        ensures after { AfterTold pass.old.pass result pass.new.pass }
    {
        let word = word_of(pass.number);
        let shared = &self.board.shared;
        decision_in(shared.load::<PassLoadDecision>(&mut pass.seat, word))
    }

    /// Writes the decision, unless one is written. Answers the one that is written then.
    ///
    /// It makes one exchange of the request's decision word. `Execute` is for a Pass that took its seats
    /// and wrote nothing yet, and it holds them still. `Closed` is for a fresh Pass that saw the level
    /// closed, and `ConcurrencyLimit` for one whose last step was a load that found no room on a level
    /// without queues: after these it is over.
    pub fn decide(&self, pass: &mut Pass, decision: Decision) -> Decision
        requires own { pass_gate pass.old ≡ self.now }
        requires may { MayWrite pass.old.pass decision }
        ensures same { SamePass pass.old pass.new }
        ensures answer { Decides pass.old.pass decision result pass.new.pass }
        ensures after { AfterDecide pass.old.pass decision result pass.new.pass }
    {
        let word = word_of(pass.number);
        let own = mark(pass.number);
        let old = undecided(own);
        let new = decided(own, decision);
        let found = self
            .board
            .shared
            .compare_exchange::<PassExchangeDecision>(&mut pass.seat, word, old, new);
        match decision_in(found) {
            None => decision,
            Some(other) => other,
        }
    }

    /// Gives the request's seats back. Says whether requests waited.
    ///
    /// It takes the width from the level word by one step. The seats stand, and the Pass was told its
    /// decision: it took them, or it is in line and was told execute.
    pub fn release(&self, pass: &mut Pass) -> bool
        requires own { pass_gate pass.old ≡ self.now }
        requires stands { MayRelease pass.old.pass }
        ensures same { SamePass pass.old pass.new }
        ensures answer { (level : Level) × PassSubtractsLevel pass.old.pass level pass.new.pass × (result ≡ not (level.waiters == 0)) }
        ensures after { AfterRelease pass.old.pass pass.new.pass }
    {
        let width = LevelWord::to_release(pass.width);
        let found = self
            .board
            .shared
            .fetch_sub::<PassSubtractLevel>(&mut pass.seat, 0, width);
        level_in(found).waiters() != 0
    }

    /// Leaves the request, and begins the next one of the slot, which is fresh and has this width. Tells how the
    /// old one was decided: it is undecided only if it never began. `Spent` exactly if the slot's numbers are used
    /// up: a slot is given 2^46 times, and that of a batch once. Then nothing changes.
    ///
    /// The step that begins a request says what that asks for: `hash` is that of its flow, and `cost` what its
    /// dispatch is charged. Nothing of it stands in a word.
    ///
    /// It makes one swap of the slot's word. The old request never began, or its Pass was told its decision and it
    /// neither waits nor stands: a request that was struck has to be heard first.
    pub fn renew(&self, pass: &mut Pass, width: u32, hash: u64, cost: u32) -> Renew
        requires own { pass_gate pass.old ≡ self.now }
        requires may { MayRenew pass.old.pass }
        requires some_width { 1 ≤ width }
        requires narrow { width ≤ max_width }
        ensures gate { pass_gate pass.new ≡ pass_gate pass.old }
        ensures spent { result ≡ Renew.Spent → pass.new ≡ pass.old }
        ensures spent_only { (result ≡ Renew.Spent) ↔ (length self.now.shape.widths ≤ next_of pass.old.pass.number width) }
        ensures answer { (found : Option Decision) → result ≡ Renew.Began found → PassRenews (next_of pass.old.pass.number width) (record { hash = hash; cost = cost }) pass.old.pass found pass.new.pass }
        ensures asks { (found : Option Decision) → result ≡ Renew.Began found → asked_in pass.new.pass.knows.trace pass.new.pass.number ≡ Some (record { hash = hash; cost = cost }) }
        ensures wide { (found : Option Decision) → result ≡ Renew.Began found → own_width pass.new.pass ≡ width }
    {
        let next = self.next_number(pass, width);
        if next >= self.numbers() {
            return Renew::Spent;
        }
        Renew::Began(self.swap_for_next::<Brand>(pass, next, width, hash, cost))
    }

    // The number of the next request of the slot, of this width.
    fn next_number(&self, pass: &Pass, width: u32) -> u128
        requires own { pass_gate pass.now ≡ self.now }
        requires some_width { 1 ≤ width }
        requires narrow { width ≤ max_width }
        ensures value { result ≡ next_of pass.now.pass.number width }
        ensures is_next { IsNextRequest pass.now.pass result }
        ensures round { round_of result ≡ round_of pass.now.pass.number + 1 }
        ensures small { result < length self.now.shape.widths → result < 2 ^ 75 }
        ensures wide { result < length self.now.shape.widths → width_in self.now.shape.widths result ≡ width }
    {
        let _ = &self.gauge;
        let round = pass.number / 16384 / 32768 + 1;
        (round * 32768 + width as u128) * 16384 + pass.number % 16384
    }

    // One swap of the slot's word, for that of the next request, undecided. Tells how the old one was decided.
    fn swap_for_next<J: Asking>(
        &self,
        pass: &mut Pass,
        next: u128,
        width: u32,
        hash: u64,
        cost: u32,
    ) -> Option<Decision>
        requires own { pass_gate pass.old ≡ self.now }
        requires may { MayRenew pass.old.pass }
        requires chosen { next ≡ J.request }
        requires asks { record { hash = hash; cost = cost } ≡ J.ask }
        requires is_next { IsNextRequest pass.old.pass next }
        requires round { round_of next ≡ round_of pass.old.pass.number + 1 }
        requires inside { next < length self.now.shape.widths }
        requires small { next < 2 ^ 75 }
        requires narrow { width ≤ max_width }
        requires is_wide { width_in self.now.shape.widths next ≡ width }
        ensures gate { pass_gate pass.new ≡ pass_gate pass.old }
        ensures answer { PassRenews next J.ask pass.old.pass result pass.new.pass }
        ensures asks { asked_in pass.new.pass.knows.trace pass.new.pass.number ≡ Some J.ask }
        ensures wide { own_width pass.new.pass ≡ width }
    {
        let word = word_of(next);
        let own = mark(next);
        let new = undecided(own);
        let shared = &self.board.shared;
        let found = decision_in(shared.swap::<PassRenew<J>>(&mut pass.seat, word, new));
        pass.number = next;
        pass.width = width;
        pass.counts.add_found(found);
        found
    }

    // One load of the level word.
    fn load_as_pass(&self, pass: &mut Pass) -> LevelWord
        requires own { pass_gate pass.old ≡ self.now }
        requires fresh { pass.old.pass.state ≡ Fresh }
        ensures same { SamePass pass.old pass.new }
        ensures fresh { pass.new.pass.state ≡ Fresh }
        ensures looked { PassLoadsLevel pass.old.pass result pass.new.pass }
        ensures in_range { IsInRange result }
        ensures closed { result.closed ≡ true → pass.new.pass.knows.saw_closed ≡ true }
        ensures no_room { result.closed ≡ false → result.waiters ≡ 0 → ¬ Fits result.seats result.limit (own_width pass.old.pass) → pass.new.pass.no_room ≡ true }
        ensures no_queues { pass.old.pass.knows.shape.response ≡ Reject → result.waiters ≡ 0 }
    {
        level_in(self.board.shared.load::<PassLoadLevel>(&mut pass.seat, 0))
    }

    // One exchange, of the word that says this for one with the request's seats. Says whether it was
    // made.
    fn exchange_for_seats(&self, pass: &mut Pass, level: LevelWord) -> bool
        requires own { pass_gate pass.old ≡ self.now }
        requires fresh { pass.old.pass.state ≡ Fresh }
        requires in_range { IsInRange level }
        requires open_ { level.closed ≡ false }
        requires nobody { level.waiters ≡ 0 }
        requires room { Fits level.seats level.limit (own_width pass.old.pass) }
        ensures same { SamePass pass.old pass.new }
        ensures took { MatchBool result
            (PassExchangesLevel pass.old.pass level pass.new.pass)
            ((other : Level) × (other ≢ level) × PassMissesLevel pass.old.pass other pass.new.pass) }
    {
        let word = level.pack();
        let new = level.with_seats(pass.width).pack();
        let found = self
            .board
            .shared
            .compare_exchange::<PassExchangeLevel>(&mut pass.seat, 0, word, new);
        if found != word {
            return false;
        }
        true
    }
}
