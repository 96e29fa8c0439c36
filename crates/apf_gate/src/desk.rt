//! The token of whoever holds the level's lock, and its steps.

ghost use Rattle.std.specs.Prelude.{◌≡◌, ◌≢◌, ◌⊎◌, ℕ, ◌<◌, ◌≤◌, ◌==◌, length, MatchBool, Some, None};
ghost use Rattle.apf_words.specs.Codes.{marked};
ghost use Rattle.apf_gate.specs.Slots.{mark_of, IsTicket};
ghost use Rattle.apf_words.specs.Fits.{Fits};
ghost use Rattle.apf_words.specs.Level.{Level};
ghost use Rattle.apf_words.specs.declared.decision.Decision.TheVariants.{Cancelled};
ghost use Rattle.apf_model.specs.World.{width};
ghost use Rattle.apf_gate.specs.declared.record.Service.TheVariants.{Waiting};
ghost use Rattle.apf_gate.specs.Records.{told_of, service};
ghost use Rattle.apf_gate.specs.Gauges.{IsShape};
ghost use Rattle.apf_gate.specs.Steps.{IsInRange, OfDecision};
ghost use Rattle.apf_gate.specs.DeskSteps.{DeskLoadsLevel, DeskLoadsDecision, DeskExchangesLevel, DeskExchangesDecision, DeskMissesDecision, DeskSubtractsSeats, DeskSubtractsWaiter};
ghost use Rattle.apf_gate.specs.Tokens.{desk_gate};
ghost use Rattle.apf_gate.specs.DeskCalls.{TriesToGrant, SettlesTo};
ghost use Rattle.apf_gate.specs.DeskResults.{SameDesk, AfterView, AfterSeen, AfterTryGrant, AfterSettle, AfterGiveBack, AfterLeave};

use crate::answers::TryGrant;
use crate::gate::{Gate, level_in, mark, word_of};
use crate::plays::{
    Chosen, DeskExchangeDecision, DeskExchangeLevel, DeskLoadDecision, DeskLoadLevel,
    DeskSubtractSeats, DeskSubtractWaiter,
};
use crate::rule::Place;
use apf_words::{Decision, LevelWord, decided, decision_in, fits, undecided};
use std::alloc::Allocator;
use std::marker::{Brand, Model};

/// The one token that enters, grants and refuses: of whoever holds the level's lock.
#[derive(Drop)]
pub struct Desk {
    pub(crate) seat: Place,
    pub(crate) held: Option<u128>,
}

impl Model for Desk {
    ghost use Rattle.apf_gate.specs.Rule.{desk_of};
    ghost use Rattle.apf_gate.specs.Tokens.{DeskToken, IsDesk};

    ghost Value = { DeskToken };

    ghost view = { λ d. record {
      table = d.seat.table_id;
      desk = desk_of d.seat.me.0;
    } };

    ghost invariant = { λ d. IsDesk d.seat.me d.held };
}

impl Desk {
    /// The limit, the widths and the Stations of the Desk's gate are in range.
    ///
    /// It makes no step: the contract is the law.
    pub fn is_of_a_gate(&self)
        ensures shape { IsShape self.now.desk.knows.shape }
        ensures tickets { length self.now.desk.knows.shape.widths ≡ self.now.desk.knows.shape.slots → (r : ℕ) → r < length self.now.desk.knows.shape.widths → IsTicket self.now.desk.knows.shape r }
    {
        let _ = &self.seat;
    }
}

impl<A: Allocator> Gate<A> {
    /// Reads the level word, by one load.
    pub fn view(&self, desk: &mut Desk) -> LevelWord
        requires own { desk_gate desk.old ≡ self.now }
        ensures same { SameDesk desk.old desk.new }
        ensures answer { DeskLoadsLevel desk.old.desk result desk.new.desk }
        ensures after { AfterView desk.old.desk result desk.new.desk }
    {
        level_in(self.board.shared.load::<DeskLoadLevel>(&mut desk.seat, 0))
    }

    /// Reads the decision of a request that waits, or of a batch, by one load of its word.
    pub fn seen(&self, desk: &mut Desk, request: u128) -> Option<Decision>
        requires own { desk_gate desk.old ≡ self.now }
        requires is_request { IsTicket self.now.shape request }
        requires has_slot { (service desk.old.desk request ≡ Waiting) ⊎ (length self.now.shape.widths ≡ self.now.shape.slots) }
        ensures same { SameDesk desk.old desk.new }
        ensures answer { DeskLoadsDecision request desk.old.desk result desk.new.desk }
        ensures after { AfterSeen desk.old.desk request result desk.new.desk }
    {
        decision_in(self.load_seen::<Brand>(desk, request))
    }

    /// Grants a waiting request its seats, where they fit: the Desk holds them then. It makes one load of
    /// the level word, and an exchange where that showed room.
    pub fn try_grant(&self, desk: &mut Desk, request: u128) -> TryGrant
        requires own { desk_gate desk.old ≡ self.now }
        requires is_request { IsTicket self.now.shape request }
        requires waits { service desk.old.desk request ≡ Waiting }
        requires holds_none { desk.old.desk.held ≡ None }
        ensures same { SameDesk desk.old desk.new }
        ensures answer { TriesToGrant desk.old.desk request result desk.new.desk }
        ensures after { AfterTryGrant desk.old.desk request result desk.new.desk }
    {
        let level = self.view(desk);
        let width = self.width_of(request);
        if !fits(level.seats(), level.limit(), width) {
            return TryGrant::NoRoom;
        }
        if !self.exchange_grant::<Brand>(desk, level, request) {
            return TryGrant::Raced;
        }
        TryGrant::Granted
    }

    /// Writes execute of the request whose seats the Desk holds, unless it is cancelled. Answers the decision
    /// that is written then: with `Execute` the Desk holds nothing any more, with `Cancelled` it holds the
    /// seats still. It makes one exchange, and wakes nobody: where somebody may sleep, `wake` is for the
    /// caller to call afterwards.
    pub fn settle(&self, desk: &mut Desk) -> Decision
        requires own { desk_gate desk.old ≡ self.now }
        requires holds { desk.old.desk.held ≢ None }
        ensures same { SameDesk desk.old desk.new }
        ensures answer { SettlesTo desk.old.desk result desk.new.desk }
        ensures after { AfterSettle desk.old.desk result desk.new.desk }
    {
        let Some(request) = desk.held else {
            unreachable!()
        };
        match decision_in(self.exchange_settled::<Brand>(desk, request)) {
            None => Decision::Execute,
            Some(decision) => decision,
        }
    }

    /// Gives back the seats that the Desk holds of a request that was decided otherwise. It takes the width
    /// from the level word by one step.
    pub fn give_back(&self, desk: &mut Desk)
        requires own { desk_gate desk.old ≡ self.now }
        requires holds { desk.old.desk.held ≢ None }
        requires lost { (r : ℕ) → desk.old.desk.held ≡ Some r → told_of desk.old.desk.knows.told r ≢ None }
        ensures same { SameDesk desk.old desk.new }
        ensures answer { (r : ℕ) × (desk.old.desk.held ≡ Some r) × ((level : Level) × DeskSubtractsSeats r desk.old.desk level desk.new.desk) }
        ensures after { AfterGiveBack desk.old.desk desk.new.desk }
    {
        let Some(request) = desk.held else {
            unreachable!()
        };
        self.give_back_of::<Brand>(desk, request);
    }

    /// Takes a waiting request that was seen cancelled out of the count of those that wait, by one step on
    /// the level word.
    pub fn leave(&self, desk: &mut Desk, request: u128)
        requires own { desk_gate desk.old ≡ self.now }
        requires is_request { IsTicket self.now.shape request }
        requires waits { service desk.old.desk request ≡ Waiting }
        requires seen_cancelled { told_of desk.old.desk.knows.told request ≡ Some Cancelled }
        ensures same { SameDesk desk.old desk.new }
        ensures answer { (level : Level) × DeskSubtractsWaiter request desk.old.desk level desk.new.desk }
        ensures after { AfterLeave desk.old.desk request desk.new.desk }
    {
        self.leave_of::<Brand>(desk, request);
    }

    // One load of a decision word.
    fn load_seen<J: Chosen>(&self, desk: &mut Desk, request: u128) -> u64
        requires own { desk_gate desk.old ≡ self.now }
        requires is_request { IsTicket self.now.shape request }
        requires chosen { request ≡ J.request }
        requires has_slot { (service desk.old.desk request ≡ Waiting) ⊎ (length self.now.shape.widths ≡ self.now.shape.slots) }
        ensures same { SameDesk desk.old desk.new }
        ensures found { OfDecision (mark_of request) (λ found. DeskLoadsDecision request desk.old.desk found desk.new.desk) result }
    {
        let word = word_of(request);
        self.board
            .shared
            .load::<DeskLoadDecision<J>>(&mut desk.seat, word)
    }

    // One exchange, of the word that says this for one with the request granted. Says whether it was made.
    fn exchange_grant<J: Chosen>(&self, desk: &mut Desk, level: LevelWord, request: u128) -> bool
        requires own { desk_gate desk.old ≡ self.now }
        requires is_request { IsTicket self.now.shape request }
        requires chosen { request ≡ J.request }
        requires waits { service desk.old.desk request ≡ Waiting }
        requires holds_none { desk.old.desk.held ≡ None }
        requires in_range { IsInRange level }
        requires some_wait { 1 ≤ level.waiters }
        requires room { Fits level.seats level.limit (width self.now.shape.widths request) }
        ensures same { SameDesk desk.old desk.new }
        ensures granted { MatchBool result
            (DeskExchangesLevel request desk.old.desk level desk.new.desk)
            ((other : Level) × (other ≢ level) × DeskLoadsLevel desk.old.desk other desk.new.desk) }
    {
        let word = level.pack();
        let width = self.width_of(request);
        let new = level.with_grant(width).pack();
        let found = self
            .board
            .shared
            .compare_exchange::<DeskExchangeLevel<J>>(&mut desk.seat, 0, word, new);
        if found != word {
            return false;
        }
        desk.held = Some(request);
        true
    }

    // One exchange of the decision word of the request that is held, for the code of execute where it is 0.
    fn exchange_settled<J: Chosen>(&self, desk: &mut Desk, request: u128) -> u64
        requires own { desk_gate desk.old ≡ self.now }
        requires chosen { request ≡ J.request }
        requires holds { desk.old.desk.held ≡ Some request }
        ensures same { SameDesk desk.old desk.new }
        ensures found { OfDecision (mark_of request) (λ found. MatchBool (result == marked (mark_of request) None) (DeskExchangesDecision request desk.old.desk desk.new.desk) (DeskMissesDecision request desk.old.desk found desk.new.desk)) result }
    {
        let _ = &desk.seat;
        let word = word_of(request);
        let own = mark(request);
        let old = undecided(own);
        let new = decided(own, Decision::Execute);
        let found = self
            .board
            .shared
            .compare_exchange::<DeskExchangeDecision<J>>(&mut desk.seat, word, old, new);
        if found == old {
            desk.held = None;
        }
        found
    }

    fn give_back_of<J: Chosen>(&self, desk: &mut Desk, request: u128)
        requires own { desk_gate desk.old ≡ self.now }
        requires is_request { IsTicket self.now.shape request }
        requires chosen { request ≡ J.request }
        requires holds { desk.old.desk.held ≡ Some request }
        requires lost { told_of desk.old.desk.knows.told request ≢ None }
        ensures same { SameDesk desk.old desk.new }
        ensures answer { (level : Level) × DeskSubtractsSeats request desk.old.desk level desk.new.desk }
    {
        let seats = LevelWord::to_release(self.width_of(request));
        self.board
            .shared
            .fetch_sub::<DeskSubtractSeats<J>>(&mut desk.seat, 0, seats);
        desk.held = None;
    }

    fn leave_of<J: Chosen>(&self, desk: &mut Desk, request: u128)
        requires own { desk_gate desk.old ≡ self.now }
        requires is_request { IsTicket self.now.shape request }
        requires chosen { request ≡ J.request }
        requires waits { service desk.old.desk request ≡ Waiting }
        requires seen_cancelled { told_of desk.old.desk.knows.told request ≡ Some Cancelled }
        ensures same { SameDesk desk.old desk.new }
        ensures answer { (level : Level) × DeskSubtractsWaiter request desk.old.desk level desk.new.desk }
    {
        self.board
            .shared
            .fetch_sub::<DeskSubtractWaiter<J>>(&mut desk.seat, 0, LevelWord::to_leave());
    }
}
