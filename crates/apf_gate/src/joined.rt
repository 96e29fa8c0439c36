//! The steps of the Desk with a Pass joined to it.

ghost use Rattle.std.specs.Prelude.{◌≡◌, ◌≢◌, [], ◌∷◌, ◌+◌, ◌==◌, true, false, MatchBool, None};
ghost use Rattle.apf_words.specs.Codes.{marked};
ghost use Rattle.apf_words.specs.Level.{Level};
ghost use Rattle.apf_model.specs.declared.response.Response.TheVariants.{Queue};
ghost use Rattle.apf_gate.specs.declared.record.Record.TheVariants as records;
ghost use Rattle.apf_gate.specs.Records.{KnowsMore};
ghost use Rattle.apf_gate.specs.Rule.{pass_of, desk_of};
ghost use Rattle.apf_gate.specs.Steps.{IsInRange, OfDecision};
ghost use Rattle.apf_gate.specs.JoinedSteps.{both_mark, JoinedLoadsLevel, JoinedExchangesLevel, JoinedLoadsDecision, JoinedExchangesDecision, JoinedMissesDecision};
ghost use Rattle.apf_gate.specs.Tokens.{pass_gate, desk_gate, both_at, AreBoth, IsAlone};
ghost use Rattle.apf_gate.specs.DeskCalls.{MayHand, MayRefuse, TriesToEnter, RefusesTo};
ghost use Rattle.apf_gate.specs.JoinedResults.{SameBoth, AfterTryEnter, AfterRefuse, AfterHear};

use crate::answers::TryEnter;
use crate::desk::Desk;
use crate::gate::{Gate, level_in, mark, word_of};
use crate::pass::Pass;
use crate::plays::{
    FirstRecord, JoinedExchangeDecision, JoinedExchangeLevel, JoinedLoadDecision, JoinedLoadLevel,
};
use crate::rule::Place;
use apf_words::{Decision, LevelWord, decided, decision_in, undecided};
use std::alloc::Allocator;

impl<A: Allocator> Gate<A> {
    /// Enters a request that is in line, where the level is open: it waits then.
    ///
    /// The Pass hands its request over. The tokens step joined: one load of the level word, and an exchange
    /// where that showed an open level.
    pub fn try_enter(&self, desk: &mut Desk, pass: &mut Pass) -> TryEnter
        requires own_desk { desk_gate desk.old ≡ self.now }
        requires own_pass { pass_gate pass.old ≡ self.now }
        requires has_queues { self.now.shape.response ≡ Queue }
        requires may { MayHand (record { pass = pass.old.pass; desk = desk.old.desk }) }
        ensures same { SameBoth desk.old pass.old desk.new pass.new }
        ensures answer { TriesToEnter (record { pass = pass.old.pass; desk = desk.old.desk }) result (record { pass = pass.new.pass; desk = desk.new.desk }) }
        ensures after { AfterTryEnter desk.old.desk pass.old.pass result desk.new.desk pass.new.pass }
    {
        self.join(&mut desk.seat, &mut pass.seat);
        let answer = self.enter_joined(&mut desk.seat);
        self.part(&mut desk.seat, &mut pass.seat);
        answer
    }

    /// Refuses a request that is in line and never entered: as full, or as closed where the Desk saw the
    /// level closed. Answers the decision that is written then.
    ///
    /// The Pass hands its request over. The tokens step joined: one exchange of the request's decision word.
    pub fn refuse(&self, desk: &mut Desk, pass: &mut Pass, decision: Decision) -> Decision
        requires own_desk { desk_gate desk.old ≡ self.now }
        requires own_pass { pass_gate pass.old ≡ self.now }
        requires may { MayHand (record { pass = pass.old.pass; desk = desk.old.desk }) }
        requires refusal { MayRefuse desk.old.desk decision }
        ensures same { SameBoth desk.old pass.old desk.new pass.new }
        ensures answer { RefusesTo (record { pass = pass.old.pass; desk = desk.old.desk }) decision result (record { pass = pass.new.pass; desk = desk.new.desk }) }
        ensures after { AfterRefuse pass.old.pass decision result desk.new.desk pass.new.pass }
    {
        let number = pass.number;
        self.join(&mut desk.seat, &mut pass.seat);
        let found = self.exchange_refusal(&mut desk.seat, number, decision);
        self.part(&mut desk.seat, &mut pass.seat);
        match decision_in(found) {
            None => decision,
            Some(other) => other,
        }
    }

    /// Lets the Desk and the Pass know the decision of the Pass's request, and answers it. It is the one that
    /// the Pass was told, if it was. It makes one load of the request's decision word with the tokens joined.
    pub fn hear(&self, desk: &mut Desk, pass: &mut Pass) -> Option<Decision>
        requires own_desk { desk_gate desk.old ≡ self.now }
        requires own_pass { pass_gate pass.old ≡ self.now }
        ensures same { SameBoth desk.old pass.old desk.new pass.new }
        ensures answer { JoinedLoadsDecision (record { pass = pass.old.pass; desk = desk.old.desk }) result (record { pass = pass.new.pass; desk = desk.new.desk }) }
        ensures after { AfterHear desk.old.desk pass.old.pass result desk.new.desk pass.new.pass }
    {
        let number = pass.number;
        self.join(&mut desk.seat, &mut pass.seat);
        let found = self.load_joined_decision(&mut desk.seat, number);
        self.part(&mut desk.seat, &mut pass.seat);
        decision_in(found)
    }

    // The Pass's part goes to the Desk's seat.
    fn join(&self, desk: &mut Place, pass: &mut Place)
        requires desk { IsAlone self.now desk.old.table_id desk.old.me (records.Desk (desk_of desk.old.me.0)) }
        requires pass { IsAlone self.now pass.old.table_id pass.old.me (records.Pass (pass_of pass.old.me.0)) }
        ensures table { (desk.new.table_id ≡ desk.old.table_id) × (pass.new.table_id ≡ pass.old.table_id) }
        ensures both { desk.new.me ≡ (records.Pass (pass_of pass.old.me.0) ∷ records.Desk (desk_of desk.old.me.0) ∷ [], []) }
    {
        let shared = &self.board.shared;
        let lent = shared.split_seat::<FirstRecord>(pass);
        shared.join_seat::<FirstRecord>(desk, lent);
    }

    // The Pass's part goes back to its seat.
    fn part(&self, desk: &mut Place, pass: &mut Place)
        requires table { desk.old.table_id ≡ self.now.table }
        requires both { desk.old.me ≡ (records.Pass (both_at desk.old.me).pass ∷ records.Desk (both_at desk.old.me).desk ∷ [], []) }
        ensures table { (desk.new.table_id ≡ desk.old.table_id) × (pass.new.table_id ≡ desk.old.table_id) }
        ensures desk { desk.new.me ≡ (records.Desk (both_at desk.old.me).desk ∷ [], []) }
        ensures pass { pass.new.me ≡ (records.Pass (both_at desk.old.me).pass ∷ [], []) }
    {
        *pass = self.board.shared.split_seat::<FirstRecord>(desk);
    }

    fn enter_joined(&self, seat: &mut Place) -> TryEnter
        requires own { AreBoth self.now seat.old.table_id seat.old.me }
        requires has_queues { self.now.shape.response ≡ Queue }
        requires may { MayHand (both_at seat.old.me) }
        ensures own { AreBoth self.now seat.new.table_id seat.new.me }
        ensures answer { TriesToEnter (both_at seat.old.me) result (both_at seat.new.me) }
        ensures closed { result ≡ TryEnter.Closed → (both_at seat.new.me).desk.knows.saw_closed ≡ true }
        ensures stays_closed { (both_at seat.old.me).desk.knows.saw_closed ≡ true → result ≡ TryEnter.Closed }
        ensures more { KnowsMore (both_at seat.old.me).desk.knows (both_at seat.new.me).desk.knows }
    {
        let level = self.load_joined_level(seat);
        if level.closed() {
            return TryEnter::Closed;
        }
        if !self.exchange_joined(seat, level) {
            return TryEnter::Raced;
        }
        TryEnter::Entered
    }

    // One load of the level word, with which the request is handed over.
    fn load_joined_level(&self, seat: &mut Place) -> LevelWord
        requires own { AreBoth self.now seat.old.table_id seat.old.me }
        requires may { MayHand (both_at seat.old.me) }
        ensures own { AreBoth self.now seat.new.table_id seat.new.me }
        ensures may { MayHand (both_at seat.new.me) }
        ensures loads { JoinedLoadsLevel (both_at seat.old.me) result (both_at seat.new.me) }
        ensures in_range { IsInRange result }
        ensures closed { result.closed ≡ true → (both_at seat.new.me).desk.knows.saw_closed ≡ true }
        ensures more { KnowsMore (both_at seat.old.me).desk.knows (both_at seat.new.me).desk.knows }
    {
        level_in(self.board.shared.load::<JoinedLoadLevel>(seat, 0))
    }

    // One exchange, of the word that says this for one with one waiter more. Says whether it was made.
    fn exchange_joined(&self, seat: &mut Place, level: LevelWord) -> bool
        requires own { AreBoth self.now seat.old.table_id seat.old.me }
        requires has_queues { self.now.shape.response ≡ Queue }
        requires may { MayHand (both_at seat.old.me) }
        requires in_range { IsInRange level }
        requires is_open { level.closed ≡ false }
        ensures own { AreBoth self.now seat.new.table_id seat.new.me }
        ensures entered { MatchBool result
            (JoinedExchangesLevel (both_at seat.old.me) level (both_at seat.new.me))
            ((other : Level) × (other ≢ level) × JoinedLoadsLevel (both_at seat.old.me) other (both_at seat.new.me)) }
        ensures more { KnowsMore (both_at seat.old.me).desk.knows (both_at seat.new.me).desk.knows }
    {
        let word = level.pack();
        let new = level.with_waiter().pack();
        let found = self
            .board
            .shared
            .compare_exchange::<JoinedExchangeLevel>(seat, 0, word, new);
        if found != word {
            return false;
        }
        true
    }

    // One exchange of the decision word, for the code of a refusal where it is undecided.
    fn exchange_refusal(&self, seat: &mut Place, number: u128, decision: Decision) -> u64
        requires own { AreBoth self.now seat.old.table_id seat.old.me }
        requires number { number ≡ (both_at seat.old.me).pass.number }
        requires may { MayHand (both_at seat.old.me) }
        requires refusal { MayRefuse (both_at seat.old.me).desk decision }
        ensures own { AreBoth self.now seat.new.table_id seat.new.me }
        ensures found { OfDecision (both_mark (both_at seat.old.me)) (λ found. MatchBool (result == marked (both_mark (both_at seat.old.me)) None)
            (JoinedExchangesDecision decision (both_at seat.old.me) (both_at seat.new.me))
            (JoinedMissesDecision (both_at seat.old.me) found (both_at seat.new.me))) result }
        ensures more { KnowsMore (both_at seat.old.me).desk.knows (both_at seat.new.me).desk.knows }
    {
        let word = word_of(number);
        let own = mark(number);
        let old = undecided(own);
        let new = decided(own, decision);
        self.board
            .shared
            .compare_exchange::<JoinedExchangeDecision>(seat, word, old, new)
    }

    // One load of the decision word.
    fn load_joined_decision(&self, seat: &mut Place, number: u128) -> u64
        requires own { AreBoth self.now seat.old.table_id seat.old.me }
        requires number { number ≡ (both_at seat.old.me).pass.number }
        ensures own { AreBoth self.now seat.new.table_id seat.new.me }
        ensures found { OfDecision (both_mark (both_at seat.old.me)) (λ found. JoinedLoadsDecision (both_at seat.old.me) found (both_at seat.new.me)) result }
        ensures more { KnowsMore (both_at seat.old.me).desk.knows (both_at seat.new.me).desk.knows }
    {
        let word = word_of(number);
        self.board.shared.load::<JoinedLoadDecision>(seat, word)
    }
}
