//! The token that cancels, closes, changes the limit and looks.

ghost use Rattle.std.specs.Prelude.{◌≡◌, ◌≢◌, ◌<◌, ◌≤◌, ◌==◌, length, MatchBool, None};
ghost use Rattle.apf_gate.specs.Slots.{IsTicket};
ghost use Rattle.apf_words.specs.Level.{Level};
ghost use Rattle.apf_words.specs.Limits.{max_limit};
ghost use Rattle.apf_gate.specs.Steps.{IsInRange, OnTicket, OnTicketIf};
ghost use Rattle.apf_gate.specs.StationSteps.{StationLoadsLevel, StationLoadsDecision, StationExchangesDecision, StationExchangesLevel, StationFindsOther};
ghost use Rattle.apf_gate.specs.Tokens.{station_gate};
ghost use Rattle.apf_gate.specs.StationCalls.{TriesToRead, TriesToCancel, ClosesTo, TriesToSet};
ghost use Rattle.apf_gate.specs.StationResults.{SameStation, AfterLook, AfterTryRead, AfterTryCancel, AfterClose};

use crate::answers::{Cancel, Close, Read, TrySetLimit};
use crate::gate::{Gate, level_in, mark, word_of};
use crate::plays::{
    Chosen, StationCloseLevel, StationExchangeDecision, StationExchangeLevel, StationLoadDecision,
    StationLoadLevel,
};
use crate::rule::Place;
use crate::ticket::Ticket;
use apf_words::{Decision, LevelWord, decided, decision_in, mark_in, undecided};
use std::alloc::Allocator;
use std::marker::{Brand, Model};

/// A token that cancels requests, closes the level, changes the limit and looks.
#[derive(Drop)]
pub struct Station {
    pub(crate) seat: Place,
}

impl Model for Station {
    ghost use Rattle.std.specs.Prelude.{◌≡◌, [], ◌∷◌};
    ghost use Rattle.apf_gate.specs.declared.record.Record.TheVariants as records;
    ghost use Rattle.apf_gate.specs.Rule.{station_of};
    ghost use Rattle.apf_gate.specs.Tokens.{StationToken};

    ghost Value = { StationToken };

    ghost view = { λ t. record {
      table = t.seat.table_id;
      station = station_of t.seat.me.0;
    } };

    ghost invariant = { λ t. t.seat.me ≡ (records.Station (station_of t.seat.me.0) ∷ [], []) };
}

impl<A: Allocator> Gate<A> {
    /// Reads the level word, by one load.
    pub fn look(&self, station: &mut Station) -> LevelWord
        requires own { station_gate station.old ≡ self.now }
        ensures same { SameStation station.old station.new }
        ensures answer { StationLoadsLevel station.old.station result station.new.station }
        ensures after { AfterLook station.old.station result station.new.station }
    {
        let shared = &self.board.shared;
        level_in(shared.load::<StationLoadLevel>(&mut station.seat, 0))
    }

    /// Reads a request's decision, by one load of the word of its slot, if it holds that still. `Other` says that
    /// this request is over: another one holds the slot.
    pub fn read(&self, station: &mut Station, ticket: Ticket) -> Read
        requires own { station_gate station.old ≡ self.now }
        requires is_request { IsTicket self.now.shape ticket.number }
        ensures same { SameStation station.old station.new }
        ensures answer { TriesToRead station.old.station ticket.number result station.new.station }
        ensures after { AfterTryRead station.old.station ticket.number result station.new.station }
        ensures in_a_batch { length self.now.shape.widths ≡ self.now.shape.slots → result ≢ Read.Other }
    {
        let request = ticket.number;
        let found = self.load_word::<Brand>(station, request);
        if mark_in(found) != mark(request) {
            return Read::Other;
        }
        Read::Is(decision_in(found))
    }

    /// Cancels a request, if it is undecided and holds its slot. Answers its decision, or `Other`: another request
    /// holds the slot, so that this one is over, and nothing was written of anyone. It makes one exchange of the word
    /// of the request's slot. Where the request is cancelled then, it wakes whoever sleeps until it is decided.
    pub fn cancel(&self, station: &mut Station, ticket: Ticket) -> Cancel
        requires own { station_gate station.old ≡ self.now }
        requires is_request { IsTicket self.now.shape ticket.number }
        ensures same { SameStation station.old station.new }
        ensures answer { TriesToCancel station.old.station ticket.number result station.new.station }
        ensures after { AfterTryCancel station.old.station ticket.number result station.new.station }
        ensures in_a_batch { length self.now.shape.widths ≡ self.now.shape.slots → result ≢ Cancel.Other }
    {
        let answer = self.cancel_without_wake(station, ticket);
        if answer == Cancel::Is(Decision::Cancelled) {
            self.wake(ticket.number);
        }
        answer
    }

    /// Cancels a request as `cancel` does, and wakes nobody. It is for a level on which nobody sleeps. Elsewhere its
    /// caller calls `wake` afterwards, where the request is cancelled.
    pub fn cancel_without_wake(&self, station: &mut Station, ticket: Ticket) -> Cancel
        requires own { station_gate station.old ≡ self.now }
        requires is_request { IsTicket self.now.shape ticket.number }
        ensures same { SameStation station.old station.new }
        ensures answer { TriesToCancel station.old.station ticket.number result station.new.station }
        ensures after { AfterTryCancel station.old.station ticket.number result station.new.station }
        ensures in_a_batch { length self.now.shape.widths ≡ self.now.shape.slots → result ≢ Cancel.Other }
    {
        let request = ticket.number;
        let found = self.exchange_word::<Brand>(station, request);
        if mark_in(found) != mark(request) {
            return Cancel::Other;
        }
        match decision_in(found) {
            None => Cancel::Is(Decision::Cancelled),
            Some(decision) => Cancel::Is(decision),
        }
    }

    /// Closes the level, by one step on the level word. Says whether this close was the first.
    pub fn close(&self, station: &mut Station) -> Close
        requires own { station_gate station.old ≡ self.now }
        ensures same { SameStation station.old station.new }
        ensures answer { ClosesTo station.old.station result station.new.station }
        ensures after { AfterClose station.old.station result station.new.station }
    {
        let shared = &self.board.shared;
        let found = shared.fetch_or::<StationCloseLevel>(
            &mut station.seat,
            0,
            LevelWord::to_close(),
        );
        if level_in(found).closed() {
            return Close::Already;
        }
        Close::First
    }

    /// Sets the limit, of 1 to 10,000 seats. It makes one load of the level word and one exchange, and
    /// tells the old limit and whether requests waited. `Raced` if the word changed in between.
    pub fn try_set_limit(&self, station: &mut Station, limit: u32) -> TrySetLimit
        requires own { station_gate station.old ≡ self.now }
        requires some_limit { 1 ≤ limit }
        requires small_limit { limit ≤ max_limit }
        ensures same { SameStation station.old station.new }
        ensures answer { TriesToSet station.old.station limit result station.new.station }
    {
        let level = self.look(station);
        if !self.exchange_limit(station, level, limit) {
            return TrySetLimit::Raced;
        }
        TrySetLimit::Set(level.limit(), level.waiters() != 0)
    }

    // One load of a decision word.
    fn load_word<J: Chosen>(&self, station: &mut Station, request: u128) -> u64
        requires own { station_gate station.old ≡ self.now }
        requires chosen { request ≡ J.request }
        requires is_request { IsTicket self.now.shape request }
        ensures same { SameStation station.old station.new }
        ensures found { OnTicket request (StationLoadsDecision request) (StationFindsOther request) station.old.station result station.new.station }
    {
        let word = word_of(request);
        self.board
            .shared
            .load::<StationLoadDecision<J>>(&mut station.seat, word)
    }

    // One exchange of a decision word, for the code of cancelled where it is 0.
    fn exchange_word<J: Chosen>(&self, station: &mut Station, request: u128) -> u64
        requires own { station_gate station.old ≡ self.now }
        requires chosen { request ≡ J.request }
        requires is_request { IsTicket self.now.shape request }
        ensures same { SameStation station.old station.new }
        ensures found { OnTicketIf request (StationExchangesDecision request) (StationLoadsDecision request) (StationFindsOther request) station.old.station result station.new.station }
    {
        let word = word_of(request);
        let own = mark(request);
        let old = undecided(own);
        let new = decided(own, Decision::Cancelled);
        self.board
            .shared
            .compare_exchange::<StationExchangeDecision<J>>(&mut station.seat, word, old, new)
    }

    // One exchange, of the word that says this for one with the limit. Says whether it was made.
    fn exchange_limit(&self, station: &mut Station, level: LevelWord, limit: u32) -> bool
        requires own { station_gate station.old ≡ self.now }
        requires in_range { IsInRange level }
        requires some_limit { 1 ≤ limit }
        requires small_limit { limit ≤ max_limit }
        ensures same { SameStation station.old station.new }
        ensures set { MatchBool result
            (StationExchangesLevel limit station.old.station level station.new.station)
            ((other : Level) × (other ≢ level) × StationLoadsLevel station.old.station other station.new.station) }
    {
        let word = level.pack();
        let new = level.with_limit(limit).pack();
        let found = self
            .board
            .shared
            .compare_exchange::<StationExchangeLevel>(&mut station.seat, 0, word, new);
        if found != word {
            return false;
        }
        true
    }
}
