//! One operator of a level: it cancels requests, closes the level, reads its word and sets its limit.

ghost use Rattle.std.specs.Prelude.{◌≡◌, ◌≤◌, true};
ghost use Rattle.apf_words.specs.Limits.{max_limit};
ghost use Rattle.apf_gate.specs.Slots.{IsTicket};
ghost use Rattle.apf_gate.specs.StationSteps.{StationLoadsLevel};
ghost use Rattle.apf_gate.specs.StationCalls.{TriesToRead, TriesToCancel, ClosesTo, TriesToSet};
ghost use Rattle.apf_gate.specs.StationResults.{AfterTryRead, AfterTryCancel};
ghost use Rattle.apf_gate.specs.Tokens.{station_gate};
ghost use Rattle.apf_level.specs.Limits.{LastSet};
ghost use Rattle.apf_level.specs.Owing.{owed_by_setting};
ghost use Rattle.apf_level.specs.LifeAdmission.{strike_owed};
ghost use Rattle.apf_session.specs.LifeRequests.{number_in};

use crate::life::request::Request;
use apf_gate::{Cancel, Close, Read, Station, Ticket, TrySetLimit};
use apf_level::life::{Level, Naming, OwedStrike, Owes};
use apf_words::LevelWord;
use std::marker::{Model, PhantomData};
use std::sync::Wait;

/// A Station of the level that K names.
#[derive(Drop)]
pub struct Operator<K: Naming> {
    station: Station,
    of: PhantomData<K>,
}

impl<K: Naming> Model for Operator<K> {
    ghost use Rattle.std.specs.Prelude.{◌≡◌};
    ghost use Rattle.apf_gate.specs.Tokens.{StationToken, station_gate};

    ghost Value = { StationToken };

    ghost view = { λ o. o.station };

    ghost invariant = { λ o. station_gate o.station ≡ K.level.gate };
}

impl<K: Naming> Operator<K> {
    /// The operator with this Station.
    pub fn new(station: Station) -> Operator<K>
        requires { station_gate station ≡ K.level.gate }
        ensures { result ≡ station }
    {
        Operator {
            station,
            of: PhantomData,
        }
    }

    /// Cancels the request, if it is undecided and holds its slot. Answers its decision, or `Other`: another request
    /// holds the slot, so that this one is over, and nothing was written of anyone. One that waits still stands in its
    /// queue: where it is cancelled its strike is owed, and `Level::strike_if_owed` takes it out.
    pub fn cancel(&mut self, level: &Level<K>, request: Ticket) -> (Cancel, Option<OwedStrike<K>>)
        requires { IsTicket K.level.gate.shape request.number }
        ensures number { self.new.station.number ≡ self.old.station.number }
        ensures answer { TriesToCancel self.old.station request.number result.0 self.new.station }
        ensures after { AfterTryCancel self.old.station request.number result.0 self.new.station }
        ensures owes { result.1 ≡ strike_owed result.0 request.number }
    {
        level.cancel_owing(&mut self.station, request)
    }

    // Cancels a request that is brought to its end next, if it is undecided. As that reads its decision, it leaves its queue.
    pub(crate) fn cancel_before_end(&mut self, level: &Level<K>, request: &Request<K>) -> Cancel
        ensures number { self.new.station.number ≡ self.old.station.number }
        ensures answer { TriesToCancel self.old.station (number_in request.now) result self.new.station }
    {
        level.cancel(&mut self.station, request.ticket())
    }

    /// Reads the request's decision, if it holds its slot.
    pub fn read(&mut self, level: &Level<K>, request: Ticket) -> Read
        requires { IsTicket K.level.gate.shape request.number }
        ensures number { self.new.station.number ≡ self.old.station.number }
        ensures answer { TriesToRead self.old.station request.number result self.new.station }
        ensures after { AfterTryRead self.old.station request.number result self.new.station }
    {
        level.read(&mut self.station, request)
    }

    /// Closes the level. Says whether this close was the first.
    pub fn close(&mut self, level: &Level<K>) -> Close
        ensures answer { ClosesTo self.old.station result self.new.station }
        ensures closed { self.new.station.knows.saw_closed ≡ true }
    {
        level.close(&mut self.station)
    }

    /// Reads the level word.
    pub fn look(&mut self, level: &Level<K>) -> LevelWord
        ensures { StationLoadsLevel self.old.station result self.new.station }
    {
        level.look(&mut self.station)
    }

    /// Tries to set the limit, 1 to 10,000 seats. Where requests waited then, a dispatch is owed.
    pub fn try_set_limit(&mut self, level: &Level<K>, limit: u32) -> (TrySetLimit, Owes<K>)
        requires some { 1 ≤ limit }
        requires small { limit ≤ max_limit }
        ensures answer { TriesToSet self.old.station limit result.0 self.new.station }
        ensures owes { result.1 ≡ owed_by_setting result.0 }
    {
        level.try_set_limit(&mut self.station, limit)
    }

    /// Sets the limit, 1 to 10,000 seats, and dispatches. Answers the old one.
    pub fn set_limit<R: Wait>(&mut self, rt: &R, level: &Level<K>, limit: u32) -> u32
        requires some { 1 ≤ limit }
        requires small { limit ≤ max_limit }
        ensures { LastSet self.old.station limit result self.new.station }
    {
        level.set_limit(rt, &mut self.station, limit)
    }

    /// Its Station.
    pub fn into_station(self) -> Station
        ensures same { result ≡ self }
        ensures own { station_gate result ≡ K.level.gate }
    {
        let Operator { station, of: _ } = self;
        station
    }
}
