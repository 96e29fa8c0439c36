//! A Station in the hands of a worker.

ghost use Rattle.std.specs.Prelude.{◌≡◌, ◌<◌, [], length, true};
ghost use Rattle.apf_gate.specs.Tokens.{station_gate};
ghost use Rattle.apf_level.specs.Owing.{strike_owed};
ghost use Rattle.apf_run.specs.Plans.{IsNamed, SomeCloses, IsFaithful};

use crate::plan::Plan;
use apf_gate::Station;
use apf_level::{Level, OwedStrike};
use apf_words::Decision;
use std::marker::{Model, PhantomData};

/// A Station of the level that K names, which cancelled only whom a request of K names, and closed the level
/// only if a request of K says so.
#[derive(Drop)]
pub struct Operator<K: Plan> {
    station: Station,
    of: PhantomData<K>,
}

impl<K: Plan> Model for Operator<K> {
    ghost use Rattle.apf_gate.specs.Tokens.{StationToken};
    ghost use Rattle.apf_run.specs.Plans.{IsFaithful};

    ghost Value = { StationToken };

    ghost view = { λ o. o.station };

    ghost invariant = { λ o. IsFaithful K.level.gate K.requests o.station };
}

impl<K: Plan> Operator<K> {
    /// This Station, which made no step.
    pub fn new(station: Station) -> Operator<K>
        requires own { station_gate station ≡ K.level.gate }
        requires fresh { station.station.knows.trace ≡ [] }
    {
        Operator {
            station,
            of: PhantomData,
        }
    }

    /// Cancels a request that another one names, if it is undecided. Answers its decision. Where it is cancelled its strike
    /// is owed.
    pub fn cancel(&mut self, level: &Level<K>, request: u32) -> (Decision, Option<OwedStrike<K>>)
        requires is_request { request < length K.level.gate.shape.widths }
        requires named { IsNamed K.requests request }
        ensures stays_closed { self.old.station.knows.saw_closed ≡ true → self.new.station.knows.saw_closed ≡ true }
        ensures owes { result.1 ≡ strike_owed result.0 request }
    {
        level.cancel_owing(&mut self.station, request)
    }

    /// Closes the level, as a request says.
    pub fn close(&mut self, level: &Level<K>)
        requires said { SomeCloses K.requests }
        ensures closed { self.new.station.knows.saw_closed ≡ true }
    {
        level.close(&mut self.station);
    }

    /// The Station.
    pub fn into_station(self) -> Station
        ensures same { result ≡ self }
        ensures faithful { IsFaithful K.level.gate K.requests result }
    {
        let Operator { station, of: _ } = self;
        station
    }
}
