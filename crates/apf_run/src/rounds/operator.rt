//! A Station in the hands of a worker.

ghost use Rattle.std.specs.Prelude.{◌≡◌, ◌≢◌, [], true, IsTrue, None};
ghost use Rattle.apf_gate.specs.Records.{told_of};
ghost use Rattle.apf_gate.specs.Slots.{IsTicket};
ghost use Rattle.apf_gate.specs.Tokens.{station_gate};
ghost use Rattle.apf_level.specs.LifeAdmission.{strike_owed};
ghost use Rattle.apf_run.specs.Plans.{SomeCloses};
ghost use Rattle.apf_run.specs.RoundsPlans.{IsNamedIn, IsFaithful};
ghost use Rattle.apf_run.specs.RoundsWorkers.{KeepsKnowing};

use crate::rounds::plan::Plan;
use apf_gate::{Cancel, Read, Station, Ticket};
use apf_level::life::{Level, OwedStrike};
use std::marker::{Model, PhantomData};
use std::sync::Wait;

/// A Station of the level that K names, which cancelled only requests of K's rounds in slots that a request of K names,
/// and closed the level only if a request of K says so.
#[derive(Drop)]
pub struct Operator<K: Plan> {
    station: Station,
    of: PhantomData<K>,
}

impl<K: Plan> Model for Operator<K> {
    ghost use Rattle.apf_gate.specs.Tokens.{StationToken};
    ghost use Rattle.apf_run.specs.RoundsPlans.{IsFaithful};

    ghost Value = { StationToken };

    ghost view = { λ o. o.station };

    ghost invariant = { λ o. IsFaithful K.level.gate K.requests K.rounds o.station };
}

impl<K: Plan> Operator<K> {
    /// This Station, which made no step.
    pub fn new(station: Station) -> Operator<K>
        requires own { station_gate station ≡ K.level.gate }
        requires fresh { station.station.knows.trace ≡ [] }
    {
        Operator {
            station,
            of: PhantomData,
        }
    }

    /// Reads the decision of a request of its worker that is over, so that the Station was told it. It reads once: the
    /// request holds its slot still, and is decided.
    pub fn hear<R: Wait>(&mut self, rt: &R, level: &Level<K>, request: Ticket)
        requires is_request { IsTicket K.level.gate.shape request.number }
        ensures told { told_of self.new.station.knows.told request.number ≢ None }
        ensures knows { KeepsKnowing self.old self.new }
    {
        for _ in rt.forever() {
            if self.was_told(level, request) {
                return;
            }
        }
        unreachable!()
    }

    // Reads the request's decision. Says whether there was one.
    fn was_told(&mut self, level: &Level<K>, request: Ticket) -> bool
        requires is_request { IsTicket K.level.gate.shape request.number }
        ensures told { IsTrue result → told_of self.new.station.knows.told request.number ≢ None }
        ensures knows { KeepsKnowing self.old self.new }
    {
        match level.read(&mut self.station, request) {
            Read::Is(found) => found.is_some(),
            Read::Other => false,
        }
    }

    /// Cancels a request in a slot that a request names, if it is undecided and holds the slot still. Where it is cancelled
    /// its strike is owed.
    pub fn cancel(&mut self, level: &Level<K>, request: Ticket) -> (Cancel, Option<OwedStrike<K>>)
        requires is_request { IsTicket K.level.gate.shape request.number }
        requires named { IsNamedIn K.requests K.rounds request.number }
        ensures knows { KeepsKnowing self.old self.new }
        ensures owes { result.1 ≡ strike_owed result.0 request.number }
    {
        level.cancel_owing(&mut self.station, request)
    }

    /// Closes the level, as a request says.
    pub fn close(&mut self, level: &Level<K>)
        requires said { SomeCloses K.requests }
        ensures closed { self.new.station.knows.saw_closed ≡ true }
        ensures knows { KeepsKnowing self.old self.new }
    {
        level.close(&mut self.station);
    }

    /// It did what the requests ask for, and nothing else. It makes no step: the contract is the law.
    pub fn is_faithful(&self)
        ensures { IsFaithful K.level.gate K.requests K.rounds self.now }
    {
        let _ = &self.station;
    }

    /// The Station.
    pub fn into_station(self) -> Station
        ensures same { result ≡ self }
        ensures faithful { IsFaithful K.level.gate K.requests K.rounds result }
    {
        let Operator { station, of: _ } = self;
        station
    }
}
