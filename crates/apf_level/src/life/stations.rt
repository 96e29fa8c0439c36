//! The calls of a Station, outside the lock.

ghost use Rattle.std.specs.Prelude.{◌≡◌, ◌≤◌, ◌↔◌, IsTrue};
ghost use Rattle.apf_words.specs.Limits.{max_limit};
ghost use Rattle.apf_gate.specs.Slots.{IsTicket};
ghost use Rattle.apf_gate.specs.StationSteps.{StationLoadsLevel};
ghost use Rattle.apf_gate.specs.StationCalls.{TriesToRead, TriesToCancel, ClosesTo, TriesToSet};
ghost use Rattle.apf_gate.specs.StationResults.{SameStation, AfterLook, AfterTryRead, AfterTryCancel, AfterClose};
ghost use Rattle.apf_gate.specs.Tokens.{station_gate};
ghost use Rattle.apf_level.specs.Owing.{owed_by_setting};
ghost use Rattle.apf_level.specs.LifeAdmission.{strike_owed};

use crate::life::level::Level;
use crate::life::naming::Naming;
use crate::life::owing::{OwedStrike, Owes, owes_if};
use apf_gate::{Cancel, Close, Read, Station, Ticket, TrySetLimit};
use apf_words::{Decision, LevelWord};

impl<K: Naming> Level<K> {
    /// Whether this is the ticket of a request that there may be at this level: a ticket that came from outside is
    /// tested so.
    pub fn knows(&self, ticket: Ticket) -> bool
        ensures { IsTrue result ↔ IsTicket K.level.gate.shape ticket.number }
    {
        self.gate.knows(ticket)
    }

    /// Cancels a request, if it is undecided and holds its slot, and wakes whoever sleeps until it is decided. Answers
    /// its decision, or `Other`: another request holds the slot, so that this one is over, and nothing was written of
    /// anyone. It makes one exchange of the word of the request's slot.
    pub fn cancel(&self, station: &mut Station, ticket: Ticket) -> Cancel
        requires own { station_gate station.old ≡ K.level.gate }
        requires is_request { IsTicket K.level.gate.shape ticket.number }
        ensures same { SameStation station.old station.new }
        ensures answer { TriesToCancel station.old.station ticket.number result station.new.station }
        ensures after { AfterTryCancel station.old.station ticket.number result station.new.station }
    {
        self.gate.cancel(station, ticket)
    }

    /// As `cancel`. Where the request is cancelled and holds its slot its strike is owed, since it may stand in a queue.
    pub fn cancel_owing(
        &self,
        station: &mut Station,
        ticket: Ticket,
    ) -> (Cancel, Option<OwedStrike<K>>)
        requires own { station_gate station.old ≡ K.level.gate }
        requires is_request { IsTicket K.level.gate.shape ticket.number }
        ensures same { SameStation station.old station.new }
        ensures answer { TriesToCancel station.old.station ticket.number result.0 station.new.station }
        ensures after { AfterTryCancel station.old.station ticket.number result.0 station.new.station }
        ensures owes { result.1 ≡ strike_owed result.0 ticket.number }
    {
        let answer = self.cancel(station, ticket);
        let owed = match answer {
            Cancel::Is(Decision::Cancelled) => Some(OwedStrike::of(ticket)),
            Cancel::Is(
                Decision::Execute
                | Decision::QueueFull
                | Decision::Closed
                | Decision::ConcurrencyLimit,
            )
            | Cancel::Other => None,
        };
        (answer, owed)
    }

    /// Reads a request's decision, by one load of the word of its slot, if it holds that still. `Other` says that
    /// another one does, so that this request is over.
    pub fn read(&self, station: &mut Station, ticket: Ticket) -> Read
        requires own { station_gate station.old ≡ K.level.gate }
        requires is_request { IsTicket K.level.gate.shape ticket.number }
        ensures same { SameStation station.old station.new }
        ensures answer { TriesToRead station.old.station ticket.number result station.new.station }
        ensures after { AfterTryRead station.old.station ticket.number result station.new.station }
    {
        self.gate.read(station, ticket)
    }

    /// Closes the level, by one step on the level word. Says whether this close was the first.
    pub fn close(&self, station: &mut Station) -> Close
        requires own { station_gate station.old ≡ K.level.gate }
        ensures same { SameStation station.old station.new }
        ensures answer { ClosesTo station.old.station result station.new.station }
        ensures after { AfterClose station.old.station result station.new.station }
    {
        self.gate.close(station)
    }

    /// Reads the level word, by one load.
    pub fn look(&self, station: &mut Station) -> LevelWord
        requires own { station_gate station.old ≡ K.level.gate }
        ensures same { SameStation station.old station.new }
        ensures answer { StationLoadsLevel station.old.station result station.new.station }
        ensures after { AfterLook station.old.station result station.new.station }
    {
        self.gate.look(station)
    }

    /// Sets the limit, in seats: one load of the level word, and one exchange. Where requests waited then, a
    /// dispatch is owed.
    pub fn try_set_limit(&self, station: &mut Station, limit: u32) -> (TrySetLimit, Owes<K>)
        requires own { station_gate station.old ≡ K.level.gate }
        requires some_limit { 1 ≤ limit }
        requires small_limit { limit ≤ max_limit }
        ensures same { SameStation station.old station.new }
        ensures answer { TriesToSet station.old.station limit result.0 station.new.station }
        ensures owes { result.1 ≡ owed_by_setting result.0 }
    {
        let tried = self.gate.try_set_limit(station, limit);
        let waiting = match tried {
            TrySetLimit::Set(_old, waiting) => waiting,
            TrySetLimit::Raced => false,
        };
        (tried, owes_if(waiting))
    }
}
