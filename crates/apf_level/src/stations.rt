//! The calls of a Station, outside the lock.

ghost use Rattle.std.specs.Prelude.{◌≡◌, ◌<◌, ◌≤◌, length};
ghost use Rattle.apf_words.specs.Limits.{max_limit};
ghost use Rattle.apf_gate.specs.StationSteps.{StationLoadsLevel};
ghost use Rattle.apf_gate.specs.StationCalls.{CancelsTo, ClosesTo, TriesToSet};
ghost use Rattle.apf_gate.specs.StationResults.{SameStation, AfterLook, AfterCancel, AfterClose};
ghost use Rattle.apf_gate.specs.Tokens.{station_gate};
ghost use Rattle.apf_level.specs.Owing.{owed_by_setting, strike_owed};

use crate::level::Level;
use crate::naming::Naming;
use crate::owing::{OwedStrike, Owes, owes_if};
use apf_gate::{Cancel, Close, Station, Ticket, TrySetLimit};
use apf_words::{Decision, LevelWord};

impl<K: Naming> Level<K> {
    /// Cancels a request, if it is undecided, and wakes whoever sleeps until it is decided. Answers its
    /// decision. It makes one exchange of the request's decision word.
    pub fn cancel(&self, station: &mut Station, request: u32) -> Decision
        requires own { station_gate station.old ≡ K.level.gate }
        requires is_request { request < length K.level.gate.shape.widths }
        ensures same { SameStation station.old station.new }
        ensures answer { CancelsTo station.old.station request result station.new.station }
        ensures after { AfterCancel station.old.station request result station.new.station }
    {
        match self.gate.cancel(station, Ticket::of(request)) {
            Cancel::Is(decision) => decision,
            // in a batch a request keeps its slot
            Cancel::Other => unreachable!(),
        }
    }

    /// As `cancel`. Where the request is cancelled its strike is owed, since it may stand in a queue.
    pub fn cancel_owing(
        &self,
        station: &mut Station,
        request: u32,
    ) -> (Decision, Option<OwedStrike<K>>)
        requires own { station_gate station.old ≡ K.level.gate }
        requires is_request { request < length K.level.gate.shape.widths }
        ensures same { SameStation station.old station.new }
        ensures answer { CancelsTo station.old.station request result.0 station.new.station }
        ensures after { AfterCancel station.old.station request result.0 station.new.station }
        ensures owes { result.1 ≡ strike_owed result.0 request }
    {
        let decision = self.cancel(station, request);
        let owed = match decision {
            Decision::Cancelled => Some(OwedStrike::of(request)),
            Decision::Execute
            | Decision::QueueFull
            | Decision::Closed
            | Decision::ConcurrencyLimit => None,
        };
        (decision, owed)
    }

    /// Closes the level, by one step on the level word. Says whether this close was the first.
    pub fn close(&self, station: &mut Station) -> Close
        requires own { station_gate station.old ≡ K.level.gate }
        ensures same { SameStation station.old station.new }
        ensures answer { ClosesTo station.old.station result station.new.station }
        ensures after { AfterClose station.old.station result station.new.station }
    {
        self.gate.close(station)
    }

    /// Reads the level word, by one load.
    pub fn look(&self, station: &mut Station) -> LevelWord
        requires own { station_gate station.old ≡ K.level.gate }
        ensures same { SameStation station.old station.new }
        ensures answer { StationLoadsLevel station.old.station result station.new.station }
        ensures after { AfterLook station.old.station result station.new.station }
    {
        self.gate.look(station)
    }

    /// Sets the limit, in seats: one load of the level word, and one exchange. Where requests waited then,
    /// the caller owes a dispatch.
    pub fn try_set_limit(&self, station: &mut Station, limit: u32) -> TrySetLimit
        requires own { station_gate station.old ≡ K.level.gate }
        requires some_limit { 1 ≤ limit }
        requires small_limit { limit ≤ max_limit }
        ensures same { SameStation station.old station.new }
        ensures answer { TriesToSet station.old.station limit result station.new.station }
    {
        self.gate.try_set_limit(station, limit)
    }

    /// As `try_set_limit`, but where requests waited the dispatch is owed by a value that must be spent.
    pub fn try_set_limit_owing(&self, station: &mut Station, limit: u32) -> (TrySetLimit, Owes<K>)
        requires own { station_gate station.old ≡ K.level.gate }
        requires some_limit { 1 ≤ limit }
        requires small_limit { limit ≤ max_limit }
        ensures same { SameStation station.old station.new }
        ensures answer { TriesToSet station.old.station limit result.0 station.new.station }
        ensures owes { result.1 ≡ owed_by_setting result.0 }
    {
        let tried = self.try_set_limit(station, limit);
        let waiting = match tried {
            TrySetLimit::Set(_old, waiting) => waiting,
            TrySetLimit::Raced => false,
        };
        (tried, owes_if(waiting))
    }
}
