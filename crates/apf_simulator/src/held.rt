//! Requests that came, with what became of those that were told.

ghost use Rattle.std.specs.Prelude.{◌≡◌, ◌≢◌, ◌++◌, ◌∷◌, [], List, None, Some, IfOk, IfSome, IfNone, OnOk, length};
ghost use Rattle.std.specs.VecDeque.{deque_len};
ghost use Rattle.apf_times.specs.declared.window.Arrival.{Arrival as ArrivalOf};
ghost use Rattle.apf_traces.specs.declared.request.TraceRequest.{TraceRequest as RequestOf};
ghost use Rattle.apf_stream.specs.declared.ended.Ended.{Ended as EndedOf};
ghost use Rattle.std.specs.List.{filter};
ghost use Rattle.apf_simulator.specs.Hearing.{AreHeld, came_more, GoesToOne};
ghost use Rattle.apf_simulator.specs.Windows.{stays};

use crate::fault::SimulatorFault;
use apf_stream::Ended;
use apf_times::{Arrival, Place};
use apf_traces::TraceRequest;
use std::alloc::Global;
use std::collections::VecDeque;
use std::marker::Model;

/// A request that came, with what became of it, once that is told.
#[derive(Drop)]
pub struct Held {
    pub came: Arrival<TraceRequest>,
    pub ended: Option<Ended>,
}

/// Requests in the order in which they came.
#[derive(Drop)]
pub(crate) struct HeldList {
    held: VecDeque<Held>,
}

/// A stretch of a run: from a time on, up to another one, if there is one, in microseconds. Both belong to it.
#[derive(Clone, Copy, Debug, PartialEq, Eq)]
pub struct TimeWindow {
    pub from: u64,
    pub to: Option<u64>,
}

impl TimeWindow {
    ghost use Rattle.std.specs.Prelude.{ℕ, ◌≡◌, None};
    ghost use Rattle.apf_simulator.specs.Windows.{is_by, is_there, is_whole, stays_by};

    /// The whole run.
    pub fn whole() -> TimeWindow
        ensures { result ≡ record { from = 0; to = None } }
    {
        TimeWindow { from: 0, to: None }
    }

    // Whether it is the whole run.
    pub(crate) fn is_whole(self) -> bool
        ensures { result ≡ is_whole self }
    {
        self.from == 0 && self.to.is_none()
    }

    // Whether the time is no later than its end.
    fn is_by_end(self, time: u64) -> bool
        ensures { result ≡ is_by time self.to }
    {
        match self.to {
            Some(to) => time <= to,
            None => true,
        }
    }

    // Whether a request of which this became was there at some moment of it.
    fn has(self, came: &Arrival<TraceRequest>, ended: &Ended) -> bool
        ensures { result ≡ is_there self came.now ended.now }
    {
        self.is_by_end(came.item.arrives_at) && self.from <= ended.over_at
    }

    // Whether a request is held on: it is not over, or was there at some moment of it.
    fn holds(self, held: &Held) -> bool
        ensures { result ≡ stays_by self held.now.came held.now.ended }
    {
        match &held.ended {
            Some(ended) => self.has(&held.came, ended),
            None => true,
        }
    }
}

impl Model for HeldList {
    ghost use Rattle.std.specs.Prelude.{List};
    ghost use Rattle.apf_simulator.specs.declared.held.Held.{Held as HeldOf};

    ghost Value = { List HeldOf };

    ghost view = { λ l. l.held.items };
}

impl HeldList {
    /// Nobody came.
    pub(crate) fn new(alloc: Global) -> HeldList
        ensures { result ≡ [] }
    {
        HeldList {
            held: VecDeque::new(alloc),
        }
    }

    /// How many they are.
    pub(crate) fn len(&self) -> usize
        ensures { result ≡ length self.now }
    {
        self.held.len()
    }

    // A request came.
    fn hold(&mut self, came: Arrival<TraceRequest>) -> Result<(), SimulatorFault>
        ensures { OnOk result (self.new ≡ self.old ++ record { came = came; ended = None } ∷ []) }
    {
        let held = Held { came, ended: None };
        if self.held.push_back(held).is_err() {
            return Err(SimulatorFault::NoMemory);
        }
        Ok(())
    }

    // This became of the request of its line.
    fn end(&mut self, ended: &Ended) -> Result<(), SimulatorFault>
        ensures { OnOk result (GoesToOne ended.now self.old self.new) }
    {
        let asked = &ended.hold.asked;
        let place = Place {
            arrives_at: asked.times.arrives_at,
            line: asked.line,
        };
        let Ok(number) = self.held.binary_search_by_key(&place, |it| it.came.place) else {
            return Err(SimulatorFault::StillWaits);
        };
        let Some(held) = self.held.get_mut(number) else {
            return Err(SimulatorFault::StillWaits);
        };
        if held.came.place.line != asked.line {
            return Err(SimulatorFault::StillWaits);
        }
        held.ended = Some(*ended);
        Ok(())
    }

    // This became of these.
    fn end_all(&mut self, ends: &[Ended]) -> Result<(), SimulatorFault>
        ensures { OnOk result ((came : List (ArrivalOf RequestOf)) (told : List EndedOf) → AreHeld came told self.old → AreHeld came (told ++ ends.now) self.new) }
    {
        for ended in ends {
            self.end(ended)?;
        }
        Ok(())
    }

    /// A request came, or nobody does any more; and this became of these.
    ///
    /// # Errors
    ///
    /// `NoMemory`, and `StillWaits` if one of these did not come.
    pub(crate) fn take(
        &mut self,
        came: Option<Arrival<TraceRequest>>,
        ends: &[Ended],
    ) -> Result<(), SimulatorFault>
        ensures { OnOk result ((all : List (ArrivalOf RequestOf)) (told : List EndedOf) → AreHeld all told self.old → AreHeld (came_more all came) (told ++ ends.now) self.new) }
    {
        if let Some(came) = came {
            self.hold(came)?;
        }
        self.end_all(ends)?;
        Ok(())
    }

    /// Lets those go that are over and were not there in the window.
    pub(crate) fn keep(&mut self, window: TimeWindow)
        ensures { self.new ≡ filter (stays window) self.old }
    {
        self.held.retain(|it| window.holds(it));
    }

    /// All of them, in the order in which they came.
    pub(crate) fn into_vec(self) -> Vec<Held>
        ensures { result.items ≡ self }
    {
        self.held.into_vec()
    }

    /// The first of them, with what became of it, if that was told.
    pub(crate) fn pop(&mut self) -> Option<(Arrival<TraceRequest>, Ended)>
        ensures some { IfSome result (λ r. self.old ≡ record { came = r.0; ended = Some r.1 } ∷ self.new) }
        ensures none { IfNone result (self.new ≡ self.old) }
    {
        let ended = self.held.front()?.ended?;
        let held = self.held.pop_front()?;
        Some((held.came, ended))
    }
}
