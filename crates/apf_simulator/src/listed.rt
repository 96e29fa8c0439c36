//! The requests of a trace that were there in a stretch of the run, each with what became of it, in the order of their lines.

ghost use Rattle.std.specs.Prelude.{◌≡◌, ◌≤◌, ◌++◌, ◌∷◌, ℕ, [], List, length, Option, IfOk, OnOk, IsPermutation};
ghost use Rattle.std.specs.List.Sorted.{IsSortedBy};
ghost use Rattle.apf_simulator.specs.Hearing.{AreListed, AreParts, Holds, line_before};
ghost use Rattle.apf_simulator.specs.Turns.{Turn, came_by, told_by};

use crate::fault::SimulatorFault;
use crate::held::{Held, HeldList, TimeWindow};
use crate::lane::Lane;
use crate::listener::Listener;
use apf_stream::Ended;
use apf_times::Arrival;
use apf_traces::TraceRequest;
use std::alloc::{AllocError, Global};
use std::io::Write;

/// How many requests may be listed: as many as a script may have.
pub const MOST_LISTED: u32 = 10_000;

/// The requests of a trace that were there in a stretch of the run, each with what became of it, in the order of their lines.
#[derive(Drop)]
pub struct Listed {
    pub requests: Vec<TraceRequest>,
    pub ends: Vec<Ended>,
    /// When the last of all requests was over, in microseconds.
    pub end: u64,
}

/// Lists the requests that come. Who is over and was not there in the window is let go once twice as many are held as may be
/// listed: before the window begins, half of these are over. Of a whole run nobody is let go.
#[derive(Drop)]
pub(crate) struct Listing {
    held: HeldList,
    window: TimeWindow,
    // how many may be held
    most: usize,
}

// Puts a request behind those before it, and what became of it.
fn push(
    requests: &mut Vec<TraceRequest>,
    ends: &mut Vec<Ended>,
    request: TraceRequest,
    ended: Ended,
) -> Result<(), AllocError>
    ensures requests { OnOk result (requests.new.items ≡ requests.old.items ++ request ∷ []) }
    ensures ends { OnOk result (ends.new.items ≡ ends.old.items ++ ended ∷ []) }
{
    requests.push(request)?;
    ends.push(ended)?;
    Ok(())
}

// The requests with what became of each, if that was told of each.
fn parts_of(
    alloc: Global,
    held: Vec<Held>,
) -> Result<(Vec<TraceRequest>, Vec<Ended>), SimulatorFault>
    ensures { IfOk result (λ r. AreParts held.items r.0.items r.1.items) }
{
    let mut requests = Vec::with_capacity(alloc, held.len())?;
    let mut ends = Vec::with_capacity(alloc, held.len())?;
    for it in held {
        let Held { came, ended } = it;
        let Some(ended) = ended else {
            return Err(SimulatorFault::StillWaits);
        };
        push(&mut requests, &mut ends, came.item, ended)?;
    }
    Ok((requests, ends))
}

// Puts them into the order of their lines.
fn put_in_order(held: &mut Vec<Held>)
    ensures same { IsPermutation held.old.items held.new.items }
    ensures in_order { IsSortedBy line_before held.new.items }
{
    held.sort_unstable_by_key(|it| it.came.place.line);
}

impl Listing {
    /// Nobody came.
    pub(crate) fn new(alloc: Global, window: TimeWindow) -> Listing
        ensures nobody { result.held ≡ [] }
        ensures window { result.window ≡ window }
    {
        let most = MOST_LISTED as usize;
        Listing {
            held: HeldList::new(alloc),
            window,
            most: if window.is_whole() { most } else { 2 * most },
        }
    }

    // No more are held than may be.
    fn make_room(&mut self) -> Result<(), SimulatorFault>
        ensures held { OnOk result ((before now : Option (List ℕ)) (turns : List Turn) → Holds self.old.window before now turns self.old.held → Holds self.old.window before now turns self.new.held) }
        ensures window { self.new.window ≡ self.old.window }
    {
        if self.held.len() <= self.most {
            return Ok(());
        }
        self.held.keep(self.window);
        if self.held.len() > self.most {
            return Err(SimulatorFault::TooManyListed);
        }
        Ok(())
    }

    /// All that were there in the window, which is the list's own, where the last of all was over then.
    ///
    /// # Errors
    ///
    /// `NoMemory`; `StillWaits` if somebody was not over; and `TooManyListed`.
    pub(crate) fn close(
        self,
        alloc: Global,
        window: TimeWindow,
        end: u64,
    ) -> Result<Listed, SimulatorFault>
        ensures listed { IfOk result (λ l. (before now : Option (List ℕ)) (turns : List Turn) → Holds self.window before now turns self.held → AreListed window (came_by turns) (told_by turns) l) }
        ensures few { IfOk result (λ l. length l.requests.items ≤ 10000) }
        ensures each { IfOk result (λ l. length l.ends.items ≡ length l.requests.items) }
        ensures end { IfOk result (λ l. l.end ≡ end) }
    {
        if self.window != window {
            // never, since a list's window stays
            return Err(SimulatorFault::StillWaits);
        }
        let mut list = self.held;
        list.keep(window);
        let mut held = list.into_vec();
        if held.len() > MOST_LISTED as usize {
            return Err(SimulatorFault::TooManyListed);
        }
        put_in_order(&mut held);
        let (requests, ends) = parts_of(alloc, held)?;
        Ok(Listed {
            requests,
            ends,
            end,
        })
    }
}

impl Listener for Listing {
    ghost heard = { λ before now turns listing. Holds listing.window before now turns listing.held };

    fn hear<W: Write>(
        &mut self,
        came: Option<Arrival<TraceRequest>>,
        lane: &Lane,
        _out: &mut W,
    ) -> Result<(), SimulatorFault> {
        self.make_room()?;
        self.held.take(came, lane.ends())?;
        Ok(())
    }
}
