//! The first request of each flow of a trace, which is read in pieces.

ghost use Rattle.std.specs.Prelude.{◌≡◌, ◌++◌, ◌∷◌, [], List, IfOk, OnOk, map, nat_lt, nat_eq, if◌then◌else◌, false};
ghost use Rattle.std.specs.List.{list_any, IsDistinct};
ghost use Rattle.std.specs.List.Sorted.{IsPermutation, IsSortedBy};
ghost use Rattle.apf_times.specs.declared.window.Arrival.{Arrival as ArrivalOf};
ghost use Rattle.apf_traces.specs.declared.request.TraceRequest.{TraceRequest as RequestOf};
ghost use Rattle.apf_trace_reader.specs.Reading.{HasRead};
ghost use Rattle.apf_hands.specs.Firsts.{AreFirst, HasFirsts, HaveCome, HaveDistinctFlows, comes_first, hash_of};

use apf_times::Arrival;
use apf_trace_reader::{ReadFault, TraceReader};
use apf_traces::{TraceFault, TraceRequest};
use indexmap::IndexSet;
use std::alloc::{AllocError, Global};
use std::io;
use std::io::{ErrorKind, Read};
use std::marker::Model;

/// The first requests of the flows that came so far: of requests of one hash that of the lowest line.
#[derive(Drop)]
struct Meeting {
    flows: IndexSet<u64>,
    firsts: Vec<Arrival<TraceRequest>>,
}

impl Model for Meeting {
    ghost use Rattle.apf_hands.specs.Firsts.{IsMeeting, MeetingView};

    ghost Value = { MeetingView };

    ghost view = { λ m. record { flows = m.flows.keys; firsts = m.firsts.items } };

    ghost invariant = { λ m. IsMeeting m.flows.keys m.firsts.items };
}

/// The first requests of the flows of a trace, in the order of their lines. Requests of one hash are one flow.
#[derive(Drop)]
pub struct Firsts {
    requests: Vec<Arrival<TraceRequest>>,
}

impl Model for Firsts {
    ghost use Rattle.apf_hands.specs.Firsts.{FirstRequests, HaveDistinctFlows};

    ghost Value = { FirstRequests };

    ghost view = { λ f. f.requests.items };

    ghost invariant = { λ f. HaveDistinctFlows f.requests.items };
}

impl Firsts {
    /// The requests, in the order of their lines.
    pub fn as_slice(&self) -> &[Arrival<TraceRequest>]
        ensures same { result.now ≡ self.now }
        ensures distinct { HaveDistinctFlows self.now }
    {
        self.requests.as_slice()
    }
}

// A request came of the same flow: if its line is lower than that of the first one, it is the first one now.
fn lower(first: &mut Arrival<TraceRequest>, came: Arrival<TraceRequest>)
    ensures { first.new ≡ (if nat_lt came.place.line first.old.place.line then came else first.old) }
{
    if came.place.line < first.place.line {
        *first = came;
    }
}

impl Meeting {
    // Nobody came. No memory is taken.
    fn new(alloc: Global) -> Meeting
        ensures { result.firsts ≡ [] }
    {
        Meeting {
            flows: IndexSet::new(alloc),
            firsts: Vec::new(alloc),
        }
    }

    // The first request of a flow came.
    fn begin(&mut self, came: Arrival<TraceRequest>) -> Result<(), AllocError>
        requires { list_any (nat_eq came.item.hash) self.old.flows ≡ false }
        ensures { OnOk result (self.new.firsts ≡ self.old.firsts ++ came ∷ []) }
    {
        self.firsts.reserve(1)?;
        self.flows.insert(came.item.hash)?;
        self.firsts.push(came)?;
        Ok(())
    }

    // A request came.
    fn meet(&mut self, came: Arrival<TraceRequest>) -> Result<(), AllocError>
        ensures { OnOk result ((before : List (ArrivalOf RequestOf)) → AreFirst before self.old.firsts → AreFirst (before ++ came ∷ []) self.new.firsts) }
    {
        match self.flows.get_index_of(&came.item.hash) {
            Some(place) => {
                lower(&mut self.firsts[place], came);
                Ok(())
            }
            None => {
                self.begin(came)?;
                Ok(())
            }
        }
    }

    // All that came.
    fn into_firsts(self) -> Vec<Arrival<TraceRequest>>
        ensures firsts { result.items ≡ self.firsts }
        ensures distinct { IsDistinct nat_eq (map hash_of self.firsts) }
    {
        let Meeting { flows: _, firsts } = self;
        firsts
    }
}

// A request of the trace came.
fn take(meeting: &mut Meeting, came: Arrival<TraceRequest>) -> Result<(), ReadFault>
    ensures { OnOk result ((before : List (ArrivalOf RequestOf)) → AreFirst before meeting.old.firsts → AreFirst (before ++ came ∷ []) meeting.new.firsts) }
{
    match meeting.meet(came) {
        Ok(()) => Ok(()),
        Err(_) => Err(ReadFault::Trace(TraceFault::NoMemory)),
    }
}

// Each request of the trace comes.
fn meet_all<R: Read>(
    alloc: Global,
    reader: &mut TraceReader,
    input: &mut R,
) -> Result<Meeting, ReadFault>
    ensures { IfOk result (λ m. HasRead [] [] (R.remaining input.old) reader.old
        → HaveCome reader.old.window.size (R.remaining input.old) (R.remaining input.new) m.firsts) }
{
    let mut meeting = Meeting::new(alloc);
    'requests: for _ in 0..u64::MAX {
        let next = reader.next(input)?;
        match next {
            Some(came) => take(&mut meeting, came)?,
            None => return Ok(meeting),
        }
    }
    Err(ReadFault::CannotRead(io::Error::from(ErrorKind::Other)))
}

// Puts the requests into the order of their lines.
fn put_in_order(firsts: &mut Vec<Arrival<TraceRequest>>)
    ensures same { IsPermutation firsts.old.items firsts.new.items }
    ensures in_order { IsSortedBy comes_first firsts.new.items }
{
    firsts.sort_unstable_by_key(|first| first.place.line);
}

/// The first request of each flow of a trace. The reader has read nothing, and reads the trace to its end. Memory is taken for
/// the flows alone.
///
/// # Errors
///
/// The reader's, and `Trace` with `NoMemory` if memory was refused.
pub fn read_firsts<R: Read>(
    alloc: Global,
    reader: &mut TraceReader,
    input: &mut R,
) -> Result<Firsts, ReadFault>
    ensures { IfOk result (λ firsts. HasRead [] [] (R.remaining input.old) reader.old
        → HasFirsts reader.old.window.size (R.remaining input.old) (R.remaining input.new) firsts) }
{
    let mut requests = meet_all(alloc, reader, input)?.into_firsts();
    put_in_order(&mut requests);
    Ok(Firsts { requests })
}
