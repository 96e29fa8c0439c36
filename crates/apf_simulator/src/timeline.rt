//! The script of the calls of a simulation.

ghost use Rattle.std.specs.Prelude.{◌≡◌, ◌++◌, [], ◌∷◌, OnOk, Option};
ghost use Rattle.std.specs.List.{flat_map};
ghost use Rattle.std.specs.Option.{option_to_list};
ghost use Rattle.std.specs.Io.KnownBytes.{Appends, Keeps};
ghost use Rattle.apf_simulator.specs.Calls.{arrival_call, call_by, call_text, calls_by, end_call, script_text};

use crate::fault::SimulatorFault;
use crate::lane::Lane;
use crate::listed::MOST_LISTED;
use crate::listener::Listener;
use apf_stream::Ended;
use apf_times::Arrival;
use apf_traces::TraceRequest;
use apf_words::Decision;
use std::alloc::{AllocError, Global};
use std::io;
use std::io::Write;

/// One call, with the number of its request.
#[derive(Clone, Copy, Debug, PartialEq, Eq)]
pub enum Call {
    Arrive(u64),
    Finish(u64),
    Cancel(u64),
}

/// The calls of a run, in the order in which they were made.
#[derive(Drop)]
pub(crate) struct Timeline {
    calls: Vec<Call>,
    came: u32,
}

// The call by which a request was over, if it was by one: one that was rejected was so by its arrival.
fn call_of(ended: &Ended) -> Option<Call>
    ensures { option_to_list result ≡ end_call ended.now }
{
    let number = ended.hold.asked.line.saturating_sub(1);
    if ended.since.is_some() {
        return Some(Call::Finish(number));
    }
    match ended.decision {
        Decision::Cancelled => Some(Call::Cancel(number)),
        _ => None,
    }
}

// Writes the line of a call.
fn write_call<W: Write>(out: &mut W, call: Call) -> io::Result<()>
    ensures { OnOk result (Appends (W.contents out.old) (W.contents out.new) (call_text call)) }
{
    match call {
        Call::Arrive(number) => writeln!(out, "arrive {number}"),
        Call::Finish(number) => writeln!(out, "finish {number}"),
        Call::Cancel(number) => writeln!(out, "cancel {number}"),
    }
}

impl Timeline {
    /// Nothing was called.
    pub(crate) fn new(alloc: Global) -> Timeline
        ensures { result.calls.items ≡ [] }
    {
        Timeline {
            calls: Vec::new(alloc),
            came: 0,
        }
    }

    // This was called.
    fn call(&mut self, call: Call) -> Result<(), SimulatorFault>
        ensures { OnOk result (self.new.calls.items ≡ self.old.calls.items ++ call ∷ []) }
    {
        match self.calls.push(call) {
            Ok(()) => Ok(()),
            Err(refused) => Err(AllocError::from(refused).into()),
        }
    }

    // One more came, if there may be more.
    fn arrive(&mut self, came: &Arrival<TraceRequest>) -> Result<(), SimulatorFault>
        ensures { OnOk result (self.new.calls.items ≡ self.old.calls.items ++ arrival_call (Some came.now)) }
    {
        if self.came >= MOST_LISTED {
            return Err(SimulatorFault::TooManyListed);
        }
        self.came += 1;
        self.call(Call::Arrive(came.place.line.saturating_sub(1)))
    }

    // These were over.
    fn end_all(&mut self, ends: &[Ended]) -> Result<(), SimulatorFault>
        ensures { OnOk result (self.new.calls.items ≡ self.old.calls.items ++ flat_map end_call ends.now) }
    {
        for ended in ends {
            if let Some(call) = call_of(ended) {
                self.call(call)?;
            }
        }
        Ok(())
    }

    /// Writes the script of the calls.
    ///
    /// # Errors
    ///
    /// `CannotWrite`. Then nothing is known of how much was written.
    pub(crate) fn write<W: Write>(&self, out: &mut W) -> Result<(), SimulatorFault>
        ensures { OnOk result (Appends (W.contents out.old) (W.contents out.new) (script_text self.now.calls.items)) }
    {
        for call in &self.calls {
            if write_call(out, *call).is_err() {
                return Err(SimulatorFault::CannotWrite);
            }
        }
        Ok(())
    }
}

impl Listener for Timeline {
    ghost heard = { λ before now turns timeline. Keeps before now × (timeline.calls.items ≡ calls_by turns) };

    fn hear<W: Write>(
        &mut self,
        came: Option<Arrival<TraceRequest>>,
        lane: &Lane,
        _out: &mut W,
    ) -> Result<(), SimulatorFault> {
        self.end_all(lane.ends())?;
        match came {
            Some(came) => self.arrive(&came),
            None => Ok(()),
        }
    }
}
