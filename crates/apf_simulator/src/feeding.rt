//! Runs each request of a trace on the lanes.

ghost use Rattle.std.specs.Prelude.{◌≡◌, ◌++◌, ◌∷◌, [], ℕ, List, None, Some, Option, IfOk, OnOk};
ghost use Rattle.apf_stream.specs.declared.ended.Ended.{Ended as EndedOf};
ghost use Rattle.apf_traces.specs.TraceValue.{IsRequestInRange};
ghost use Rattle.apf_trace_reader.specs.Reading.{HasRead};
ghost use Rattle.apf_simulator.specs.Feeds.{AreInTime, AreLivedBoth, GoOn, HasFed, HaveGone, IsAhead, IsHandedOut};
ghost use Rattle.apf_simulator.specs.Turns.{Begins, Turn};

use crate::fault::SimulatorFault;
use crate::lanes::Lanes;
use crate::listener::Listener;
use apf_times::Arrival;
use apf_trace_reader::TraceReader;
use apf_traces::TraceRequest;
use std::io::{Read, Write};

/// The request that comes next.
pub(crate) type Next = Option<Arrival<TraceRequest>>;

/// The first request of a trace of which nothing was handed out, if there is one.
///
/// # Errors
///
/// The reader's.
pub(crate) fn read_first<R: Read>(
    reader: &mut TraceReader,
    input: &mut R,
) -> Result<Next, SimulatorFault>
    requires { reader.old.window.last ≡ None }
    ensures first { IfOk result (λ next. IsHandedOut next reader.new.window.last) }
    ensures read { IfOk result (λ next. HasRead [] [] (R.remaining input.old) reader.old → HasFed (R.remaining input.old) (R.remaining input.new) [] next reader.new) }
    ensures size { reader.new.window.size ≡ reader.old.window.size }
{
    Ok(reader.next(input)?)
}

// The request arrives on each lane, and is heard of.
fn arrive<L: Listener, W: Write>(
    lanes: &mut Lanes,
    listener: &mut L,
    came: Arrival<TraceRequest>,
    out: &mut W,
) -> Result<(), SimulatorFault>
    requires range { IsRequestInRange came.item }
    requires forward { AreInTime came.item.arrives_at lanes.old.one lanes.old.other }
    requires lived { AreLivedBoth lanes.old.one lanes.old.other }
    ensures goes { OnOk result (GoOn (came ∷ []) lanes.old.one lanes.old.other lanes.new.one lanes.new.other) }
    ensures time { OnOk result (AreInTime came.item.arrives_at lanes.new.one lanes.new.other) }
    ensures heard { OnOk result ((before : Option (List ℕ)) (turns : List Turn) → L.heard before (W.contents out.old) turns listener.old
        → L.heard before (W.contents out.new) (turns ++ record { came = Some came; ends = lanes.new.one.ends } ∷ []) listener.new) }
{
    lanes.arrive(&came)?;
    listener.hear(Some(came), &lanes.one, out)
}

// The request arrives on each lane, and is heard of. Answers the one that comes behind it.
fn turn<R: Read, L: Listener, W: Write>(
    lanes: &mut Lanes,
    listener: &mut L,
    came: Arrival<TraceRequest>,
    reader: &mut TraceReader,
    input: &mut R,
    out: &mut W,
) -> Result<Next, SimulatorFault>
    requires handed_out { IsHandedOut (Some came) reader.old.window.last }
    requires ahead { IsAhead (Some came) lanes.old.one lanes.old.other }
    requires lived { AreLivedBoth lanes.old.one lanes.old.other }
    ensures handed_out { IfOk result (λ next. IsHandedOut next reader.new.window.last) }
    ensures ahead { IfOk result (λ next. IsAhead next lanes.new.one lanes.new.other) }
    ensures lived { OnOk result (AreLivedBoth lanes.new.one lanes.new.other) }
    ensures goes { OnOk result (GoOn (came ∷ []) lanes.old.one lanes.old.other lanes.new.one lanes.new.other) }
    ensures heard { OnOk result ((before : Option (List ℕ)) (turns : List Turn) → L.heard before (W.contents out.old) turns listener.old
        → L.heard before (W.contents out.new) (turns ++ record { came = Some came; ends = lanes.new.one.ends } ∷ []) listener.new) }
    ensures fed { IfOk result (λ next. (was : Option (List ℕ)) (turns : List Turn) (ends : List EndedOf) → HasFed was (R.remaining input.old) turns (Some came) reader.old
        → HasFed was (R.remaining input.new) (turns ++ record { came = Some came; ends = ends } ∷ []) next reader.new) }
    ensures size { reader.new.window.size ≡ reader.old.window.size }
{
    arrive(lanes, listener, came, out)?;
    Ok(reader.next(input)?)
}

/// The first request of the trace arrives on each lane, and each behind it.
///
/// # Errors
///
/// The reader's, those of a lane's `arrive`, and those of the listener.
pub(crate) fn feed_all<R: Read, L: Listener, W: Write>(
    lanes: &mut Lanes,
    listener: &mut L,
    first: Next,
    reader: &mut TraceReader,
    input: &mut R,
    out: &mut W,
) -> Result<(), SimulatorFault>
    requires handed_out { IsHandedOut first reader.old.window.last }
    requires ahead { IsAhead first lanes.old.one lanes.old.other }
    requires lived { AreLivedBoth lanes.old.one lanes.old.other }
    ensures lived { OnOk result (AreLivedBoth lanes.new.one lanes.new.other) }
    ensures gone { OnOk result ((was before : Option (List ℕ)) → HasFed was (R.remaining input.old) [] first reader.old → L.heard before (W.contents out.old) [] listener.old
        → HaveGone was (R.remaining input.new) None reader.new lanes.old.one lanes.old.other lanes.new.one lanes.new.other (λ turns. L.heard before (W.contents out.new) turns listener.new × Begins first turns None)) }
    ensures size { reader.new.window.size ≡ reader.old.window.size }
{
    let mut next = first;
    'requests: for _ in 0..u64::MAX {
        match next {
            Some(came) => {
                next = turn(lanes, listener, came, reader, input, out)?;
            }
            None => return Ok(()),
        }
    }
    Err(SimulatorFault::TooMany)
}
