//! Runs a trace on a level, and lets one listen.

ghost use Rattle.std.specs.Prelude.{◌≡◌, ◌≤◌, ℕ, List, [], length, Option, None, IfOk, OnOk, unwrap_or};
ghost use Rattle.std.specs.Io.KnownBytes.{Keeps};
ghost use Rattle.apf_times.specs.Limits.{max_patience};
ghost use Rattle.apf_trace_reader.specs.Reading.{HasRead};
ghost use Rattle.apf_simulator.specs.Feeds.{AreLivedBoth, AreNew, AreOver, HasFed, HaveGone, IsHandedOut, IsOver};
ghost use Rattle.apf_trace_reader.specs.Views.{all_lines};
ghost use Rattle.apf_simulator.specs.Lanes.{IsLane, IsOpening, most_slots, slots_for, usual_charge};
ghost use Rattle.apf_simulator.specs.Runs.{HasBeenHeard, HasBeenHeardTo, HasSlots, IsCharge};
ghost use Rattle.apf_simulator.specs.Told.{HasListed, HasToldCalls, HasToldFates};
ghost use Rattle.apf_simulator.specs.Turns.{Begins};

use crate::charge::charge_or_usual;
use crate::fault::SimulatorFault;
use crate::feeding::{Next, feed_all, read_first};
use crate::held::TimeWindow;
use crate::lane::{Lane, MOST_SLOTS};
use crate::lanes::Lanes;
use crate::listed::{Listed, Listing};
use crate::listener::Listener;
use crate::progress::{Progress, WithProgress};
use crate::telling::Telling;
use crate::timeline::Timeline;
use apf_charges::ChargedBy;
use apf_model::Config;
use apf_trace_reader::{TraceReader, WINDOW};
use std::alloc::Global;
use std::io::{Read, Write};

/// How the requests of a trace wait, and what they are charged.
#[derive(Clone, Copy)]
pub struct Terms {
    /// How long a request waits before it gives up, in microseconds, or 0 if it does not: at most 1,000,000,000.
    pub patience: u64,
    /// What a dispatch is charged. Where nothing is said, that is time, but seats if a line that was read before the first
    /// request came says what its request is charged.
    pub by: Option<ChargedBy>,
    /// Whether both sides of the bound in measured seat-time are kept.
    pub has_bound: bool,
}

/// Runs the trace on the lanes, to which nobody came, and then all that is due.
///
/// # Errors
///
/// The reader's, those of the lanes, and those of the listener.
pub(crate) fn run<R: Read, L: Listener, W: Write>(
    lanes: &mut Lanes,
    listener: &mut L,
    first: Next,
    reader: &mut TraceReader,
    input: &mut R,
    out: &mut W,
) -> Result<(), SimulatorFault>
    requires new { AreNew lanes.old.one lanes.old.other }
    requires lived { AreLivedBoth lanes.old.one lanes.old.other }
    requires handed_out { IsHandedOut first reader.old.window.last }
    ensures over { OnOk result (AreOver lanes.new.one lanes.new.other) }
    ensures gone { OnOk result ((was before : Option (List ℕ)) → HasFed was (R.remaining input.old) [] first reader.old → L.heard before (W.contents out.old) [] listener.old
        → HaveGone was (R.remaining input.new) None reader.new lanes.old.one lanes.old.other lanes.new.one lanes.new.other (λ turns. L.heard before (W.contents out.new) turns listener.new × Begins first turns None)) }
    ensures size { reader.new.window.size ≡ reader.old.window.size }
{
    feed_all(lanes, listener, first, reader, input, out)?;
    lanes.finish()?;
    listener.hear(None, &lanes.one, out)?;
    Ok(())
}

// Runs the trace on a level to which nobody came, and lets one listen.
fn run_lane<R: Read, L: Listener, W: Write>(
    lane: Lane,
    listener: &mut L,
    first: Next,
    reader: &mut TraceReader,
    input: &mut R,
    out: &mut W,
) -> Result<Lane, SimulatorFault>
    requires new { AreNew lane None }
    requires lived { AreLivedBoth lane None }
    requires handed_out { IsHandedOut first reader.old.window.last }
    ensures over { IfOk result IsOver }
    ensures gone { IfOk result (λ end. (was before : Option (List ℕ)) → HasFed was (R.remaining input.old) [] first reader.old → L.heard before (W.contents out.old) [] listener.old
        → HaveGone was (R.remaining input.new) None reader.new lane None end None (λ turns. L.heard before (W.contents out.new) turns listener.new × Begins first turns None)) }
    ensures size { reader.new.window.size ≡ reader.old.window.size }
{
    let mut lanes = Lanes {
        one: lane,
        other: None,
    };
    run(&mut lanes, listener, first, reader, input, out)?;
    Ok(lanes.into_one())
}

/// How a level is opened for a trace of which the first request was handed out.
#[derive(Clone, Copy)]
pub(crate) struct Opening {
    /// How many requests may be there at once.
    pub(crate) slots: u32,
    /// What requests are charged.
    pub(crate) by: ChargedBy,
}

/// How a level is opened for a trace of which this reader handed out the first request. It has no more slots than requests come,
/// if the whole input was read by then: each slot takes memory and time.
pub(crate) fn opening_for(terms: Terms, reader: &TraceReader) -> Opening
    ensures slots { result.slots ≡ slots_for (all_lines reader.now.stage reader.now.number) }
    ensures some { 1 ≤ result.slots }
    ensures few { result.slots ≤ most_slots }
    ensures charge { result.by ≡ unwrap_or terms.by (usual_charge reader.now.has_cost) }
{
    let slots = match reader.lines_in_all() {
        Some(requests) => requests.min(u64::from(MOST_SLOTS)).max(1) as u32,
        None => MOST_SLOTS,
    };
    Opening {
        slots,
        by: charge_or_usual(terms.by, reader),
    }
}

// The level, to which nobody came, the first request of the trace, and how the level was opened.
fn open_for<R: Read>(
    alloc: Global,
    config: &Config,
    terms: Terms,
    reader: &mut TraceReader,
    input: &mut R,
) -> Result<(Lane, Next, Opening), SimulatorFault>
    requires patience { terms.patience ≤ max_patience }
    requires nothing { reader.old.window.last ≡ None }
    ensures new { IfOk result (λ o. AreNew o.0 None) }
    ensures nobody { IfOk result (λ o. IsLane o.0.state [] [] o.0) }
    ensures opened { IfOk result (λ o. IsOpening config.now o.2.slots terms.patience o.2.by o.0.state) }
    ensures handed_out { IfOk result (λ o. IsHandedOut o.1 reader.new.window.last) }
    ensures fed { IfOk result (λ o. HasRead [] [] (R.remaining input.old) reader.old → HasFed (R.remaining input.old) (R.remaining input.new) [] o.1 reader.new) }
    ensures charge { IfOk result (λ o. HasRead [] [] (R.remaining input.old) reader.old → IsCharge terms.by (R.remaining input.old) o.1 o.2.by) }
    ensures slots { IfOk result (λ o. HasRead [] [] (R.remaining input.old) reader.old → HasSlots (R.remaining input.old) o.1 o.2.slots) }
    ensures size { reader.new.window.size ≡ reader.old.window.size }
{
    let first = read_first(reader, input)?;
    let opening = opening_for(terms, reader);
    let lane = Lane::open(alloc, config, opening.slots, terms.patience, opening.by)?;
    Ok((lane, first, opening))
}

/// Runs the trace on the level of this config, and lets one listen. With both sides of the bound, if it is asked for.
///
/// # Errors
///
/// The trace's first fault, or that of the input; the level's; and those of what runs on it, and of the listener. `BoundOfSeats`
/// if both sides are asked for where requests are charged their seats.
pub(crate) fn run_one<R: Read, L: Listener, W: Write>(
    alloc: Global,
    config: &Config,
    terms: Terms,
    listener: &mut L,
    reader: &mut TraceReader,
    input: &mut R,
    out: &mut W,
) -> Result<Lane, SimulatorFault>
    requires patience { terms.patience ≤ max_patience }
    requires nothing { reader.old.window.last ≡ None }
    ensures { IfOk result (λ lane. (before : Option (List ℕ)) → HasRead [] [] (R.remaining input.old) reader.old → L.heard before (W.contents out.old) [] listener.old
        → HasBeenHeard config.now terms.patience terms.by reader.old.window.size (R.remaining input.old) (R.remaining input.new) lane (λ turns. L.heard before (W.contents out.new) turns listener.new)) }
{
    let (lane, first, opening) = open_for(alloc, config, terms, reader, input)?;
    let lane = watched(alloc, terms, opening.by, lane)?;
    let lane = run_lane(lane, listener, first, reader, input, out)?;
    Ok(lane)
}

// Runs the trace on the level of this config, and lets one listen. Answers when the last request was over.
fn run_to_end<R: Read, L: Listener, W: Write>(
    alloc: Global,
    config: &Config,
    terms: Terms,
    listener: &mut L,
    reader: &mut TraceReader,
    input: &mut R,
    out: &mut W,
) -> Result<u64, SimulatorFault>
    requires patience { terms.patience ≤ max_patience }
    requires nothing { reader.old.window.last ≡ None }
    ensures { IfOk result (λ end. (before : Option (List ℕ)) → HasRead [] [] (R.remaining input.old) reader.old → L.heard before (W.contents out.old) [] listener.old
        → HasBeenHeardTo end config.now terms.patience terms.by reader.old.window.size (R.remaining input.old) (R.remaining input.new) (λ turns. L.heard before (W.contents out.new) turns listener.new)) }
{
    let lane = run_one(alloc, config, terms, listener, reader, input, out)?;
    Ok(lane.last())
}

// Keeps both sides of the bound of a lane to which nobody came, if they are asked for.
fn watched(
    alloc: Global,
    terms: Terms,
    by: ChargedBy,
    mut lane: Lane,
) -> Result<Lane, SimulatorFault>
    ensures { IfOk result (λ l. l ≡ lane) }
{
    if !terms.has_bound {
        return Ok(lane);
    }
    if by == ChargedBy::Seats {
        return Err(SimulatorFault::BoundOfSeats);
    }
    lane.watch(alloc)?;
    Ok(lane)
}

/// Runs a trace on the level of this config as `simulate` does, and prints what became of each request: a line of names, and a
/// line for each, in the order of their arrivals. The line of a request is held back until all that came before it have theirs,
/// and until there are 131,072 lines behind it: so a trace of at most this many lines prints nothing where it has a fault.
///
/// # Errors
///
/// As of `simulate`.
pub fn write_fates<P: Progress, R: Read, W: Write>(
    alloc: Global,
    config: &Config,
    terms: Terms,
    progress: &mut P,
    reader: &mut TraceReader,
    input: &mut R,
    out: &mut W,
) -> Result<(), SimulatorFault>
    requires patience { terms.patience ≤ max_patience }
    requires nothing { reader.old.window.last ≡ None }
    ensures { OnOk result (HasRead [] [] (R.remaining input.old) reader.old
        → HasToldFates config.now terms.patience terms.by reader.old.window.size (R.remaining input.old) (R.remaining input.new) (W.contents out.old) (W.contents out.new)) }
{
    let telling = Telling::new(alloc, WINDOW);
    let mut both = WithProgress {
        listener: telling,
        progress,
    };
    run_to_end(alloc, config, terms, &mut both, reader, input, out)?;
    both.listener.finish(out)?;
    Ok(())
}

/// Runs a trace of at most 10,000 requests on the level of this config as `simulate` does, and prints the script of the same run,
/// which `replay` reads: a line for each arrival, each finish, and each cancel of a request that gave up, in the order in which
/// they were made.
///
/// # Errors
///
/// As of `simulate`, and `TooManyListed`. Then nothing is printed.
pub fn write_timeline<P: Progress, R: Read, W: Write>(
    alloc: Global,
    config: &Config,
    terms: Terms,
    progress: &mut P,
    reader: &mut TraceReader,
    input: &mut R,
    out: &mut W,
) -> Result<(), SimulatorFault>
    requires patience { terms.patience ≤ max_patience }
    requires nothing { reader.old.window.last ≡ None }
    ensures { OnOk result (HasRead [] [] (R.remaining input.old) reader.old
        → HasToldCalls config.now terms.patience terms.by reader.old.window.size (R.remaining input.old) (R.remaining input.new) (W.contents out.old) (W.contents out.new)) }
{
    let timeline = Timeline::new(alloc);
    let mut both = WithProgress {
        listener: timeline,
        progress,
    };
    run_to_end(alloc, config, terms, &mut both, reader, input, out)?;
    both.listener.write(out)?;
    Ok(())
}

/// Runs a trace on the level of this config as `simulate` does, and lists its requests that were there at some moment of the
/// window, at most 10,000, each with what became of it. Nothing is written.
///
/// # Errors
///
/// As of `simulate`, and `TooManyListed`.
pub fn list<P: Progress, R: Read, W: Write>(
    alloc: Global,
    config: &Config,
    terms: Terms,
    window: TimeWindow,
    progress: &mut P,
    reader: &mut TraceReader,
    input: &mut R,
    out: &mut W,
) -> Result<Listed, SimulatorFault>
    requires patience { terms.patience ≤ max_patience }
    requires nothing { reader.old.window.last ≡ None }
    ensures few { IfOk result (λ l. length l.requests.items ≤ 10000) }
    ensures each { IfOk result (λ l. length l.ends.items ≡ length l.requests.items) }
    ensures listed { IfOk result (λ l. HasRead [] [] (R.remaining input.old) reader.old
        → HasListed window config.now terms.patience terms.by reader.old.window.size (R.remaining input.old) (R.remaining input.new) l) }
    ensures kept { OnOk result (HasRead [] [] (R.remaining input.old) reader.old → Keeps (W.contents out.old) (W.contents out.new)) }
{
    let listing = Listing::new(alloc, window);
    let mut both = WithProgress {
        listener: listing,
        progress,
    };
    let end = run_to_end(alloc, config, terms, &mut both, reader, input, out)?;
    let listed = both.listener.close(alloc, window, end)?;
    Ok(listed)
}
