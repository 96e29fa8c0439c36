//! Runs a trace on two levels, and prints both side by side.

ghost use Rattle.std.specs.Prelude.{◌≡◌, ◌≤◌, ℕ, List, [], Option, None, IfOk, IfSome, IsSome, OnOk, Some};
ghost use Rattle.std.specs.Io.KnownBytes.{Appends, Keeps};
ghost use Rattle.apf_times.specs.Limits.{max_patience};
ghost use Rattle.apf_rows.specs.Comparisons.{IsOrder, comparison_text};
ghost use Rattle.apf_rows.specs.declared.comparison.Place.{Place as PlaceOf};
ghost use Rattle.apf_trace_reader.specs.Reading.{HasRead};
ghost use Rattle.apf_simulator.specs.Feeds.{AreLivedBoth, AreNew, HasFed, HaveGone, IsHandedOut, IsOver};
ghost use Rattle.apf_simulator.specs.Lanes.{IsLane, IsOpening, most_slots};
ghost use Rattle.apf_simulator.specs.Told.{ArePrinted, HaveCompared, IsTableOf};
ghost use Rattle.apf_simulator.specs.Turns.{Begins};

use crate::fault::SimulatorFault;
use crate::feeding::{Next, read_first};
use crate::lane::Lane;
use crate::lanes::Lanes;
use crate::listener::Nobody;
use crate::progress::{Progress, WithProgress};
use crate::running::{Opening, Terms, opening_for, run};
use apf_model::Config;
use apf_rows::{Table, order_of, write_comparison};
use apf_trace_reader::TraceReader;
use std::alloc::Global;
use std::io::{Read, Write};

// The levels of both configs, that of the one first, to which nobody came.
fn open_both(
    alloc: Global,
    one: &Config,
    other: &Config,
    patience: u64,
    opening: Opening,
) -> Result<Lanes, SimulatorFault>
    requires some { 1 ≤ opening.slots }
    requires few { opening.slots ≤ most_slots }
    requires patience { patience ≤ max_patience }
    ensures two { IfOk result (λ l. IsSome l.other) }
    ensures opened { IfOk result (λ l. IsOpening one.now opening.slots patience opening.by l.one.state × IsLane l.one.state [] [] l.one) }
    ensures other_opened { IfOk result (λ l. IfSome l.other (λ o. IsOpening other.now opening.slots patience opening.by o.state × IsLane o.state [] [] o)) }
    ensures new { IfOk result (λ l. AreNew l.one l.other) }
    ensures lived { IfOk result (λ l. AreLivedBoth l.one l.other) }
{
    let one = Lane::open(alloc, one, opening.slots, patience, opening.by)?;
    match Lane::open(alloc, other, opening.slots, patience, opening.by) {
        Ok(other) => Ok(Lanes {
            one,
            other: Some(other),
        }),
        Err(fault) => Err(SimulatorFault::of_other(fault)),
    }
}

// Ends the level of a lane. Answers what its flows came to.
fn table_of(alloc: Global, lane: Lane) -> Result<Table, SimulatorFault>
    ensures { IfOk result (IsTableOf lane) }
{
    let (table, _report) = lane.close(alloc)?;
    Ok(table)
}

// Prints both side by side, flow by flow.
fn print<W: Write>(alloc: Global, one: Lane, other: Lane, out: &mut W) -> Result<(), SimulatorFault>
    ensures { OnOk result (ArePrinted one other (W.contents out.old) (W.contents out.new)) }
{
    let one = table_of(alloc, one)?;
    let other = table_of(alloc, other)?;
    write(alloc, &one, &other, out)?;
    Ok(())
}

// Writes both side by side, flow by flow.
fn write<W: Write>(
    alloc: Global,
    one: &Table,
    other: &Table,
    out: &mut W,
) -> Result<(), SimulatorFault>
    ensures { OnOk result ((order : List PlaceOf) × IsOrder one.now.lines.items other.now.lines.items order × Appends (W.contents out.old) (W.contents out.new) (comparison_text one.now other.now order)) }
{
    let order = order_of(alloc, one, other)?;
    match write_comparison(out, one, other, order.as_slice()) {
        Ok(()) => Ok(()),
        Err(_) => Err(SimulatorFault::CannotWrite),
    }
}

// Runs the trace on the lanes of two levels to which nobody came.
fn run_both<P: Progress, R: Read, W: Write>(
    mut lanes: Lanes,
    progress: &mut P,
    first: Next,
    reader: &mut TraceReader,
    input: &mut R,
    out: &mut W,
) -> Result<(Lane, Lane), SimulatorFault>
    requires new { AreNew lanes.one lanes.other }
    requires lived { AreLivedBoth lanes.one lanes.other }
    requires handed_out { IsHandedOut first reader.old.window.last }
    ensures over { IfOk result (λ o. IsOver o.0 × IsOver o.1) }
    ensures gone { IfOk result (λ o. (was : Option (List ℕ)) → HasFed was (R.remaining input.old) [] first reader.old
        → HaveGone was (R.remaining input.new) None reader.new lanes.one lanes.other o.0 (Some o.1) (λ turns. Keeps (W.contents out.old) (W.contents out.new) × Begins first turns None)) }
    ensures size { reader.new.window.size ≡ reader.old.window.size }
{
    let mut nobody = WithProgress {
        listener: Nobody,
        progress,
    };
    run(&mut lanes, &mut nobody, first, reader, input, out)?;
    let Lanes { one, other } = lanes;
    match other {
        Some(other) => Ok((one, other)),
        // never, since both lanes go on
        None => Err(SimulatorFault::StillWaits),
    }
}

/// Runs a trace on the levels of two configs, each as `simulate` does, and prints both side by side: a line of names, a line
/// for each flow, those first whose longest wait changes most, and the line of all requests. `progress` is told how far the run
/// is on the one level.
///
/// # Errors
///
/// As of `simulate`: the one level's fault before the other's.
pub fn compare<P: Progress, R: Read, W: Write>(
    alloc: Global,
    configs: (&Config, &Config),
    terms: Terms,
    progress: &mut P,
    reader: &mut TraceReader,
    input: &mut R,
    out: &mut W,
) -> Result<(), SimulatorFault>
    requires patience { terms.patience ≤ max_patience }
    requires nothing { reader.old.window.last ≡ None }
    ensures { OnOk result (HasRead [] [] (R.remaining input.old) reader.old
        → HaveCompared configs.entry.0.now configs.entry.1.now terms.patience terms.by reader.old.window.size (R.remaining input.old) (R.remaining input.new) (W.contents out.old) (W.contents out.new)) }
{
    let first = read_first(reader, input)?;
    let opening = opening_for(terms, reader);
    let lanes = open_both(alloc, configs.0, configs.1, terms.patience, opening)?;
    let (one, other) = run_both(lanes, progress, first, reader, input, out)?;
    print(alloc, one, other, out)?;
    Ok(())
}
