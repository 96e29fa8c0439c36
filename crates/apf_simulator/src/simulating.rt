//! Runs a trace on a level, and prints what its flows came to.

ghost use Rattle.std.specs.Prelude.{◌≡◌, ◌≤◌, ◌++◌, [], None, IfOk, OnOk};
ghost use Rattle.std.specs.Io.KnownBytes.{Appends};
ghost use Rattle.apf_times.specs.Limits.{max_patience};
ghost use Rattle.apf_texts.specs.Texts.{totals_text};
ghost use Rattle.apf_rows.specs.Texts.{table_text};
ghost use Rattle.apf_trace_reader.specs.Reading.{HasRead};
ghost use Rattle.apf_simulator.specs.Books.{book_of, sides_text};
ghost use Rattle.apf_simulator.specs.Told.{AreAskedFor, HasSimulated, IsPrinted};

use crate::fault::SimulatorFault;
use crate::lane::Lane;
use crate::listener::Nobody;
use crate::progress::{Progress, WithProgress};
use crate::running::{Terms, run_one};
use crate::sides::write_sides;
use apf_bound::Sides;
use apf_line::Report;
use apf_model::Config;
use apf_rows::Table;
use apf_texts::Totals;
use apf_trace_reader::TraceReader;
use std::alloc::Global;
use std::io::{Read, Write};

// What the book of a level says that ended.
fn totals_of(report: &Report) -> Totals
    ensures { result ≡ book_of report.now }
{
    let word = report.words.level();
    let stats = report.newest.stats;
    Totals {
        closed: word.closed(),
        seats: word.seats(),
        waiters: word.waiters(),
        counts: report.words.counts(),
        undecided: 0,
        entered: stats.entered,
        dispatched: stats.dispatched,
        struck: stats.struck,
    }
}

// Writes what the flows came to, and the level's book.
fn write<W: Write>(
    table: &Table,
    report: &Report,
    limit: u32,
    patience: u64,
    out: &mut W,
) -> Result<(), SimulatorFault>
    ensures { OnOk result (Appends (W.contents out.old) (W.contents out.new) (table_text limit patience table.now ++ totals_text (book_of report.now))) }
{
    if table.write(limit, patience, out).is_err() {
        return Err(SimulatorFault::CannotWrite);
    }
    if totals_of(report).write(out).is_err() {
        return Err(SimulatorFault::CannotWrite);
    }
    Ok(())
}

// Writes both sides of the bound, if they were kept.
fn write_bound<W: Write>(sides: &Option<Sides>, out: &mut W) -> Result<(), SimulatorFault>
    ensures { OnOk result (Appends (W.contents out.old) (W.contents out.new) (sides_text sides.now)) }
{
    let Some(sides) = sides else {
        return Ok(());
    };
    match write_sides(sides, out) {
        Ok(()) => Ok(()),
        Err(_) => Err(SimulatorFault::CannotWrite),
    }
}

// Both sides of the bound of a lane, if they are asked for.
fn sides_of(lane: &Lane, has_bound: bool) -> Result<Option<Sides>, SimulatorFault>
    ensures { IfOk result (AreAskedFor has_bound lane.now.state.level) }
{
    if !has_bound {
        return Ok(None);
    }
    match lane.sides() {
        Some(sides) => Ok(Some(sides)),
        None => Err(SimulatorFault::OtherBook),
    }
}

// Ends the level of a lane, and prints what its flows came to, the level's book, and both sides of the bound.
fn print<W: Write>(
    alloc: Global,
    lane: Lane,
    limit: u32,
    terms: Terms,
    out: &mut W,
) -> Result<(), SimulatorFault>
    ensures { OnOk result (IsPrinted limit terms.patience terms.has_bound lane (W.contents out.old) (W.contents out.new)) }
{
    let sides = sides_of(&lane, terms.has_bound)?;
    let (table, report) = lane.close(alloc)?;
    write(&table, &report, limit, terms.patience, out)?;
    write_bound(&sides, out)?;
    Ok(())
}

/// Runs a trace on the level of this config, in one thread, and prints a line for each flow, the line of the whole, the level's
/// book, and both sides of the bound in measured seat-time, if they are asked for.
///
/// The reader has read nothing. Requests come in the order of their arrivals, as it hands them out. At one time finishes come
/// first, then the ends of patience, then arrivals, each by their lines. A request that waits as long as the patience gives up.
/// A dispatch is charged what its request's line says; else by time the width times how long the flow's requests ran that
/// finished until then, or by seats the width. `progress` is told how far the run is, and that it ends before anything is printed.
///
/// # Errors
///
/// The trace's first fault, or that of the input; the level's; and those of what runs on it. `BoundOfSeats` if both sides are
/// asked for where requests are charged their seats. Then nothing is printed. And `CannotWrite`.
pub fn simulate<P: Progress, R: Read, W: Write>(
    alloc: Global,
    config: &Config,
    terms: Terms,
    progress: &mut P,
    reader: &mut TraceReader,
    input: &mut R,
    out: &mut W,
) -> Result<(), SimulatorFault>
    requires patience { terms.patience ≤ max_patience }
    requires nothing { reader.old.window.last ≡ None }
    ensures { OnOk result (HasRead [] [] (R.remaining input.old) reader.old
        → HasSimulated config.now terms.patience terms.by terms.has_bound reader.old.window.size (R.remaining input.old) (R.remaining input.new) (W.contents out.old) (W.contents out.new)) }
{
    let mut nobody = WithProgress {
        listener: Nobody,
        progress,
    };
    let lane = run_one(alloc, config, terms, &mut nobody, reader, input, out)?;
    print(alloc, lane, config.limit, terms, out)?;
    Ok(())
}
