//! Simulations of traces that are read in pieces.

ghost use Rattle.std.specs.Prelude.{◌≡◌, ◌≤◌, IfOk, vec_len};

use crate::faults::Fault;
use crate::files::{Files, Input, Source, judge_names, open_input};
use crate::progress::{Amount, Counted, ProgressLine};
use crate::reading::{config_of, level_fault};
use crate::telling::{named, unread_trace_fault};
use crate::traces::{Way, charge_of, patience_of};
use apf_charges::ChargedBy;
use apf_run::Config;
use apf_simulator::{
    Listed, SimulatorFault, Terms, TimeWindow, compare, list, simulate, write_fates, write_timeline,
};
use apf_trace_reader::{TraceReader, WINDOW};
use std::alloc::Global;
use std::io::{IsTerminal, Write};
use std::time::Clock;

// A level's config, and the name of its file.
type Level<'a> = (&'a str, &'a Config);

/// The fault of what runs on a level.
pub(crate) fn lane_fault(fault: SimulatorFault) -> Fault {
    match fault {
        SimulatorFault::Crowded(line, at) => Fault::Crowded(line, at),
        SimulatorFault::TooFar => Fault::TooFar,
        SimulatorFault::TooMany => Fault::TooMany,
        SimulatorFault::TooManyListed => Fault::TooManyListed,
        SimulatorFault::BoundOfSeats => Fault::BoundOfSeats,
        SimulatorFault::OtherBook => Fault::OtherBook,
        SimulatorFault::CannotWrite => Fault::CannotWrite,
        SimulatorFault::NoMemory => Fault::NoMemory,
        SimulatorFault::Read(_)
        | SimulatorFault::Open(_)
        | SimulatorFault::OpenOther(_)
        | SimulatorFault::StillWaits => Fault::StillWaits,
    }
}

// The fault of a trace of this name that is read in pieces, and of what runs on these levels.
fn fault_of<F: Files>(
    alloc: Global,
    trace: &str,
    levels: (Level<'_>, Level<'_>),
    reader: &TraceReader,
    input: &mut Source<'_, F>,
    fault: SimulatorFault,
) -> Fault {
    match fault {
        SimulatorFault::Read(fault) => unread_trace_fault(alloc, trace, reader, input, fault),
        SimulatorFault::Open(fault) => {
            level_fault(alloc, levels.0.0, levels.0.1, fault.into()).told(alloc, true)
        }
        SimulatorFault::OpenOther(fault) => {
            level_fault(alloc, levels.1.0, levels.1.1, fault.into()).told(alloc, true)
        }
        fault => lane_fault(fault),
    }
}

/// How the requests of a trace wait, and what they are charged, by the words of a command line.
pub(crate) fn terms_of(way: Way<'_>) -> Result<Terms, Fault>
    ensures { IfOk result (λ terms. terms.patience ≤ 1000000000) }
{
    Ok(Terms {
        patience: patience_of(way.patience)?,
        by: charge_of(way.charge)?,
        has_bound: false,
    })
}

/// The trace of this name, to be read in pieces.
pub(crate) fn open_trace<'a, F: Files>(
    alloc: Global,
    files: &'a mut F,
    name: &str,
) -> Result<Source<'a, F>, Fault> {
    match open_input(files, Input::Trace, name) {
        Ok(input) => Ok(input),
        Err(fault) => Err(named(alloc, name, fault)),
    }
}

/// Simulates the trace on the level of the config, and prints what its flows met and the book, and if it is asked for both sides
/// of the bound. The trace is read in pieces, so it may have any length.
///
/// # Errors
///
/// The faults of the patience and of what requests are charged, then those of the files in the order config, trace, then
/// those of the level, then those of what runs on it, then those of the output; and with a bound `BoundOfSeats` if requests are
/// charged their seats.
pub(crate) fn print_simulation<'n, F: Files, O: Write, C: Clock, E: Write + IsTerminal>(
    alloc: Global,
    files: &mut F,
    names: (&'n str, &'n str),
    way: Way<'_>,
    has_bound: bool,
    out: &mut O,
    clock: &'n C,
    err: &'n mut E,
) -> Result<(), Fault> {
    let mut terms = terms_of(way)?;
    terms.has_bound = has_bound;
    if has_bound && terms.by == Some(ChargedBy::Seats) {
        return Err(Fault::BoundOfSeats);
    }
    judge_names(&[names.0, names.1])?;
    let config = config_of(alloc, files, names.0)?;
    let amount = Amount::of(None);
    let mut input = open_trace(alloc, files, names.1)?;
    let mut reader = TraceReader::new(alloc, WINDOW)?;
    let mut line = ProgressLine::new(clock, err, false, &amount);
    amount.is_of(input.size());
    let mut read = Counted {
        input: &mut input,
        amount: &amount,
        is_counted: line.is_seen(),
    };
    let ran = simulate(
        alloc,
        &config,
        terms,
        &mut line,
        &mut reader,
        &mut read,
        out,
    );
    line.clear();
    match ran {
        Ok(()) => Ok(()),
        Err(fault) => {
            let level = (names.0, &config);
            Err(fault_of(alloc, names.1, (level, level), &reader, &mut input, fault))
        }
    }
}

/// Simulates the trace on the level of the config, and prints what became of each request. The trace is read in pieces, so it
/// may have any length.
///
/// # Errors
///
/// As of `print_simulation`.
pub(crate) fn print_fates<'n, F: Files, O: Write, C: Clock, E: Write + IsTerminal>(
    alloc: Global,
    files: &mut F,
    names: (&'n str, &'n str),
    way: Way<'_>,
    out: &mut O,
    clock: &'n C,
    err: &'n mut E,
    is_shared: bool,
) -> Result<(), Fault> {
    let terms = terms_of(way)?;
    judge_names(&[names.0, names.1])?;
    let config = config_of(alloc, files, names.0)?;
    let amount = Amount::of(None);
    let mut input = open_trace(alloc, files, names.1)?;
    let mut reader = TraceReader::new(alloc, WINDOW)?;
    let mut line = ProgressLine::new(clock, err, is_shared, &amount);
    amount.is_of(input.size());
    let mut read = Counted {
        input: &mut input,
        amount: &amount,
        is_counted: line.is_seen(),
    };
    let ran = write_fates(
        alloc,
        &config,
        terms,
        &mut line,
        &mut reader,
        &mut read,
        out,
    );
    line.clear();
    match ran {
        Ok(()) => Ok(()),
        Err(fault) => {
            let level = (names.0, &config);
            Err(fault_of(alloc, names.1, (level, level), &reader, &mut input, fault))
        }
    }
}

/// Simulates a trace of at most 10,000 requests on the level of the config, and prints the script of the simulation.
///
/// # Errors
///
/// As of `print_simulation`, and `TooManyListed`.
pub(crate) fn print_timeline<'n, F: Files, O: Write, C: Clock, E: Write + IsTerminal>(
    alloc: Global,
    files: &mut F,
    names: (&'n str, &'n str),
    way: Way<'_>,
    out: &mut O,
    clock: &'n C,
    err: &'n mut E,
) -> Result<(), Fault> {
    let terms = terms_of(way)?;
    judge_names(&[names.0, names.1])?;
    let config = config_of(alloc, files, names.0)?;
    let amount = Amount::of(None);
    let mut input = open_trace(alloc, files, names.1)?;
    let mut reader = TraceReader::new(alloc, WINDOW)?;
    let mut line = ProgressLine::new(clock, err, false, &amount);
    amount.is_of(input.size());
    let mut read = Counted {
        input: &mut input,
        amount: &amount,
        is_counted: line.is_seen(),
    };
    let ran = write_timeline(
        alloc,
        &config,
        terms,
        &mut line,
        &mut reader,
        &mut read,
        out,
    );
    line.clear();
    match ran {
        Ok(()) => Ok(()),
        Err(fault) => {
            let level = (names.0, &config);
            Err(fault_of(alloc, names.1, (level, level), &reader, &mut input, fault))
        }
    }
}

/// A level's config, and the requests of a trace that ran on it, each with what became of it.
pub(crate) type Simulated = (Config, Listed);

/// Simulates a trace on the level of the config, and lists the at most 10,000 requests that are there at some moment of the window.
/// Nothing is written.
///
/// # Errors
///
/// As of `print_simulation`, and `TooManyListed`.
pub(crate) fn simulated<'n, F: Files, O: Write, C: Clock, E: Write + IsTerminal>(
    alloc: Global,
    files: &mut F,
    names: (&'n str, &'n str),
    terms: Terms,
    window: TimeWindow,
    out: &mut O,
    clock: &'n C,
    err: &'n mut E,
) -> Result<Simulated, Fault>
    requires { terms.patience ≤ 1000000000 }
    ensures few { IfOk result (λ o. vec_len o.1.requests ≤ 10000) }
    ensures each { IfOk result (λ o. vec_len o.1.ends ≡ vec_len o.1.requests) }
{
    judge_names(&[names.0, names.1])?;
    let config = config_of(alloc, files, names.0)?;
    let amount = Amount::of(None);
    let mut input = open_trace(alloc, files, names.1)?;
    let mut reader = TraceReader::new(alloc, WINDOW)?;
    let mut line = ProgressLine::new(clock, err, false, &amount);
    amount.is_of(input.size());
    let mut read = Counted {
        input: &mut input,
        amount: &amount,
        is_counted: line.is_seen(),
    };
    let ran = list(
        alloc,
        &config,
        terms,
        window,
        &mut line,
        &mut reader,
        &mut read,
        out,
    );
    line.clear();
    match ran {
        Ok(listed) => Ok((config, listed)),
        Err(fault) => {
            let level = (names.0, &config);
            Err(fault_of(alloc, names.1, (level, level), &reader, &mut input, fault))
        }
    }
}

/// Simulates the trace on the levels of two configs, and prints both, flow by flow. The trace is read in pieces, so it may have
/// any length.
///
/// # Errors
///
/// The faults of the patience and of what requests are charged, then those of the files in the order of their names, then
/// those of the one level and of the other, then those of what runs on them, then those of the output.
pub(crate) fn print_comparison<'n, F: Files, O: Write, C: Clock, E: Write + IsTerminal>(
    alloc: Global,
    files: &mut F,
    names: (&'n str, &'n str, &'n str),
    way: Way<'_>,
    out: &mut O,
    clock: &'n C,
    err: &'n mut E,
) -> Result<(), Fault> {
    let terms = terms_of(way)?;
    judge_names(&[names.0, names.1, names.2])?;
    let one = config_of(alloc, files, names.0)?;
    let other = config_of(alloc, files, names.1)?;
    let amount = Amount::of(None);
    let mut input = open_trace(alloc, files, names.2)?;
    let mut reader = TraceReader::new(alloc, WINDOW)?;
    let mut line = ProgressLine::new(clock, err, false, &amount);
    amount.is_of(input.size());
    let mut read = Counted {
        input: &mut input,
        amount: &amount,
        is_counted: line.is_seen(),
    };
    let ran = compare(
        alloc,
        (&one, &other),
        terms,
        &mut line,
        &mut reader,
        &mut read,
        out,
    );
    line.clear();
    match ran {
        Ok(()) => Ok(()),
        Err(fault) => {
            let levels = ((names.0, &one), (names.1, &other));
            Err(fault_of(alloc, names.2, levels, &reader, &mut input, fault))
        }
    }
}
