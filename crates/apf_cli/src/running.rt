//! Runs the requests of files by workers.

ghost use Rattle.std.specs.Prelude.{◌≡◌, ◌<◌, ◌≤◌, IfOk, OnOk};
ghost use Rattle.apf_cli.specs.Runs.{IsRunOf, IsRunInRounds, PrintsRun, PrintsRounds, PrintsBook};
ghost use Rattle.apf_run.specs.RoundsPlans.{max_rounds};

use crate::faults::Fault;
use crate::files::{Files, judge_names};
use crate::progress::{Amount, ProgressLine};
use crate::reading::{Explained, level_fault, read_level};
use apf_run::rounds::run_rounds;
use apf_run::{Report, run, write_book};
use std::alloc::Global;
use std::hint;
use std::io::{IsTerminal, Write};
use std::sync::Wait;
use std::thread::Threads;
use std::time::Clock;

// Work that turns an empty loop.
struct Turns;

fn turn(units: u32) {
    for _ in 0..units {
        hint::spin_loop();
    }
}

impl apf_run::Work for Turns {
    fn work(&self, _running: &apf_run::Running, units: u32) {
        turn(units);
    }
}

impl apf_run::rounds::Work for Turns {
    fn work(&self, _executing: &apf_run::rounds::Executing<'_>, units: u32) {
        turn(units);
    }
}

// Reads the two files, and brings the requests to their ends by this many workers.
fn ran<F: Files, R: Wait + Threads + Sync>(
    rt: &R,
    alloc: Global,
    files: &mut F,
    names: (&str, &str),
    workers: u32,
) -> Result<Report, Explained>
    requires { 0 < workers }
    ensures { IfOk result (IsRunOf F.holds names.entry.0.now names.entry.1.now workers) }
{
    let (config, requests) = read_level(alloc, files, names.0, names.1)?;
    match run(rt, alloc, &config, requests.as_slice(), workers, &Turns) {
        Ok(report) => Ok(report),
        Err(fault) => Err(level_fault(alloc, names.0, &config, fault.into())),
    }
}

// Reads the two files, and brings this many requests in the place of each one to their ends, by this many workers.
fn ran_in_rounds<F: Files, C: Clock, E: Write + IsTerminal, R: Wait + Threads + Sync>(
    rt: &R,
    alloc: Global,
    files: &mut F,
    names: (&str, &str),
    workers: u32,
    rounds: u32,
    clock: &C,
    err: &mut E,
) -> Result<apf_run::rounds::Report, Explained>
    requires workers { 0 < workers }
    requires some { 1 ≤ rounds }
    requires few { rounds ≤ max_rounds }
    ensures { IfOk result (IsRunInRounds F.holds names.entry.0.now names.entry.1.now workers rounds) }
{
    let (config, requests) = read_level(alloc, files, names.0, names.1)?;
    let amount = Amount::of(Some(u64::from(rounds) * requests.len() as u64));
    let mut line = ProgressLine::new(clock, err, false, &amount);
    let ran = run_rounds(
        rt,
        alloc,
        &config,
        requests.as_slice(),
        workers,
        rounds,
        &Turns,
        &mut line,
    );
    line.clear();
    match ran {
        Ok(report) => Ok(report),
        Err(fault) => Err(level_fault(alloc, names.0, &config, fault.into())),
    }
}

// The same as a batch, and prints the book of the report.
fn print_batch<F: Files, O: Write, R: Wait + Threads + Sync>(
    rt: &R,
    alloc: Global,
    files: &mut F,
    names: (&str, &str),
    workers: u32,
    is_whole: bool,
    out: &mut O,
) -> Result<(), Fault>
    requires { 0 < workers }
    ensures { OnOk result (PrintsRun F.holds names.entry.0.now names.entry.1.now workers (O.contents out.old) (O.contents out.new)) }
{
    let report = match ran(rt, alloc, files, names, workers) {
        Ok(report) => report,
        Err(explained) => return Err(explained.told(alloc, is_whole)),
    };
    Ok(write_book(&report, out)?)
}

// The same in rounds, and prints the book of the report.
fn print_rounds<F: Files, O: Write, C: Clock, E: Write + IsTerminal, R: Wait + Threads + Sync>(
    rt: &R,
    alloc: Global,
    files: &mut F,
    names: (&str, &str),
    pace: (u32, u32),
    is_whole: bool,
    out: &mut O,
    clock: &C,
    err: &mut E,
) -> Result<(), Fault>
    requires workers { 0 < pace.0 }
    requires some { 1 ≤ pace.1 }
    requires few { pace.1 ≤ max_rounds }
    ensures { OnOk result (PrintsRounds F.holds names.entry.0.now names.entry.1.now pace.0 pace.1 (O.contents out.old) (O.contents out.new)) }
{
    let report = match ran_in_rounds(rt, alloc, files, names, pace.0, pace.1, clock, err) {
        Ok(report) => report,
        Err(explained) => return Err(explained.told(alloc, is_whole)),
    };
    Ok(apf_run::rounds::write_book(&report, out)?)
}

/// Reads the two files, lets this many workers go this many times through the requests, and prints the book. A single round is
/// run as a batch. More rounds show on the screen how far they are. `is_whole` says whether the line of a fault has the one behind
/// it that says it to a person.
#[tactic(auto, using(crate::proofs::Paces::batch_prints, crate::proofs::Paces::rounds_print))]
pub(crate) fn print_run<
    F: Files,
    O: Write,
    C: Clock,
    E: Write + IsTerminal,
    R: Wait + Threads + Sync,
>(
    rt: &R,
    alloc: Global,
    files: &mut F,
    names: (&str, &str),
    pace: (u32, u32),
    is_whole: bool,
    out: &mut O,
    clock: &C,
    err: &mut E,
) -> Result<(), Fault>
    requires workers { 0 < pace.0 }
    requires some { 1 ≤ pace.1 }
    requires few { pace.1 ≤ max_rounds }
    ensures { OnOk result (PrintsBook F.holds names.entry.0.now names.entry.1.now pace.0 pace.1 (O.contents out.old) (O.contents out.new)) }
{
    judge_names(&[names.0, names.1])?;
    if pace.1 == 1 {
        print_batch(rt, alloc, files, names, pace.0, is_whole, out)?;
        return Ok(());
    }
    print_rounds(rt, alloc, files, names, pace, is_whole, out, clock, err)?;
    Ok(())
}
