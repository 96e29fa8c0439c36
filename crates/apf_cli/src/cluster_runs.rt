//! The command that simulates a whole cluster, or two.

ghost use Rattle.std.specs.Prelude.{◌≡◌, ◌≤◌, IfOk, is_some, not, vec_len};
ghost use Rattle.apf_matching.specs.Limits.{max_seats};
ghost use Rattle.apf_objects.specs.Cluster.{most_levels};
ghost use Rattle.apf_times.specs.Limits.{max_patience};
ghost use Rattle.apf_cli.specs.Choices.{IsSinceFor};

use crate::cluster_faults::{fault_of, fault_of_both, no_level};
use crate::cluster_logs::{Names, OpenLog, judge_all_names, open_log};
use crate::cluster_pictures::{PictureFile, picture_of, picture_of_both, save};
use crate::cluster_printing::{Beside, write, write_both};
use crate::clusters::read_cluster;
use crate::faults::{Edge, Fault};
use crate::files::{Files, STANDARD_INPUT, SecondFile};
use crate::notes::note_patience;
use crate::pictures::time_of;
use crate::progress::{Amount, Followed, ProgressLine};
use crate::second::{Second, read_scenarios};
use crate::traces::patience_of;
use apf_changes::Scenario;
use apf_cluster::{BothTables, ClusterTerms, TraceFault, run_both, run_log, write_trace};
use apf_cluster_tables::{LevelTable, Side, level_named};
use apf_objects::Cluster;
use std::alloc::Global;
use std::io::{IsTerminal, Read, Write};
use std::time::Clock;

/// How a cluster is simulated, and what is printed, by the words of a command line.
#[derive(Clone, Copy)]
pub(crate) struct Simulated<'a> {
    pub(crate) patience: &'a str,
    /// How many seats the server has.
    pub(crate) seats: u32,
    /// How many flows have a line.
    pub(crate) flows: u32,
    /// Whether JSON is printed.
    pub(crate) json: bool,
    /// Whether each level keeps its nominal limit.
    pub(crate) no_lending: bool,
    /// From when on requests are counted.
    pub(crate) warm_up: Option<&'a str>,
    /// The name of the file of a picture.
    pub(crate) picture: Option<&'a str>,
}

// From when on requests are counted: from the first one on where no word says a time.
fn since_of(word: Option<&str>) -> Result<u64, Fault>
    ensures { IfOk result (IsSinceFor word.entry) }
{
    let time = time_of(word, Edge::WarmUp)?;
    Ok(time.unwrap_or(0))
}

// The name of the file of a picture is none of standard output.
fn judge_picture(picture: Option<&str>) -> Result<(), Fault> {
    if picture == Some(STANDARD_INPUT) {
        return Err(Fault::PictureOnOutput);
    }
    Ok(())
}

// How the requests wait, how many seats there are, and from when on requests are counted.
fn terms_of(way: Simulated<'_>) -> Result<ClusterTerms, Fault>
    requires { way.seats ≤ max_seats }
    ensures seats { IfOk result (λ terms. terms.seats ≡ way.entry.seats) }
    ensures patience { IfOk result (λ terms. terms.patience ≤ max_patience) }
    ensures lends { IfOk result (λ terms. terms.lends ≡ not way.entry.no_lending) }
    ensures since { IfOk result (λ terms. IsSinceFor way.entry.warm_up terms.since) }
    ensures draws { IfOk result (λ terms. terms.draws ≡ is_some way.entry.picture) }
{
    let patience = patience_of(way.patience)?;
    let since = since_of(way.warm_up)?;
    judge_picture(way.picture)?;
    Ok(ClusterTerms {
        seats: way.seats,
        patience,
        lends: !way.no_lending,
        since,
        draws: way.picture.is_some(),
    })
}

// Runs a log on a cluster. How far it is stands on standard error meanwhile.
fn run_one<'n, F: Files, S: Read, C: Clock, E: Write + IsTerminal>(
    alloc: Global,
    log: &mut OpenLog<'_, F>,
    lines: &mut S,
    cluster: &Cluster,
    terms: ClusterTerms,
    clock: &'n C,
    err: &'n mut E,
) -> Result<Vec<LevelTable>, Fault>
    requires levels { vec_len cluster.now.levels ≤ most_levels }
    requires seats { terms.seats ≤ max_seats }
    requires patience { terms.patience ≤ max_patience }
{
    let amount = Amount::of(log.input.size());
    let mut line = ProgressLine::new(clock, err, false, &amount);
    let mut followed = Followed {
        input: &mut log.input,
        line: &mut line,
    };
    let ran = run_log(alloc, cluster, terms, &mut log.reader, &mut followed, lines);
    line.clear();
    match ran {
        Ok(tables) => Ok(tables),
        Err(fault) => Err(fault_of(alloc, cluster, log.names, &log.reader, fault)),
    }
}

// Runs a log on two clusters, in the same way.
fn run_two<'n, F: Files, S: Read, C: Clock, E: Write + IsTerminal>(
    alloc: Global,
    log: &mut OpenLog<'_, F>,
    lines: &mut S,
    clusters: (&Cluster, &Scenario),
    terms: ClusterTerms,
    clock: &'n C,
    err: &'n mut E,
) -> Result<BothTables, Fault>
    requires levels { vec_len clusters.0.now.levels ≤ most_levels }
    requires seats { terms.seats ≤ max_seats }
    requires patience { terms.patience ≤ max_patience }
{
    let (cluster, scenario) = clusters;
    let amount = Amount::of(log.input.size());
    let mut line = ProgressLine::new(clock, err, false, &amount);
    let mut followed = Followed {
        input: &mut log.input,
        line: &mut line,
    };
    let ran = run_both(
        alloc,
        cluster,
        scenario,
        terms,
        &mut log.reader,
        &mut followed,
        lines,
    );
    line.clear();
    match ran {
        Ok(tables) => Ok(tables),
        Err(fault) => Err(fault_of_both(alloc, cluster, scenario, log.names, &log.reader, fault)),
    }
}

// Simulates the requests of an audit log on the levels of a cluster, and prints what they came to, by level and by flow. The names
// are those of the objects and of the logs, which are read in pieces, so that they may have any length. Answers the picture, if one
// is asked for.
//
// # Errors
//
// The faults of the patience, those of the warm-up and of the name of a picture, then those of the files in the order objects, log,
// server's own log, then those of the levels and of what runs on them, then those of the output.
fn print_cluster_run<'n, F: Files, S: SecondFile + Read, O: Write, C: Clock, E: Write + IsTerminal>(
    alloc: Global,
    files: &mut F,
    beside: &mut S,
    names: Names<'_>,
    way: Simulated<'n>,
    out: &mut O,
    clock: &C,
    err: &mut E,
) -> Result<Option<PictureFile<'n>>, Fault>
    requires { way.seats ≤ max_seats }
{
    let terms = terms_of(way)?;
    judge_all_names(names, None)?;
    let cluster = read_cluster(alloc, files, names.objects)?;
    let mut log = open_log(alloc, files, beside, names)?;
    let mut tables = run_one(alloc, &mut log, beside, &cluster, terms, clock, err)?;
    let picture = picture_of(alloc, way.picture, cluster.levels.as_slice(), &mut tables)?;
    write(alloc, &cluster, tables.as_slice(), log.counts(), way, out)?;
    log.note_left_out(err);
    Ok(picture)
}

// The same on two clusters, side by side.
//
// # Errors
//
// The faults of the patience, those of the warm-up and of the name of a picture, then those of the files in the order objects,
// objects of the second cluster; then those of its changes, and of the logs; then those of the levels and of what runs on them, then
// those of the output.
fn print_both_runs<'n, F: Files, S: SecondFile + Read, O: Write, C: Clock, E: Write + IsTerminal>(
    alloc: Global,
    files: &mut F,
    beside: &mut S,
    names: Names<'_>,
    way: Simulated<'n>,
    second: Second<'_>,
    out: &mut O,
    clock: &C,
    err: &mut E,
) -> Result<Option<PictureFile<'n>>, Fault>
    requires some { 1 ≤ way.seats }
    requires few { way.seats ≤ max_seats }
{
    let terms = terms_of(way)?;
    judge_all_names(names, second.against)?;
    let (cluster, scenario) = read_scenarios(alloc, files, names.objects, second, way.seats)?;
    let mut log = open_log(alloc, files, beside, names)?;
    let mut both = run_two(
        alloc,
        &mut log,
        beside,
        (&cluster, &scenario),
        terms,
        clock,
        err,
    )?;
    let levels = (
        cluster.levels.as_slice(),
        scenario.cluster.levels.as_slice(),
    );
    let picture = picture_of_both(alloc, way.picture, levels, &mut both)?;
    let first = Side {
        levels: cluster.levels.as_slice(),
        tables: both.first.as_slice(),
    };
    let second = Side {
        levels: scenario.cluster.levels.as_slice(),
        tables: both.second.as_slice(),
    };
    let said = Beside {
        schemas: cluster.schemas.as_slice(),
        counts: log.counts(),
    };
    write_both(alloc, first, second, said, way, out)?;
    log.note_left_out(err);
    Ok(picture)
}

// Writes the requests of a log that are of the level at this place, as a trace. How far it is stands on standard error meanwhile,
// where that is not shared with what is written.
fn write_requests<'n, F: Files, S: Read, O: Write, C: Clock, E: Write + IsTerminal>(
    alloc: Global,
    log: &mut OpenLog<'_, F>,
    lines: &mut S,
    level: (&Cluster, usize),
    is_shared: bool,
    out: &mut O,
    clock: &'n C,
    err: &'n mut E,
) -> Result<(), Fault> {
    let (cluster, place) = level;
    let amount = Amount::of(log.input.size());
    let mut line = ProgressLine::new(clock, err, is_shared, &amount);
    let mut followed = Followed {
        input: &mut log.input,
        line: &mut line,
    };
    let written = write_trace(cluster, place, &mut log.reader, &mut followed, lines, out);
    line.clear();
    match written {
        Ok(()) => Ok(()),
        Err(TraceFault::CannotWrite) => Err(Fault::CannotWrite),
        Err(TraceFault::Cluster(fault)) => {
            Err(fault_of(alloc, cluster, log.names, &log.reader, fault))
        }
    }
}

// Prints the requests of an audit log that are of the level of this name, as a trace. The names are those of the objects and of the
// logs, which are read in pieces, so that they may have any length.
//
// # Errors
//
// The faults of the patience, then those of the files in the order objects, log, server's own log; a level that is not there before
// those of the logs; the first fault of the logs behind the lines of the requests before it; those of the output.
fn print_level_trace<F: Files, S: SecondFile + Read, O: Write, C: Clock, E: Write + IsTerminal>(
    alloc: Global,
    files: &mut F,
    beside: &mut S,
    names: Names<'_>,
    words: (&str, &str),
    out: &mut O,
    clock: &C,
    err: &mut E,
) -> Result<(), Fault> {
    let (patience, level) = words;
    patience_of(patience)?;
    judge_all_names(names, None)?;
    let cluster = read_cluster(alloc, files, names.objects)?;
    let Some(place) = level_named(cluster.levels.as_slice(), level) else {
        return Err(no_level(alloc, level));
    };
    // it prints as it goes on
    let is_shared = files.is_shown();
    let mut log = open_log(alloc, files, beside, names)?;
    write_requests(
        alloc,
        &mut log,
        beside,
        (&cluster, place),
        is_shared,
        out,
        clock,
        err,
    )?;
    log.note_left_out(err);
    Ok(())
}

// Simulates the requests of an audit log on the levels of a cluster, and on those of a second one where it is asked for, and draws
// them where that is.
fn print_runs<F: Files, S: SecondFile + Read, O: Write, C: Clock, E: Write + IsTerminal>(
    alloc: Global,
    files: &mut F,
    beside: &mut S,
    names: Names<'_>,
    way: Simulated<'_>,
    second: Second<'_>,
    out: &mut O,
    clock: &C,
    err: &mut E,
) -> Result<(), Fault>
    requires some { 1 ≤ way.seats }
    requires few { way.seats ≤ max_seats }
{
    let picture = if second.is_asked() {
        print_both_runs(alloc, files, beside, names, way, second, out, clock, err)?
    } else {
        print_cluster_run(alloc, files, beside, names, way, out, clock, err)?
    };
    note_patience(way.patience, err);
    save(alloc, files, out, picture)
}

/// Simulates the requests of an audit log on the levels of a cluster, and of a second one where it is asked for; or prints those of
/// the level of this name as a trace.
///
/// # Errors
///
/// `LevelAndTrace` if one of the two is asked for without the other, `TraceOfTwo` if a second cluster is asked for with both, and
/// `TraceAlone` if a warm-up or a picture is; then those of what is done.
pub(crate) fn print_cluster_command<
    F: Files,
    S: SecondFile + Read,
    O: Write,
    C: Clock,
    E: Write + IsTerminal,
>(
    alloc: Global,
    files: &mut F,
    beside: &mut S,
    names: Names<'_>,
    way: Simulated<'_>,
    traced: (Option<&str>, bool),
    second: Second<'_>,
    out: &mut O,
    clock: &C,
    err: &mut E,
) -> Result<(), Fault>
    requires some { 1 ≤ way.seats }
    requires few { way.seats ≤ max_seats }
{
    match traced {
        (Some(_), false) | (None, true) => Err(Fault::LevelAndTrace),
        (Some(_), true) if second.is_asked() => Err(Fault::TraceOfTwo),
        (Some(_), true) if way.warm_up.is_some() || way.picture.is_some() => {
            Err(Fault::TraceAlone)
        }
        (Some(level), true) => {
            print_level_trace(
                alloc,
                files,
                beside,
                names,
                (way.patience, level),
                out,
                clock,
                err,
            )
        }
        (None, false) => print_runs(alloc, files, beside, names, way, second, out, clock, err),
    }
}
