//! The command that draws a simulation.

ghost use Rattle.std.specs.Prelude.{◌≡◌, ◌≤◌, IfErr, IfOk, vec_len, length};
ghost use Rattle.apf_cli.specs.Choices.{IsNoTimeFor, IsTimeFor, IsWindowFor};

use crate::faults::{Edge, Fault};
use crate::files::Files;
use crate::streaming::{simulated, terms_of};
use crate::traces::Way;
use apf_commands::read_time;
use apf_flows::flows_of;
use apf_picture::{Outcome, Picture, Scene};
use apf_simulator::TimeWindow;
use apf_stream::Ended;
use std::alloc::{AllocError, Global};
use std::io::{IsTerminal, Write};
use std::time::Clock;

// What a picture shows of each request: its decision, its wait, and the queue that it entered.
fn outcomes_of(alloc: Global, ends: &[Ended]) -> Result<Vec<Outcome>, AllocError>
    ensures { IfOk result (λ outcomes. vec_len outcomes ≡ length ends.now) }
{
    let mut outcomes = Vec::with_capacity(alloc, ends.len())?;
    for ended in ends {
        outcomes.push(Outcome {
            decision: ended.decision,
            wait: ended.wait(),
            queue: ended.hold.queue,
        })?;
    }
    Ok(outcomes)
}

/// Which stretch of a run is drawn, by the words of a command line.
#[derive(Clone, Copy)]
pub(crate) struct Drawn<'a> {
    pub(crate) from: Option<&'a str>,
    pub(crate) to: Option<&'a str>,
}

/// The time of this edge, in microseconds, if a word says it.
///
/// # Errors
///
/// `BadTime` if it is no time.
pub(crate) fn time_of(word: Option<&str>, edge: Edge) -> Result<Option<u64>, Fault>
    ensures ok { IfOk result (IsTimeFor word.entry) }
    ensures err { IfErr result (λ fault. (fault ≡ Fault.BadTime edge) × IsNoTimeFor word.entry) }
{
    let Some(word) = word else {
        return Ok(None);
    };
    match read_time(word) {
        Some(time) => Ok(Some(time)),
        None => Err(Fault::BadTime(edge)),
    }
}

// The stretch of the run that the words say.
//
// `BadTime` if one of them is no time, and `EndsBefore` if it would end before it begins.
fn window_of(drawn: Drawn<'_>) -> Result<TimeWindow, Fault>
    ensures { IfOk result (IsWindowFor drawn.entry.from drawn.entry.to) }
{
    let first = time_of(drawn.from, Edge::From)?;
    let to = time_of(drawn.to, Edge::To)?;
    let from = first.unwrap_or(0);
    if let Some(last) = to
        && last < from
    {
        return Err(Fault::EndsBefore);
    }
    Ok(TimeWindow { from, to })
}

/// Simulates the trace on the level of the config, and draws the run as one SVG, or a stretch of it.
///
/// # Errors
///
/// The faults of the patience and of what requests are charged, then those of the stretch, then those of the files in the order
/// config, trace, then those of the level, then those of what runs on it, then those of the output; and `TooManyListed`, or of a
/// stretch `TooManyDrawn`.
pub(crate) fn print_picture<F: Files, O: Write, C: Clock, E: Write + IsTerminal>(
    alloc: Global,
    files: &mut F,
    names: (&str, &str),
    way: Way<'_>,
    drawn: Drawn<'_>,
    out: &mut O,
    clock: &C,
    err: &mut E,
) -> Result<(), Fault> {
    let terms = terms_of(way)?;
    let window = window_of(drawn)?;
    let is_whole = drawn.from.is_none() && drawn.to.is_none();
    let listed = match simulated(alloc, files, names, terms, window, out, clock, err) {
        Ok(listed) => listed,
        Err(Fault::TooManyListed) if !is_whole => return Err(Fault::TooManyDrawn),
        Err(fault) => return Err(fault),
    };
    let (config, listed) = listed;
    let outcomes = outcomes_of(alloc, listed.ends.as_slice())?;
    let flows = flows_of(alloc, listed.requests.as_slice())?;
    let scene = Scene {
        config,
        patience: terms.patience,
        from: window.from,
        end: window.to.unwrap_or(listed.end),
        is_whole,
        trace: listed.requests.as_slice(),
        flows: &flows,
        outcomes: outcomes.as_slice(),
    };
    let picture = Picture::of(alloc, &scene)?;
    picture.write(out).map_err(|_| Fault::CannotWrite)
}
