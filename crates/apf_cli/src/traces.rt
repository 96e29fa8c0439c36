//! The commands on a trace: each reads its files, and prints.

ghost use Rattle.std.specs.Prelude.{◌≡◌, ◌≤◌, All, IfErr, IfOk, vec_len};
ghost use Rattle.apf_cli.specs.Choices.{IsChargeNamed, IsNoChargeFor};
ghost use Rattle.apf_traces.specs.TraceFile.{max_lines};
ghost use Rattle.apf_traces.specs.TraceValue.{IsRequestInRange};

use crate::faults::Fault;
use crate::files::{Files, Input, Source, judge_names, read_input};
use crate::measuring::Measure;
use crate::notes::note_no_flow;
use crate::progress::{Amount, Followed, ProgressLine};
use crate::reading::{config_of, level_fault};
use crate::streaming::open_trace;
use crate::telling::{named, trace_fault, unread_trace_fault};
use apf_charges::ChargedBy;
use apf_commands::read_patience;
use apf_flows::write_requests;
use apf_hands::{FlowsFault, write_flows};
use apf_run::Config;
use apf_trace_reader::{TraceReader, WINDOW};
use apf_traces::{TraceRequest, read_trace};
use std::alloc::Global;
use std::io::{IsTerminal, Write};
use std::time::Clock;

/// In which way a trace is simulated, by the words of a command line.
#[derive(Clone, Copy)]
pub(crate) struct Way<'a> {
    /// How long a request waits before it gives up.
    pub(crate) patience: &'a str,
    /// What requests are charged.
    pub(crate) charge: Option<&'a str>,
}

/// The patience that a command line names, in microseconds.
///
/// # Errors
///
/// `BadPatience` if it is no time, or more than 1,000 seconds.
pub(crate) fn patience_of(text: &str) -> Result<u64, Fault>
    ensures { IfOk result (λ patience. patience ≤ 1000000000) }
{
    match read_patience(text) {
        Some(patience) => Ok(u64::from(patience)),
        None => Err(Fault::BadPatience),
    }
}

/// What requests are charged, by the word of a command line, if one is given.
///
/// # Errors
///
/// `BadCharge` if it is neither `time` nor `seats`.
pub(crate) fn charge_of(word: Option<&str>) -> Result<Option<ChargedBy>, Fault>
    ensures ok { IfOk result (IsChargeNamed word.entry) }
    ensures err { IfErr result (λ fault. (fault ≡ Fault.BadCharge) × IsNoChargeFor word.entry) }
{
    let Some(word) = word else {
        return Ok(None);
    };
    match ChargedBy::named(word) {
        Some(by) => Ok(Some(by)),
        None => Err(Fault::BadCharge),
    }
}

/// Reads the trace.
pub(crate) fn read_requests<F: Files>(
    alloc: Global,
    files: &mut F,
    trace: &str,
) -> Result<Vec<TraceRequest>, Fault>
    ensures few { IfOk result (λ trace. vec_len trace ≤ max_lines) }
    ensures ranges { IfOk result (λ trace. All IsRequestInRange trace.items) }
{
    let bytes = match read_input(files, Input::Trace, trace) {
        Ok(bytes) => bytes,
        Err(fault) => return Err(named(alloc, trace, fault)),
    };
    match read_trace(alloc, bytes.as_slice()) {
        Ok(requests) => Ok(requests),
        Err(fault) => Err(trace_fault(alloc, bytes.as_slice(), fault)),
    }
}

/// Prints the requests file of the trace.
///
/// # Errors
///
/// The faults of the trace; `Unreadable` if the file has more bytes than `replay` reads; then those of the output.
pub(crate) fn print_requests<F: Files, O: Write>(
    alloc: Global,
    files: &mut F,
    trace: &str,
    out: &mut O,
) -> Result<(), Fault> {
    let trace = read_requests(alloc, files, trace)?;
    let mut size = Measure::new();
    write_requests(trace.as_slice(), &mut size).map_err(|_| Fault::CannotWrite)?;
    size.judge(Input::Requests)?;
    write_requests(trace.as_slice(), out).map_err(|_| Fault::CannotWrite)
}

// The fault of the hands of a trace of this name, on a level whose config is in the file of the other one.
fn hands_fault<F: Files>(
    alloc: Global,
    names: (&str, &str),
    config: &Config,
    reader: &TraceReader,
    input: &mut Source<'_, F>,
    fault: FlowsFault,
) -> Fault {
    match fault {
        FlowsFault::Trace(fault) => unread_trace_fault(alloc, names.1, reader, input, fault),
        FlowsFault::Hands(fault) => {
            level_fault(alloc, names.0, config, fault.into()).told(alloc, true)
        }
    }
}

/// Prints the hands of the trace's flows on the level of the config, or of those of one distinguisher. That no flow has it
/// is said on `err`. The trace is read in pieces, so it may have any length.
///
/// # Errors
///
/// The faults of the files in the order config, trace, then the dealer's, then those of the output.
pub(crate) fn print_hands<'n, F: Files, O: Write, C: Clock, E: Write + IsTerminal>(
    alloc: Global,
    files: &mut F,
    names: (&str, &str),
    flow: Option<&str>,
    out: &mut O,
    clock: &'n C,
    err: &'n mut E,
) -> Result<(), Fault> {
    judge_names(&[names.0, names.1])?;
    let config = config_of(alloc, files, names.0)?;
    let amount = Amount::of(None);
    let mut input = open_trace(alloc, files, names.1)?;
    let mut reader = TraceReader::new(alloc, WINDOW)?;
    let mut line = ProgressLine::new(clock, &mut *err, false, &amount);
    amount.is_of(input.size());
    let mut followed = Followed {
        input: &mut input,
        line: &mut line,
    };
    let written = write_flows(alloc, &config, &mut reader, &mut followed, flow, out);
    line.clear();
    drop(line);
    match written {
        Ok(is_found) => {
            if let Some(name) = flow
                && !is_found
            {
                note_no_flow(name, err);
            }
            Ok(())
        }
        Err(fault) => Err(hands_fault(alloc, names, &config, &reader, &mut input, fault)),
    }
}
