//! The line of a trace's fault.

ghost use Rattle.std.specs.Prelude.{◌≡◌, OnOk, IfOk, IfErr, IfSome, Err, Some, None, codes, option_map};
ghost use Rattle.std.specs.Io.KnownBytes.{Appends};
ghost use Rattle.serde_json.specs.View.{view};
ghost use Rattle.apf_traces.specs.TraceFaults.{line_of, trace_fault_number};
ghost use Rattle.apf_explain.specs.declared.place.Part.TheVariants.{Fault};
ghost use Rattle.apf_explain.specs.Lines.{place_text};
ghost use Rattle.apf_explain.specs.TraceLines.{file_said as file_said_of, late_text, trace_value_text, IsPlacedLine, IsTraceLineAt, IsTraceLine};

use crate::fault::ExplainFault;
use crate::flow::write_bad_flow;
use crate::found::Found;
use crate::json::{value_at, write_unwanted};
use crate::keys::{Keys, write_unknown_key};
use crate::likeness::whole_said;
use crate::lines::{line_value, numbered, write_not_json, write_required, write_too_long};
use crate::place::{Part, Place};
use crate::wanted::Wanted;
use apf_times::{MOST_ARRIVES_AT, MOST_RUNS_FOR};
use apf_traces::{MAX_BYTES, MAX_LINES, TraceFault};
use apf_words::{MAX_COST, MAX_WIDTH};
use serde_json::Value;
use std::alloc::Global;
use std::io;
use std::io::Write;

// Writes that a request comes too late.
fn write_late<W: Write>(out: &mut W, place: Place<'_>) -> io::Result<()>
    ensures { OnOk result (Appends (W.contents out.old) (W.contents out.new) (late_text (place_text place.entry.name.now place.entry.part))) }
{
    writeln!(out, "{place}arrives more than 131072 requests late")
}

// Writes the fault of a request of a trace that is the value.
fn write_value<W: Write>(
    out: &mut W,
    place: Place<'_>,
    value: Option<&Value>,
    fault: TraceFault,
) -> io::Result<()>
    ensures { OnOk result (IfSome (trace_value_text (place_text place.entry.name.now place.entry.part) (option_map (λ value. view value.now) value.entry) fault)
        (Appends (W.contents out.old) (W.contents out.new))) }
{
    match fault {
        TraceFault::UnknownKey(_) => write_unknown_key(out, place, Keys::OfTrace, value),
        TraceFault::BadArrival(_) => write_required(
            out,
            place,
            "arrivesAt",
            value_at(value, "arrivesAt"),
            Wanted::Micros(MOST_ARRIVES_AT),
        ),
        TraceFault::BadRun(_) => write_required(
            out,
            place,
            "runsFor",
            value_at(value, "runsFor"),
            Wanted::Micros(MOST_RUNS_FOR),
        ),
        TraceFault::BadFlow(_) => write_bad_flow(out, place, value),
        TraceFault::BadWidth(_) => write_unwanted(
            out,
            place,
            "width",
            value_at(value, "width"),
            Wanted::Whole(1, u64::from(MAX_WIDTH)),
        ),
        TraceFault::BadCost(_) => write_unwanted(
            out,
            place,
            "cost",
            value_at(value, "cost"),
            Wanted::Whole(1, u64::from(MAX_COST)),
        ),
        TraceFault::TooLate(_) => write_late(out, place),
        _ => {
            let found = Found(value);
            writeln!(
                out,
                "{place}a request is a JSON object, but this is {found}"
            )
        }
    }
}

// What is said of the file of a fault: of one whose first line is no JSON, what it is, where it is no trace.
fn file_said(
    alloc: Global,
    bytes: &[u8],
    fault: TraceFault,
) -> Result<Option<&'static str>, ExplainFault>
    ensures ok { IfOk result (λ said. option_map (λ text. text.now) said ≡ file_said_of fault bytes.now) }
    ensures memory { IfErr result (λ told. told ≡ ExplainFault.NoMemory) }
{
    match fault {
        TraceFault::NotUtf8Json(1) => whole_said(alloc, bytes),
        _ => Ok(None),
    }
}

// Writes the fault of this line, where `file` is what is said of its file.
fn write_line<W: Write>(
    alloc: Global,
    out: &mut W,
    place: Place<'_>,
    line: Option<&[u8]>,
    fault: TraceFault,
    file: Option<&'static str>,
) -> Result<(), ExplainFault>
    ensures line { OnOk result (IsTraceLineAt (place_text place.entry.name.now place.entry.part) (option_map (λ line. line.now) line.entry) (option_map (λ said. said.now) file.entry) fault
        (W.contents out.old) (W.contents out.new)) }
    ensures memory { result ≡ Err ExplainFault.NoMemory → out.new ≡ out.old }
{
    match fault {
        TraceFault::NotUtf8Json(_) => write_not_json(alloc, out, place, line, file),
        TraceFault::TooMany(_) => Ok(writeln!(
            out,
            "{place}there are more than {MAX_LINES} lines"
        )?),
        TraceFault::TooLong(_) => Ok(write_too_long(out, place, MAX_BYTES, line)?),
        TraceFault::Truncated(_) => {
            Ok(writeln!(out, "{place}the last line has no LF at its end")?)
        }
        TraceFault::NotObject(_)
        | TraceFault::UnknownKey(_)
        | TraceFault::BadArrival(_)
        | TraceFault::BadRun(_)
        | TraceFault::BadFlow(_)
        | TraceFault::BadWidth(_)
        | TraceFault::BadCost(_)
        | TraceFault::TooLate(_)
        | TraceFault::NoMemory => {
            let value = line_value(alloc, line)?;
            Ok(write_value(out, place, value.as_ref(), fault)?)
        }
    }
}

// Where the fault of the line of this number is.
fn place_of(fault: TraceFault, number: u64) -> Place<'static>
    ensures { place_text result.name.now result.part ≡ place_text (codes "apf: trace") (Fault (trace_fault_number fault) number) }
{
    Place {
        name: "apf: trace",
        part: Part::Fault(fault.number(), number),
    }
}

/// Writes the fault of a trace as the one line of standard error.
///
/// `fault` is what `read_trace` answers for these bytes. Where that is so, the line names the key and the value that
/// it was answered for, and what has to stand there: see `every_trace_fault_is_shown`.
///
/// Of a line that is no JSON the column is told at which the reader stopped. Columns count bytes from 1.
///
/// # Errors
///
/// [`ExplainFault::NoMemory`] if memory was refused, here or, by the fault, to the reader, and then nothing is written.
/// [`ExplainFault::CannotWrite`] if the writer failed.
pub fn explain_trace<W: Write>(
    alloc: Global,
    bytes: &[u8],
    fault: TraceFault,
    out: &mut W,
) -> Result<(), ExplainFault>
    ensures line { OnOk result (IsTraceLine bytes.now fault (W.contents out.old) (W.contents out.new)) }
    ensures refused { fault ≡ TraceFault.NoMemory → (result ≡ Err ExplainFault.NoMemory) × (out.new ≡ out.old) }
    ensures memory { result ≡ Err ExplainFault.NoMemory → out.new ≡ out.old }
{
    let Some(number) = fault.line() else {
        return Err(ExplainFault::NoMemory);
    };
    let place = place_of(fault, number);
    let file = file_said(alloc, bytes, fault)?;
    let line = numbered(bytes, number);
    write_line(alloc, out, place, line, fault, file)
}

/// Writes the fault of a trace that is read in pieces as the one line of standard error.
///
/// `line` is the line that has the fault, without its LF.
///
/// # Errors
///
/// [`ExplainFault::NoMemory`] if memory was refused, here or, by the fault, to the reader, and then nothing is written.
/// [`ExplainFault::CannotWrite`] if the writer failed.
pub fn explain_trace_line<W: Write>(
    alloc: Global,
    line: &[u8],
    fault: TraceFault,
    out: &mut W,
) -> Result<(), ExplainFault>
    ensures line { OnOk result (IsPlacedLine (Some line.now) None fault (line_of fault) (W.contents out.old) (W.contents out.new)) }
    ensures refused { fault ≡ TraceFault.NoMemory → (result ≡ Err ExplainFault.NoMemory) × (out.new ≡ out.old) }
    ensures memory { result ≡ Err ExplainFault.NoMemory → out.new ≡ out.old }
{
    let Some(number) = fault.line() else {
        return Err(ExplainFault::NoMemory);
    };
    write_line(alloc, out, place_of(fault, number), Some(line), fault, None)
}
