//! The lines of a file that has a JSON value on each.

ghost use Rattle.std.specs.Prelude.{◌≡◌, ◌-◌, OnOk, IfOk, IfErr, IfSome, Err, option_map, option_and_then};
ghost use Rattle.std.specs.Io.KnownBytes.{Appends};
ghost use Rattle.serde_json.specs.Find.{get};
ghost use Rattle.serde_json.specs.View.{view};
ghost use Rattle.apf_files.specs.JsonFile.{value_of as value_of_bytes};
ghost use Rattle.apf_traces.specs.TraceFile.{lines_of};
ghost use Rattle.apf_explain.specs.Lines.{place_text};
ghost use Rattle.apf_explain.specs.TraceLines.{nth_line, numbered_line, required_text, too_long_text, column_text, IsColumnLine};

use crate::fault::ExplainFault;
use crate::json::{value_at, write_unwanted};
use crate::place::Place;
use crate::reason::line_reason_in;
use crate::wanted::Wanted;
use apf_files::{every_text_is_what_was_read, value_of};
use apf_traces::first_line;
use serde_json::{Error, Value};
use std::alloc::Global;
use std::io;
use std::io::Write;

/// The line of this number, from 1.
pub(crate) fn numbered(bytes: &[u8], number: u64) -> Option<&[u8]>
    ensures { option_map (λ line. line.now) result ≡ numbered_line number bytes.now }
{
    let mut rest = bytes;
    let mut earlier = number.saturating_sub(1);
    while !rest.is_empty() {
        let first = first_line(rest);
        if earlier == 0 {
            return Some(first.line);
        }
        rest = first.rest;
        earlier -= 1;
    }
    None
}

/// The value of a line, if it is there and JSON.
pub(crate) fn line_value(alloc: Global, line: Option<&[u8]>) -> Result<Option<Value>, ExplainFault>
    ensures value { IfOk result (λ value. option_map view value ≡ option_and_then value_of_bytes (option_map (λ line. line.now) line.entry)) }
    ensures memory { IfErr result (λ fault. fault ≡ ExplainFault.NoMemory) }
{
    match line {
        Some(line) => Ok(value_of(alloc, line)?),
        None => Ok(None),
    }
}

/// Writes that a key is missing, or has a value that may not stand there.
pub(crate) fn write_required<W: Write>(
    out: &mut W,
    place: Place<'_>,
    key: &str,
    found: Option<&Value>,
    wanted: Wanted,
) -> io::Result<()>
    ensures { OnOk result (IfSome (required_text (place_text place.entry.name.now place.entry.part) key.now (option_map (λ value. view value.now) found.entry) wanted)
        (Appends (W.contents out.old) (W.contents out.new))) }
{
    match found {
        Some(_) => write_unwanted(out, place, key, found, wanted),
        None => writeln!(out, "{place}the key {key} is missing: it must be {wanted}"),
    }
}

/// Writes that a line has more bytes than this many.
pub(crate) fn write_too_long<W: Write>(
    out: &mut W,
    place: Place<'_>,
    most: usize,
    line: Option<&[u8]>,
) -> io::Result<()>
    ensures { OnOk result (Appends (W.contents out.old) (W.contents out.new) (too_long_text (place_text place.entry.name.now place.entry.part) most (option_map (λ line. line.now) line.entry))) }
{
    match line {
        Some(line) => {
            let count = line.len();
            writeln!(
                out,
                "{place}the line has {count} bytes: at most {most} may be there"
            )
        }
        None => writeln!(out, "{place}the line has more than {most} bytes"),
    }
}

/// Writes at which column of a line the reader stopped, and why.
pub fn write_column<W: Write>(
    out: &mut W,
    place: Place<'_>,
    column: usize,
    why: &str,
) -> io::Result<()>
    ensures { OnOk result (Appends (W.contents out.old) (W.contents out.new) (column_text (place_text place.entry.name.now place.entry.part) column why.now)) }
{
    writeln!(out, "{place}this is not JSON at column {column}{why}")
}

// Writes where these bytes stop to be JSON, and why, where `file` is what is said of their file.
fn write_stop<W: Write>(
    alloc: Global,
    out: &mut W,
    place: Place<'_>,
    bytes: &[u8],
    file: Option<&'static str>,
) -> Result<(), ExplainFault>
    ensures line { OnOk result (IsColumnLine (place_text place.entry.name.now place.entry.part) (Some bytes.now) (option_map (λ said. said.now) file.entry) (value_of_bytes bytes.now) (W.contents out.old) (W.contents out.new)) }
    ensures memory { result ≡ Err ExplainFault.NoMemory → out.new ≡ out.old }
{
    every_text_is_what_was_read();
    match Value::from_slice(alloc, bytes) {
        Ok(_) => Ok(writeln!(out, "{place}this is not JSON")?),
        Err(e) if e.is_memory() => Err(ExplainFault::NoMemory),
        Err(e) => {
            let why = line_reason_in(alloc, bytes, &e, file)?;
            Ok(write_column(out, place, e.column(), why)?)
        }
    }
}

/// Writes where a line stops to be JSON, and why, where `file` is what is said of its file.
pub(crate) fn write_not_json<W: Write>(
    alloc: Global,
    out: &mut W,
    place: Place<'_>,
    line: Option<&[u8]>,
    file: Option<&'static str>,
) -> Result<(), ExplainFault>
    ensures line { OnOk result (IsColumnLine (place_text place.entry.name.now place.entry.part) (option_map (λ line. line.now) line.entry) (option_map (λ said. said.now) file.entry) (option_and_then value_of_bytes (option_map (λ line. line.now) line.entry)) (W.contents out.old) (W.contents out.new)) }
    ensures memory { result ≡ Err ExplainFault.NoMemory → out.new ≡ out.old }
{
    match line {
        Some(line) => write_stop(alloc, out, place, line, file),
        None => Ok(write_column(out, place, 0, "")?),
    }
}
