//! The line of a script file.

ghost use Rattle.std.specs.Prelude.{◌≡◌, OnOk, IfSome, Err, option_map};
ghost use Rattle.std.specs.Io.KnownBytes.{Appends};
ghost use Rattle.apf_explain.specs.Lines.{place_text};
ghost use Rattle.apf_files.specs.ScriptLine.{found_line, found_number, IsFoundAt};
ghost use Rattle.apf_explain.specs.ScriptTexts.{mark_of as mark_of_text, shown_of, unknown_request_text, bad_limit_text, no_command_text, line_fault_text, bad_line_text, line_text, IsScriptLine};

use crate::fault::ExplainFault;
use crate::place::{Part, Place};
use crate::reason::mark;
use apf_files::{InScript, MAX_LINES, RefusedScript, ScriptFault};
use apf_words::MAX_LIMIT;
use std::io::Write;
use std::{fmt, io};

// The longest line that is shown, in bytes.
const LONGEST: usize = 64;

const FORMS: &str =
    "a line is arrive N, finish N, cancel N, close or limit N, with one blank before N, which has one to five digits and no zero in front";

// A script's requests: this many, and no others.
#[derive(Clone, Copy)]
struct Known(u32);

impl fmt::Display for Known {
    ghost use Rattle.std.specs.Prelude.{Some};
    ghost use Rattle.apf_explain.specs.ScriptTexts.{known_text};

    ghost output = { λ known. Some (known_text known.0) };

    #[tactic(auto, unfolding(crate::specs::ScriptTexts::known_text))]
    fn fmt<W: fmt::Write>(&self, f: &mut fmt::Formatter<W>) -> fmt::Result {
        match self.0 {
            0 => f.write_str("there are no requests"),
            1 => f.write_str("the only request is 0"),
            requests => {
                let last = requests - 1;
                write!(f, "the requests are 0 to {last}")
            }
        }
    }
}

// Writes that there is no request of the number.
fn write_unknown_request<W: Write>(
    out: &mut W,
    place: Place<'_>,
    number: Option<u32>,
    requests: u32,
) -> io::Result<()>
    ensures { OnOk result (Appends (W.contents out.old) (W.contents out.new) (unknown_request_text (place_text place.entry.name.now place.entry.part) number requests)) }
{
    let known = Known(requests);
    match number {
        Some(number) => writeln!(out, "{place}there is no request {number}: {known}"),
        None => writeln!(out, "{place}there is no such request: {known}"),
    }
}

// Writes that the limit may not be this number.
fn write_bad_limit<W: Write>(out: &mut W, place: Place<'_>, number: Option<u32>) -> io::Result<()>
    ensures { OnOk result (Appends (W.contents out.old) (W.contents out.new) (bad_limit_text (place_text place.entry.name.now place.entry.part) number)) }
{
    match number {
        Some(number) => writeln!(
            out,
            "{place}the limit is {number}: it must be from 1 to {MAX_LIMIT}"
        ),
        None => writeln!(
            out,
            "{place}the limit is bad: it must be from 1 to {MAX_LIMIT}"
        ),
    }
}

// The text that a line is shown as, if it is shown.
fn shown(line: &[u8]) -> Option<&str>
    ensures { option_map (λ text. text.now) result ≡ shown_of line.now }
{
    if line.len() > LONGEST {
        return None;
    }
    std::str::from_utf8(line).ok()
}

// Writes that a line is no command, where it is shown so.
fn write_no_command<W: Write>(out: &mut W, place: Place<'_>, shown: Option<&str>) -> io::Result<()>
    ensures { OnOk result (IfSome (no_command_text (place_text place.entry.name.now place.entry.part) (option_map (λ text. text.now) shown.entry)) (Appends (W.contents out.old) (W.contents out.new))) }
{
    match shown {
        Some(text) => writeln!(out, "{place}{text:?} is no command: {FORMS}"),
        None => writeln!(out, "{place}the line is no command: {FORMS}"),
    }
}

// Writes that this line is no command.
fn write_line_fault<W: Write>(out: &mut W, place: Place<'_>, line: &[u8]) -> io::Result<()>
    ensures { OnOk result (IfSome (line_fault_text (place_text place.entry.name.now place.entry.part) line.now) (Appends (W.contents out.old) (W.contents out.new))) }
{
    if line.is_empty() {
        return writeln!(out, "{place}the line is empty: {FORMS}");
    }
    if line.ends_with(b"\r".as_slice()) {
        return writeln!(
            out,
            "{place}the line ends with CR: a line ends with LF alone"
        );
    }
    write_no_command(out, place, shown(line))
}

// Writes that a line is no command, and the line, if it was found.
fn write_bad_line<W: Write>(out: &mut W, place: Place<'_>, found: InScript<'_>) -> io::Result<()>
    ensures { OnOk result (IfSome (bad_line_text (place_text place.entry.name.now place.entry.part) (found_line found.entry)) (Appends (W.contents out.old) (W.contents out.new))) }
{
    match found {
        InScript::Line(line) => write_line_fault(out, place, line),
        InScript::Nothing | InScript::Number(_) => write_no_command(out, place, None),
    }
}

// The number that was found.
fn number_of(found: InScript<'_>) -> Option<u32>
    ensures { result ≡ found_number found.entry }
{
    match found {
        InScript::Number(number) => Some(number),
        InScript::Nothing | InScript::Line(_) => None,
    }
}

// What is said of how a script begins, where its first line is no command, or has no end.
fn mark_of(bytes: &[u8], fault: ScriptFault) -> Option<&'static str>
    ensures { option_map (λ why. why.now) result ≡ mark_of_text bytes.now fault }
{
    match fault {
        ScriptFault::Truncated(1) | ScriptFault::BadLine(1) => mark(bytes),
        _ => None,
    }
}

// Writes what is wrong with a line, by what was found there.
fn write_line<W: Write>(
    out: &mut W,
    place: Place<'_>,
    found: InScript<'_>,
    requests: u32,
    fault: ScriptFault,
) -> io::Result<()>
    ensures { OnOk result (IfSome (line_text (place_text place.entry.name.now place.entry.part) (found_line found.entry) (found_number found.entry) requests fault)
        (Appends (W.contents out.old) (W.contents out.new))) }
{
    match fault {
        ScriptFault::TooLong(_) => writeln!(out, "{place}there are more than {MAX_LINES} lines"),
        ScriptFault::Truncated(_) => writeln!(out, "{place}the last line has no LF at its end"),
        ScriptFault::UnknownRequest(_) => {
            write_unknown_request(out, place, number_of(found), requests)
        }
        ScriptFault::BadLimit(_) => write_bad_limit(out, place, number_of(found)),
        ScriptFault::BadLine(_) | ScriptFault::NoMemory => write_bad_line(out, place, found),
    }
}

/// Writes the fault of a script file as one line for a person.
///
/// `refused` is what `judge_script` answers for these bytes and this number of requests. Where that is so, the line that
/// is shown is the one that it was answered for: see `every_script_fault_is_shown`. Lines count from 1.
///
/// # Errors
///
/// [`ExplainFault::NoMemory`] if, by the fault, memory was refused to the reader, and then nothing is written.
/// [`ExplainFault::CannotWrite`] if the writer failed.
pub fn explain_script<W: Write>(
    name: &str,
    bytes: &[u8],
    requests: u32,
    refused: RefusedScript<'_>,
    out: &mut W,
) -> Result<(), ExplainFault>
    requires { IsFoundAt bytes.now refused.fault refused.found }
    ensures line { OnOk result (IsScriptLine name.now bytes.now requests refused.entry.fault (W.contents out.old) (W.contents out.new)) }
    ensures refused { refused.entry.fault ≡ ScriptFault.NoMemory → (result ≡ Err ExplainFault.NoMemory) × (out.new ≡ out.old) }
    ensures memory { result ≡ Err ExplainFault.NoMemory → refused.entry.fault ≡ ScriptFault.NoMemory }
{
    let RefusedScript { fault, found } = refused;
    match fault {
        ScriptFault::NoMemory => Err(ExplainFault::NoMemory),
        ScriptFault::TooLong(number)
        | ScriptFault::Truncated(number)
        | ScriptFault::BadLine(number)
        | ScriptFault::UnknownRequest(number)
        | ScriptFault::BadLimit(number) => {
            let part = Part::Line(number);
            let place = Place { name, part };
            if let Some(why) = mark_of(bytes, fault) {
                return Ok(writeln!(out, "{place}this is no script{why}")?);
            }
            Ok(write_line(out, place, found, requests, fault)?)
        }
    }
}
