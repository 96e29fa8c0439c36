//! The line of a fault of a server's own log.

ghost use Rattle.std.specs.Prelude.{◌≡◌, OnOk, option_map};
ghost use Rattle.std.specs.Io.KnownBytes.{Appends};
ghost use Rattle.apf_cluster_text.specs.ServerFaults as spec;

use crate::said::write_said;
use apf_request_lines::{Key, RequestLineFault, written_at};
use std::io;
use std::io::Write;

// The number of a fault.
fn number_of(fault: RequestLineFault) -> u8
    ensures { result ≡ spec.number_of fault }
{
    match fault {
        RequestLineFault::NoMemory => 0,
        RequestLineFault::Unended => 1,
        RequestLineFault::NotOfKind(_) => 2,
        RequestLineFault::TooLong => 3,
    }
}

// Writes the number of a fault, and that of its line.
#[tactic(auto, unfolding(crate::specs::ServerFaults::place_text))]
fn write_place<W: Write>(out: &mut W, number: u64, fault: RequestLineFault) -> io::Result<()>
    ensures { OnOk result (Appends (W.contents out.old) (W.contents out.new) (spec.place_text number fault)) }
{
    let fault = number_of(fault);
    write!(out, "apf: server log fault {fault} at line {number}: ")
}

// Writes the value that a key has in a line, if it has one.
fn write_value<W: Write>(out: &mut W, value: Option<&[u8]>) -> io::Result<()>
    ensures { OnOk result (Appends (W.contents out.old) (W.contents out.new) (spec.value_text (option_map (λ bytes. bytes.now) value.entry))) }
{
    match value {
        Some(bytes) => write_said(out, bytes),
        None => out.write_all(b"absent"),
    }
}

// Writes a key, and what its value is in a line.
#[tactic(auto, unfolding(crate::specs::ServerFaults::found_text))]
fn write_found<W: Write>(out: &mut W, key: Key, line: &[u8]) -> io::Result<()>
    ensures { OnOk result (Appends (W.contents out.old) (W.contents out.new) (spec.found_text key line.now)) }
{
    write!(out, "{key} is ")?;
    write_value(out, written_at(key, line))
}

// What the value of a key has to be.
fn wanted_of(key: Key) -> &'static str
    ensures { result.now ≡ spec.wanted_of key }
{
    match key {
        Key::AuditId | Key::Schema | Key::Level => ": it must be a text as Go quotes one",
        Key::Seats | Key::FinalSeats => ": it must be a whole number from 0 to 10000",
        Key::ExecutionTime | Key::AdditionalLatency => {
            ": it must be a time as 1.5s or 20ms, from 0 to 10000 seconds"
        }
    }
}

// Writes that the value of a key is none of its kind.
#[tactic(auto, unfolding(crate::specs::ServerFaults::not_of_kind_text))]
fn write_not_of_kind<W: Write>(out: &mut W, key: Key, line: &[u8]) -> io::Result<()>
    ensures { OnOk result (Appends (W.contents out.old) (W.contents out.new) (spec.not_of_kind_text key line.now)) }
{
    write_found(out, key, line)?;
    out.write_all(wanted_of(key).as_bytes())
}

// Writes that the two times are too long together.
#[tactic(auto, unfolding(crate::specs::ServerFaults::too_long_text))]
fn write_too_long<W: Write>(out: &mut W, line: &[u8]) -> io::Result<()>
    ensures { OnOk result (Appends (W.contents out.old) (W.contents out.new) (spec.too_long_text line.now)) }
{
    write_found(out, Key::ExecutionTime, line)?;
    out.write_all(b" and ")?;
    write_found(out, Key::AdditionalLatency, line)?;
    out.write_all(b": together they must be at most 10000 seconds")
}

// Writes what is wrong.
fn write_reason<W: Write>(out: &mut W, line: &[u8], fault: RequestLineFault) -> io::Result<()>
    ensures { OnOk result (Appends (W.contents out.old) (W.contents out.new) (spec.reason_text line.now fault)) }
{
    match fault {
        RequestLineFault::NoMemory => out.write_all(b"out of memory"),
        RequestLineFault::Unended => {
            out.write_all(b"a value begins with a quote, and no quote ends it")
        }
        RequestLineFault::NotOfKind(key) => write_not_of_kind(out, key, line),
        RequestLineFault::TooLong => write_too_long(out, line),
    }
}

/// Writes the line of the fault that the line of this number of a server's own log has: the number of the fault, the key, its value
/// as it stands in that line, and what has to stand there. `line` has the bytes of that line, without its LF.
///
/// # Errors
///
/// The writer's. Then nothing is known of how much was written.
#[tactic(auto, unfolding(crate::specs::ServerFaults::fault_text))]
pub fn write_server_fault<W: Write>(
    out: &mut W,
    number: u64,
    line: &[u8],
    fault: RequestLineFault,
) -> io::Result<()>
    ensures { OnOk result (Appends (W.contents out.old) (W.contents out.new) (spec.fault_text number line.now fault)) }
{
    write_place(out, number, fault)?;
    write_reason(out, line, fault)?;
    out.write_all(b"\n")
}
