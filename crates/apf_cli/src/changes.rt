//! The changes of a second cluster, and the lines on standard error of one that is refused.

ghost use Rattle.std.specs.Prelude.{◌≡◌, ◌≢◌, IfErr, IfOk, Ok, OnOk, map, string_bytes};
ghost use Rattle.clap.specs.Walk.{texts as texts_now};
ghost use Rattle.apf_changes.specs.Applying.{with_texts};
ghost use Rattle.apf_changes.specs.Scenarios.{scenario_view};

use crate::faults::Fault;
use apf_changes::{
    Bounds, Change, ChangeFault, LevelChange, LevelNumber, Refused, Scenario, SchemaChange, Wanted,
    apply_all, read_change,
};
use apf_flows::{write_escaped, write_text};
use std::alloc::{AllocError, Global};
use std::io;
use std::io::Write;

// The keys that a change may have.
const KEYS: &str =
    "LEVEL.shares, .lendable, .borrowing, .queues, .hand, .length, .response or .seats, schema:NAME.precedence, .level, .by or .rate, user:NAME.rate, or server.seats";

// What may stand behind the `=`.
fn wanted_words(wanted: Wanted) -> &'static str {
    match wanted {
        Wanted::Number => {
            "a whole number below 4294967296, as 20, or one behind * or +, as *2 or +20"
        }
        Wanted::NumberOrNone => {
            "a whole number below 4294967296, as 20, or one behind * or +, as *2 or +20, or none"
        }
        Wanted::Response => "Queue or Reject",
        Wanted::Distinguisher => "user, namespace or none",
        Wanted::Rate => {
            "0, or a whole number below 4294967296 with x behind it, as 2x, or one behind * or +, as *2 or +1"
        }
    }
}

// What a number of a level is.
fn number_words(number: LevelNumber) -> &'static str {
    match number {
        LevelNumber::Shares => "the number of the level's shares",
        LevelNumber::Lendable => "how many per cent of its nominal limit the level lends at most",
        LevelNumber::Borrowing => {
            "how many per cent of its nominal limit the level borrows at most"
        }
        LevelNumber::Queues => "the number of the level's queues",
        LevelNumber::Hand => "the number of queues that a flow is dealt",
        LevelNumber::Length => "the number of requests that may wait in a queue",
    }
}

// What a change is of, where it is a number.
fn changed_words(change: &Change<'_>) -> &'static str {
    match *change {
        Change::ServerSeats(_) => "the number of the server's seats",
        Change::LevelSeats(_, _) => "the nominal limit of the level",
        Change::UserRate(_, _) => "how often a request of the user comes",
        Change::SchemaRate(_, _) => "how often a request of the schema comes",
        Change::Level(_, LevelChange::Number(number, _)) => number_words(number),
        Change::Level(_, LevelChange::BorrowsAll) => number_words(LevelNumber::Borrowing),
        Change::Schema(_, SchemaChange::Precedence(_)) => "the precedence of the schema",
        // no numbers
        Change::Level(_, LevelChange::Response(_))
        | Change::Schema(_, SchemaChange::By(_))
        | Change::SchemaLevel(_, _) => "the value",
    }
}

// The name of the level that a change is of, or that it gives a schema.
fn level_of<'a>(change: &Change<'a>) -> &'a str {
    match *change {
        Change::LevelSeats(level, _) | Change::Level(level, _) | Change::SchemaLevel(_, level) =>
            level,
        Change::ServerSeats(_)
        | Change::UserRate(_, _)
        | Change::SchemaRate(_, _)
        | Change::Schema(_, _) => "",
    }
}

// The name of the schema that a change is of.
fn schema_of<'a>(change: &Change<'a>) -> &'a str {
    match *change {
        Change::SchemaRate(schema, _)
        | Change::Schema(schema, _)
        | Change::SchemaLevel(schema, _) => schema,
        Change::ServerSeats(_)
        | Change::UserRate(_, _)
        | Change::LevelSeats(_, _)
        | Change::Level(_, _) => "",
    }
}

// Writes a name between two texts.
fn write_named<W: Write>(out: &mut W, front: &[u8], name: &str, end: &[u8]) -> io::Result<()> {
    out.write_all(front)?;
    write_text(out, name)?;
    out.write_all(end)
}

// Writes what stands behind the `=` of a text, and what may.
fn write_bad_value<W: Write>(out: &mut W, text: &str, wanted: Wanted) -> io::Result<()> {
    if let Some((key, value)) = text.rsplit_once('=') {
        write_escaped(out, key)?;
        write_named(out, b" is ", value, b": ")?;
    }
    let words = wanted_words(wanted);
    write!(out, "it must be {words}")
}

// Writes that what stands before the `=` of a text is no key, and what may stand there.
fn write_unknown_key<W: Write>(out: &mut W, text: &str) -> io::Result<()> {
    if let Some((key, _)) = text.rsplit_once('=') {
        write_named(out, b"there is no key ", key, b": ")?;
    }
    write!(out, "it must be {KEYS}")
}

// Writes which number a change means, and within which bounds it may be.
fn write_bounds<W: Write>(
    out: &mut W,
    change: &Change<'_>,
    number: u64,
    bounds: Bounds,
) -> io::Result<()> {
    let Bounds { low, high } = bounds;
    let words = changed_words(change);
    write!(
        out,
        "{words} would be {number}: it must be a whole number from {low} to {high}"
    )
}

// Writes why a change that was read is not carried out.
fn write_refusal<W: Write>(out: &mut W, change: &Change<'_>, fault: ChangeFault) -> io::Result<()> {
    let level = level_of(change);
    let schema = schema_of(change);
    match fault {
        ChangeFault::NoLevel => write_named(
            out,
            b"there is no level ",
            level,
            b": apf objects lists those of a cluster",
        ),
        ChangeFault::NoSchema => write_named(
            out,
            b"there is no schema ",
            schema,
            b": apf objects lists those of a cluster",
        ),
        ChangeFault::Dangling => write_named(
            out,
            b"the level of the schema ",
            schema,
            b" is not there: only its level can be changed",
        ),
        ChangeFault::Exempt => write_named(
            out,
            b"the level ",
            level,
            b" is exempt: only its shares, lendable and seats can be changed",
        ),
        ChangeFault::NoQueues => write_named(
            out,
            b"the level ",
            level,
            b" rejects, so it has no queues: with the response Queue it has some",
        ),
        ChangeFault::NoNumber => write_named(
            out,
            b"the level ",
            level,
            b" borrows without a limit, so there is no number for * and +: it must be a whole number, or none",
        ),
        ChangeFault::OutOfBounds(number, bounds) => write_bounds(out, change, number, bounds),
        ChangeFault::NoValue
        | ChangeFault::UnknownKey
        | ChangeFault::BadValue(_)
        | ChangeFault::NoMemory => write!(out, "{fault}"),
    }
}

// Writes why the change of a text is refused.
fn write_reason<W: Write>(out: &mut W, text: &str, fault: ChangeFault) -> io::Result<()> {
    match fault {
        ChangeFault::NoValue => out.write_all(b"there is no =: it must be KEY=VALUE"),
        ChangeFault::UnknownKey => write_unknown_key(out, text),
        ChangeFault::BadValue(wanted) => write_bad_value(out, text, wanted),
        _ => match read_change(text) {
            Ok(change) => write_refusal(out, &change, fault),
            // never, since it was read before
            Err(_) => write!(out, "{fault}"),
        },
    }
}

// Writes the line of the change of a text that is refused.
fn write_refused<W: Write>(out: &mut W, text: &str, fault: ChangeFault) -> io::Result<()> {
    out.write_all(b"apf: --set ")?;
    write_escaped(out, text)?;
    out.write_all(b": ")?;
    write_reason(out, text, fault)?;
    out.write_all(b"\n")
}

// The fault of a change of these texts that is refused.
fn refused_fault(alloc: Global, texts: &[&str], refused: Refused) -> Fault
    ensures { refused.fault ≡ ChangeFault.NoMemory → result ≡ Fault.NoMemory }
{
    if refused.fault == ChangeFault::NoMemory {
        return Fault::NoMemory;
    }
    let text = texts.get(refused.place).copied().unwrap_or("");
    let mut line = Vec::new(alloc);
    match write_refused(&mut line, text, refused.fault) {
        Ok(()) => Fault::Change(line),
        Err(_) => Fault::NoMemory,
    }
}

// Copies of these texts.
fn copies(alloc: Global, texts: &[&str]) -> Result<Vec<String>, AllocError>
    ensures { IfOk result (λ all. map string_bytes all.items ≡ texts_now texts.now) }
{
    let mut all = Vec::new(alloc);
    for text in texts {
        all.push(String::from_str(alloc, text)?)?;
    }
    Ok(all)
}

/// A scenario with the changes of these texts, one after the other.
///
/// # Errors
///
/// `Change` with the line of the first one that is refused, or `NoMemory`.
pub(crate) fn changed(alloc: Global, scenario: Scenario, texts: &[&str]) -> Result<Scenario, Fault>
    ensures { IfOk result (λ after. with_texts 0 (texts_now texts.now) (scenario_view scenario) ≡ Ok (scenario_view after)) }
{
    let all = copies(alloc, texts)?;
    match apply_all(alloc, scenario, all.as_slice()) {
        Ok(scenario) => Ok(scenario),
        Err(refused) => Err(refused_fault(alloc, texts, refused)),
    }
}
