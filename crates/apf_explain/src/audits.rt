//! The line of an audit log's fault.

ghost use Rattle.std.specs.Prelude.{◌≡◌, OnOk, IfSome, Err, Some, codes, option_map};
ghost use Rattle.std.specs.Io.KnownBytes.{Appends};
ghost use Rattle.serde_json.specs.View.{view};
ghost use Rattle.apf_audit.specs.AuditFaults.{audit_fault_number, line_of};
ghost use Rattle.apf_explain.specs.declared.place.Part.TheVariants.{Fault};
ghost use Rattle.apf_explain.specs.Lines.{place_text};
ghost use Rattle.apf_explain.specs.AuditLines.{found_at, is_text_at, is_object, not_event_text, user_text, wait_found, bad_run_text, late_text, behind_text, event_text, namespace_found, IsAuditLineAt, known_line, IsPlacedEvent};

use crate::fault::ExplainFault;
use crate::found::Found;
use crate::json::{value_at, write_unwanted};
use crate::lines::{line_value, write_not_json, write_required, write_too_long};
use crate::place::{Part, Place};
use crate::wanted::Wanted;
use apf_audit::{AuditFault, MAX_LINE, MAX_NAME};
use apf_times::{MOST_ARRIVES_AT, MOST_RUNS_FOR};
use serde_json::Value;
use std::alloc::Global;
use std::io::Write;
use std::{fmt, io};

const NAME: Wanted = Wanted::Name(MAX_NAME as u64);

// A value that may be absent.
#[derive(Clone, Copy)]
struct Perhaps<'a>(Option<&'a Value>);

impl fmt::Display for Perhaps<'_> {
    ghost use Rattle.std.specs.Prelude.{option_map};
    ghost use Rattle.serde_json.specs.View.{view};
    ghost use Rattle.apf_explain.specs.AuditLines.{value_text};

    ghost output = { λ perhaps. value_text (option_map (λ value. view value.now) perhaps.0) };

    fn fmt<W: fmt::Write>(&self, f: &mut fmt::Formatter<W>) -> fmt::Result {
        match self.0 {
            Some(_) => {
                let found = Found(self.0);
                write!(f, "{found}")
            }
            None => f.write_str("absent"),
        }
    }
}

// Whether the value at a key is a text.
fn is_text(value: Option<&Value>, key: &str) -> bool
    ensures { result ≡ is_text_at key.now (option_map (λ whole. view whole.now) value.entry) }
{
    match value_at(value, key) {
        Some(found) => found.is_string(),
        None => false,
    }
}

// Whether the value is an object.
fn is_an_object(value: Option<&Value>) -> bool
    ensures { result ≡ is_object (option_map (λ whole. view whole.now) value.entry) }
{
    match value {
        Some(value) => value.is_object(),
        None => false,
    }
}

// Writes that a value is no event.
fn write_not_event<W: Write>(out: &mut W, place: Place<'_>, value: Option<&Value>) -> io::Result<()>
    ensures { OnOk result (IfSome (not_event_text (place_text place.entry.name.now place.entry.part) (option_map (λ value. view value.now) value.entry))
        (Appends (W.contents out.old) (W.contents out.new))) }
{
    if !is_an_object(value) {
        let found = Found(value);
        return writeln!(
            out,
            "{place}an audit event is a JSON object, but this is {found}"
        );
    }
    let key = if is_text(value, "stage") {
        "verb"
    } else {
        "stage"
    };
    write_required(out, place, key, value_at(value, key), Wanted::Text)
}

// Writes that the name of a user is bad.
fn write_user<W: Write>(out: &mut W, place: Place<'_>, value: Option<&Value>) -> io::Result<()>
    ensures { OnOk result (IfSome (event_text (place_text place.entry.name.now place.entry.part) (option_map (λ value. view value.now) value.entry) (AuditFault.BadUser 0))
        (Appends (W.contents out.old) (W.contents out.new))) }
{
    match value_at(value, "impersonatedUser") {
        Some(impersonated) => write_required(
            out,
            place,
            "impersonatedUser.username",
            value_at(Some(impersonated), "username"),
            NAME,
        ),
        None => write_required(
            out,
            place,
            "user.username",
            value_at(value_at(value, "user"), "username"),
            NAME,
        ),
    }
}

// The namespace of the object of an event.
fn namespace_of(value: Option<&Value>) -> Option<&Value>
    ensures { option_map (λ found. view found.now) result ≡ namespace_found (option_map (λ whole. view whole.now) value.entry) }
{
    value_at(value_at(value, "objectRef"), "namespace")
}

// The wait in the queue that an event says.
fn wait_of(value: Option<&Value>) -> Option<&Value>
    ensures { option_map (λ found. view found.now) result ≡ wait_found (option_map (λ whole. view whole.now) value.entry) }
{
    value_at(
        value_at(value, "annotations"),
        "apiserver.latency.k8s.io/apf-queue-wait",
    )
}

// Writes that the run is none that a trace can have.
fn write_run<W: Write>(out: &mut W, place: Place<'_>, value: Option<&Value>) -> io::Result<()>
    ensures { OnOk result (IfSome (bad_run_text (place_text place.entry.name.now place.entry.part) (option_map (λ value. view value.now) value.entry))
        (Appends (W.contents out.old) (W.contents out.new))) }
{
    let completed = Perhaps(value_at(value, "stageTimestamp"));
    let received = Perhaps(value_at(value, "requestReceivedTimestamp"));
    let wait = Perhaps(wait_of(value));
    writeln!(
        out,
        "{place}stageTimestamp is {completed}, requestReceivedTimestamp is {received} and apf-queue-wait is {wait}: the run, which is the first less the others, must be from 0 to {MOST_RUNS_FOR} microseconds"
    )
}

// Writes that a request arrives this many microseconds after the first one, which is too late.
fn write_late<W: Write>(out: &mut W, place: Place<'_>, after: u64) -> io::Result<()>
    ensures { OnOk result (Appends (W.contents out.old) (W.contents out.new) (late_text (place_text place.entry.name.now place.entry.part) after)) }
{
    writeln!(
        out,
        "{place}this request arrives {after} microseconds after the first one: at most {MOST_ARRIVES_AT} may be between them"
    )
}

// Writes that a request was received before requests that were handed out, in front of this many others.
fn write_behind<W: Write>(out: &mut W, place: Place<'_>, value: Option<&Value>) -> io::Result<()>
    ensures { OnOk result (IfSome (behind_text (place_text place.entry.name.now place.entry.part) (option_map (λ value. view value.now) value.entry))
        (Appends (W.contents out.old) (W.contents out.new))) }
{
    let received = Perhaps(value_at(value, "requestReceivedTimestamp"));
    writeln!(
        out,
        "{place}requestReceivedTimestamp is {received}, and more than 131072 requests of lines before it were received later"
    )
}

// Writes the fault of an event that is the value.
fn write_event<W: Write>(
    out: &mut W,
    place: Place<'_>,
    value: Option<&Value>,
    fault: AuditFault,
) -> io::Result<()>
    ensures { OnOk result (IfSome (event_text (place_text place.entry.name.now place.entry.part) (option_map (λ value. view value.now) value.entry) fault)
        (Appends (W.contents out.old) (W.contents out.new))) }
{
    match fault {
        AuditFault::BadUser(_) => write_user(out, place, value),
        AuditFault::BadNamespace(_) => write_unwanted(
            out,
            place,
            "objectRef.namespace",
            namespace_of(value),
            NAME,
        ),
        AuditFault::BadReceived(_) => write_required(
            out,
            place,
            "requestReceivedTimestamp",
            value_at(value, "requestReceivedTimestamp"),
            Wanted::Instant,
        ),
        AuditFault::BadStage(_) => write_required(
            out,
            place,
            "stageTimestamp",
            value_at(value, "stageTimestamp"),
            Wanted::Instant,
        ),
        AuditFault::BadWait(_) => {
            write_unwanted(out, place, "apf-queue-wait", wait_of(value), Wanted::Wait)
        }
        AuditFault::BadRun(_) => write_run(out, place, value),
        AuditFault::BadArrival(_, after) => write_late(out, place, after),
        AuditFault::TooLate(_) => write_behind(out, place, value),
        AuditFault::TooLong(_)
        | AuditFault::NotUtf8Json(_)
        | AuditFault::NotEvent(_)
        | AuditFault::NoMemory => write_not_event(out, place, value),
    }
}

// Writes the fault of this line.
fn write_line<W: Write>(
    alloc: Global,
    out: &mut W,
    place: Place<'_>,
    line: Option<&[u8]>,
    fault: AuditFault,
) -> Result<(), ExplainFault>
    ensures line { OnOk result (IsAuditLineAt (place_text place.entry.name.now place.entry.part) (option_map (λ line. line.now) line.entry) fault
        (W.contents out.old) (W.contents out.new)) }
    ensures memory { result ≡ Err ExplainFault.NoMemory → out.new ≡ out.old }
{
    match fault {
        AuditFault::TooLong(_) => Ok(write_too_long(out, place, MAX_LINE, line)?),
        AuditFault::NotUtf8Json(_) => write_not_json(alloc, out, place, line, None),
        AuditFault::NotEvent(_)
        | AuditFault::BadUser(_)
        | AuditFault::BadNamespace(_)
        | AuditFault::BadReceived(_)
        | AuditFault::BadStage(_)
        | AuditFault::BadWait(_)
        | AuditFault::BadRun(_)
        | AuditFault::BadArrival(_, _)
        | AuditFault::TooLate(_)
        | AuditFault::NoMemory => {
            let value = line_value(alloc, line)?;
            Ok(write_event(out, place, value.as_ref(), fault)?)
        }
    }
}

// Where the fault of the line of this number is.
fn place_of(fault: AuditFault, number: u64) -> Place<'static>
    ensures { place_text result.name.now result.part ≡ place_text (codes "apf: audit") (Fault (audit_fault_number fault) number) }
{
    Place {
        name: "apf: audit",
        part: Part::Fault(fault.number(), number),
    }
}

// The line, unless it is too long, so that it was not kept whole.
fn known_line(fault: AuditFault, line: &[u8]) -> Option<&[u8]>
    ensures { option_map (λ known. known.now) result ≡ known_line fault line.entry.now }
{
    match fault {
        AuditFault::TooLong(_) => None,
        _ => Some(line),
    }
}

/// Writes the fault of a line of an audit log as the one line of standard error. It names the key and the value that stands there
/// in the line, and what has to stand there: see `every_audit_fault_is_shown`.
///
/// `line` is the line that has the fault, without its LF. Of one that is too long it need not be whole, and its length is
/// not told. Of a line that is no JSON the column is told at which the reader stopped. Columns count bytes from 1.
///
/// # Errors
///
/// [`ExplainFault::NoMemory`] if memory was refused, here or, by the fault, to the reader, and then nothing is written.
/// [`ExplainFault::CannotWrite`] if the writer failed.
pub fn explain_audit_line<W: Write>(
    alloc: Global,
    line: &[u8],
    fault: AuditFault,
    out: &mut W,
) -> Result<(), ExplainFault>
    ensures line { OnOk result (IsPlacedEvent (known_line fault line.now) fault (line_of fault) (W.contents out.old) (W.contents out.new)) }
    ensures refused { fault ≡ AuditFault.NoMemory → (result ≡ Err ExplainFault.NoMemory) × (out.new ≡ out.old) }
    ensures memory { result ≡ Err ExplainFault.NoMemory → out.new ≡ out.old }
{
    let Some(number) = fault.line() else {
        return Err(ExplainFault::NoMemory);
    };
    let line = known_line(fault, line);
    write_line(alloc, out, place_of(fault, number), line, fault)
}
