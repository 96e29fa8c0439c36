//! The requests of an audit log.

ghost use Rattle.std.specs.Prelude.{◌≡◌, [], None, codes, option_map, IfErr, OnOk};
ghost use Rattle.serde_json.specs.Find.{get};
ghost use Rattle.apf_values.specs.Views.{data_of};
ghost use Rattle.apf_audit.specs.AuditEvent.{name_by};
ghost use Rattle.apf_objects.specs.Cluster.{HasCatchAll};
ghost use Rattle.apf_cluster_text.specs.Log.{value_fault, short_fault, IsMatched, IsOfMachine, IsToldAt, IsToldOf};
ghost use Rattle.apf_cluster_text.specs.LogLines.{HasRead};

use crate::log_lines::{Found, LogLines};
use apf_audit::is_begun;
use apf_flows::{write_escaped, write_text};
use apf_objects::{Cluster, Distinguisher, Schema};
use apf_routing::{place_in, text_or_empty};
use apf_values::{Node, Room};
use std::alloc::Global;
use std::io;
use std::io::{ErrorKind, Read, Write};

/// Why an audit log was not matched. Lines are counted from 1.
#[derive(Debug, Drop)]
pub enum LogFault {
    /// The line has more than 1,048,576 bytes.
    TooLong(u64),
    /// The line is no JSON text in UTF-8.
    NotJson(u64),
    /// The value is no object with the texts `stage` and `verb`.
    NotEvent(u64),
    /// The event has no name of a user.
    BadUser(u64),
    /// Memory was refused.
    NoMemory,
    /// The input failed.
    CannotRead(io::Error),
    /// The output can't be written.
    CannotWrite,
}

// What tells the flow of the request of an event from others of its schema.
fn distinguisher_in<'a>(by: Distinguisher, user: &'a str, event: &Node<'a>) -> &'a str {
    match (by, event.get("objectRef")) {
        (Distinguisher::User, _) => user,
        (Distinguisher::Namespace, Some(object)) => text_or_empty(&object, "namespace"),
        (Distinguisher::Namespace, None) => "",
        (Distinguisher::Nothing, _) => "",
    }
}

// Writes the line of a request of this schema.
fn write_request<W: Write>(
    out: &mut W,
    schema: &Schema,
    distinguisher: &str,
    line: u64,
) -> io::Result<()> {
    write!(out, "{line} ")?;
    write_escaped(out, schema.name.as_str())?;
    out.write_all(b" ")?;
    write_escaped(out, schema.level.as_str())?;
    out.write_all(b" ")?;
    write_text(out, distinguisher)?;
    out.write_all(b"\n")
}

// Writes the line of the request of an event of this user.
fn write_of_user<W: Write>(
    alloc: Global,
    out: &mut W,
    cluster: &Cluster,
    event: &Node<'_>,
    user: &str,
    line: u64,
) -> Result<(), LogFault>
    requires { HasCatchAll cluster.now }
    ensures { IfErr result IsOfMachine }
{
    let Ok(place) = place_in(alloc, cluster, user, event) else {
        return Err(LogFault::NoMemory);
    };
    let schema = &cluster.schemas[place];
    let distinguisher = distinguisher_in(schema.distinguisher, user, event);
    match write_request(out, schema, distinguisher, line) {
        Ok(()) => Ok(()),
        Err(_) => Err(LogFault::CannotWrite),
    }
}

// The name of the user of an event: of the one who is impersonated, if there is such a one.
#[tactic(auto, unfolding(apf_audit::specs::AuditEvent::text_within))]
fn user_of<'a>(event: &Node<'a>) -> Option<&'a str>
    ensures { option_map (λ user. user.now) result ≡ name_by (data_of event.now) (get (codes "impersonatedUser") (data_of event.now)) }
{
    let of_user = match event.get("impersonatedUser") {
        Some(user) => user,
        None => event.get("user")?,
    };
    of_user.text_at("username")
}

// Writes the line of an event, if it is of a request that is complete.
#[tactic(auto, unfolding(crate::specs::Log::value_fault))]
fn write_event<W: Write>(
    alloc: Global,
    out: &mut W,
    cluster: &Cluster,
    event: &Node<'_>,
    line: u64,
) -> Result<(), LogFault>
    requires { HasCatchAll cluster.now }
    ensures ok { OnOk result (value_fault line (data_of event.now) ≡ None) }
    ensures err { IfErr result (λ fault. IsToldAt fault (value_fault line (data_of event.now))) }
{
    let Some(stage) = event.text_at("stage") else {
        return Err(LogFault::NotEvent(line));
    };
    if event.text_at("verb").is_none() {
        return Err(LogFault::NotEvent(line));
    }
    if stage != "ResponseComplete" {
        return Ok(());
    }
    let Some(user) = user_of(event) else {
        return Err(LogFault::BadUser(line));
    };
    write_of_user(alloc, out, cluster, event, user, line)
}

// Writes the line of the event of this line of a log, if it has one. The line is not too long.
fn write_line<W: Write>(
    room: &mut Room,
    out: &mut W,
    cluster: &Cluster,
    bytes: &[u8],
    is_ended: bool,
    line: u64,
) -> Result<(), LogFault>
    requires { HasCatchAll cluster.now }
    ensures ok { OnOk result (short_fault line (record { bytes = bytes.now; is_ended = is_ended }) ≡ None) }
    ensures err { IfErr result (λ fault. IsToldAt fault (short_fault line (record { bytes = bytes.now; is_ended = is_ended }))) }
{
    let alloc = room.alloc();
    match room.read(bytes) {
        Ok(Some(event)) => write_event(alloc, out, cluster, &event.node(), line),
        Ok(None) if !is_ended && is_begun(bytes) => Ok(()),
        Ok(None) => Err(LogFault::NotJson(line)),
        Err(_) => Err(LogFault::NoMemory),
    }
}

/// Writes a line for each event of an audit log whose `stage` is `ResponseComplete`: the number of its line, its schema,
/// its level and its distinguisher. Of a last line that no LF ends, that begins as
/// an event does and is no JSON text, nothing is written. The log's lines come one after the other, and are read in pieces, so
/// that it may have any length.
///
/// The user and the groups are those of `impersonatedUser` where it stands, and else of `user`. A request is for a
/// resource exactly if `objectRef` is there; else its path is `requestURI` before `?`. What is absent, or no text,
/// counts as the empty text.
///
/// # Errors
///
/// The first fault of a line, which `log` holds then; nothing more is read. `CannotRead` with what the input answered, or
/// after 2^64 - 1 lines. What came before is written.
pub fn write_log<R: Read, W: Write>(
    alloc: Global,
    out: &mut W,
    cluster: &Cluster,
    log: &mut LogLines,
    input: &mut R,
) -> Result<(), LogFault>
    requires { HasCatchAll cluster.now }
    ensures ok { OnOk result (HasRead [] [] (R.remaining input.old) log.old → IsMatched (R.remaining input.old) (R.remaining input.new)) }
    ensures err { IfErr result (λ fault. HasRead [] [] (R.remaining input.old) log.old → IsToldOf (R.remaining input.old) (R.remaining input.new) fault) }
{
    let mut room = Room::new(alloc);
    'lines: for _ in 0..u64::MAX {
        match log.next(input) {
            Ok(Some(Found::Held)) => write_line(
                &mut room,
                out,
                cluster,
                log.line(),
                log.is_ended(),
                log.number(),
            )?,
            Ok(Some(Found::TooLong)) => return Err(LogFault::TooLong(log.number())),
            Ok(None) => return Ok(()),
            Err(error) => return Err(LogFault::CannotRead(error)),
        }
    }
    Err(LogFault::CannotRead(io::Error::from(ErrorKind::Other)))
}
