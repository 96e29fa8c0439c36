//! The command on an audit log.

ghost use Rattle.std.specs.Prelude.{◌≡◌, IfOk, IfErr};
ghost use Rattle.apf_cli.specs.Choices.{IsInstantFor, IsNoInstantFor, IsByFor, IsNoByFor, IsChoiceFor};

use crate::faults::{Bound, Fault};
use crate::files::{Files, Input, cause_of, open_input};
use crate::notes::{note_cut, note_nothing_chosen, note_turned_away, note_unnamed};
use crate::progress::{Amount, Followed, ProgressLine};
use crate::telling::{audit_line_fault, named};
use apf_audit::{By, Choice, arrives_at, read_instant, write_request};
use apf_audit_reader::{AuditReader, ReadFault, WINDOW};
use apf_commands::Chosen;
use std::alloc::Global;
use std::io::{IsTerminal, Read, Write};
use std::time::Clock;

/// The most bytes of the name of a flow schema, so that each line of the trace has at most 65,536.
const MOST_SCHEMA: usize = 4096;

// What makes a flow, by the words of a command line: users if none are given.
fn by_of(word: Option<&str>) -> Result<By<'static>, Fault>
    ensures ok { IfOk result (IsByFor word.entry) }
    ensures err { IfErr result (λ fault. (fault ≡ Fault.BadBy) × IsNoByFor word.entry) }
{
    match word {
        Some(word) => By::named(word).ok_or(Fault::BadBy),
        None => Ok(By::User),
    }
}

// The instant of the words of a command line, if some are given.
fn instant_of(word: Option<&str>, bound: Bound) -> Result<Option<u64>, Fault>
    ensures ok { IfOk result (IsInstantFor word.entry) }
    ensures err { IfErr result (λ fault. (fault ≡ Fault.BadInstant bound) × IsNoInstantFor word.entry) }
{
    let Some(word) = word else {
        return Ok(None);
    };
    match read_instant(word) {
        Some(instant) => Ok(Some(instant)),
        None => Err(Fault::BadInstant(bound)),
    }
}

// Which requests are chosen, by the words of a command line.
fn choice_of<'a>(chosen: &Chosen<'a>) -> Result<Choice<'a>, Fault>
    ensures { IfOk result (IsChoiceFor chosen.now) }
{
    Ok(Choice {
        by: by_of(chosen.by)?,
        user: chosen.user,
        since: instant_of(chosen.since, Bound::Since)?,
        until: instant_of(chosen.until, Bound::Until)?,
    })
}

// How many requests were printed, and how many of them were turned away.
#[derive(Clone, Copy)]
pub(crate) struct Printed {
    pub(crate) requests: u64,
    pub(crate) turned_away: u64,
}

/// The fault of the log of this name, whose line has these bytes.
pub(crate) fn log_fault(alloc: Global, log: &str, line: &[u8], fault: ReadFault) -> Fault {
    match fault {
        ReadFault::Log(fault) => audit_line_fault(alloc, line, fault),
        ReadFault::CannotRead(error) => named(
            alloc,
            log,
            Fault::CannotRead(Input::AuditLog, cause_of(&error)),
        ),
    }
}

// Prints the line of the trace of each chosen request of this flow schema, in the order of the arrivals.
fn print_requests<I: Read, O: Write>(
    alloc: Global,
    reader: &mut AuditReader,
    input: &mut I,
    names: (&str, &str),
    choice: &Choice<'_>,
    out: &mut O,
) -> Result<Printed, Fault> {
    let (log, schema) = names;
    let mut printed = Printed {
        requests: 0,
        turned_away: 0,
    };
    let mut start = 0;
    for number in 0..u64::MAX {
        let request = match reader.next(choice, input) {
            Ok(Some(request)) => request,
            Ok(None) => return Ok(printed),
            Err(fault) => return Err(log_fault(alloc, log, reader.line(), fault)),
        };
        if number == 0 {
            start = request.received;
        }
        let at = match arrives_at(request.received, request.line, start) {
            Ok(at) => at,
            Err(fault) => return Err(audit_line_fault(alloc, b"", fault)),
        };
        write_request(schema, &request, at, out).map_err(|_| Fault::CannotWrite)?;
        printed.requests = number + 1;
        if request.turned_away {
            printed.turned_away = printed.turned_away.saturating_add(1);
        }
    }
    Ok(printed)
}

/// Prints the trace of the chosen requests of the audit log of the first name, all of the flow schema that the second one
/// names, each line as soon as its request is known to be the next. At the end it says on `err` how many events without a
/// user's name were left out, that a last line was left out, as one that is still written, how many requests were turned
/// away, and that the options choose none.
///
/// # Errors
///
/// `LongSchema` if its name has more than 4096 bytes, `BadBy` and `BadInstant` if the choice is none; then the first fault of
/// the log, behind the lines of the requests before it; those of the output.
pub(crate) fn print_trace<'n, F: Files, O: Write, C: Clock, E: Write + IsTerminal>(
    alloc: Global,
    files: &mut F,
    names: (&str, &str),
    chosen: &Chosen<'_>,
    out: &mut O,
    clock: &'n C,
    err: &'n mut E,
) -> Result<(), Fault> {
    let (log, schema) = names;
    if schema.len() > MOST_SCHEMA {
        return Err(Fault::LongSchema);
    }
    let choice = choice_of(chosen)?;
    // it prints as it goes on
    let is_shared = files.is_shown();
    let amount = Amount::of(None);
    let mut input = match open_input(files, Input::AuditLog, log) {
        Ok(input) => input,
        Err(fault) => return Err(named(alloc, log, fault)),
    };
    let mut reader = AuditReader::new(alloc, WINDOW)?;
    let mut line = ProgressLine::new(clock, &mut *err, is_shared, &amount);
    amount.is_of(input.size());
    let mut followed = Followed {
        input: &mut input,
        line: &mut line,
    };
    let printed = print_requests(alloc, &mut reader, &mut followed, names, &choice, out);
    line.clear();
    drop(line);
    let printed = printed?;
    note_unnamed(reader.unnamed(), err);
    note_cut(reader.is_cut(), err);
    note_turned_away(printed, err);
    note_nothing_chosen(chosen, printed, err);
    Ok(())
}
