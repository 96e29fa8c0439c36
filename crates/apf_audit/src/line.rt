//! What the bytes of a line give.

ghost use Rattle.std.specs.Prelude.{◌≡◌, ◌≢◌, IfOk, IfErr, Ok, Err};
ghost use Rattle.apf_audit.specs.AuditEvent.{event_in, is_still_written, is_without_name, IsInRangeIfChosen, IsOfLine};
ghost use Rattle.apf_audit.specs.AuditLog.{judged_line, is_cut_line, is_nameless_line, is_begun as is_begun_of};

use crate::choice::Choice;
use crate::event::{Outcome, event_of_value};
use crate::fault::AuditFault;
use apf_values::Room;
use std::alloc::AllocError;

/// The most bytes of a line, without its LF. It bounds what the value of a line takes of memory.
pub const MAX_LINE: usize = 1_048_576;

/// Whether the bytes begin as an object in UTF-8 does: with `{`, and no zero byte behind it. A last line of a log that no
/// LF ends, and that is no JSON text, may be one that is still written only if it begins so.
pub fn is_begun(bytes: &[u8]) -> bool
    ensures { result ≡ is_begun_of bytes.now }
{
    bytes.starts_with(b"{") && !bytes.starts_with(b"{\0")
}

/// What line `line` gives, whose bytes come without their LF. `room` is kept from line to line.
///
/// `is_ended` says whether an LF ends the line. Where none does, and the line is no JSON text, but begins as an event
/// does, nothing is taken of it, as it is still written.
///
/// # Errors
///
/// The line's first fault, in the order of `AuditFault`. `NoMemory` only where memory was refused.
#[tactic(auto, unfolding(crate::specs::AuditLog::judged_line, crate::specs::AuditLog::is_cut_line, crate::specs::AuditLog::is_nameless_line))]
pub fn read_line(
    room: &mut Room,
    choice: &Choice<'_>,
    bytes: &[u8],
    is_ended: bool,
    line: u64,
) -> Result<Outcome, AuditFault>
    ensures ok { IfOk result (λ outcome. judged_line choice.now line (record { bytes = bytes.now; is_ended = is_ended }) ≡ Ok (event_in outcome)) }
    ensures unnamed { IfOk result (λ outcome. is_nameless_line bytes.now ≡ is_without_name outcome) }
    ensures unfinished { IfOk result (λ outcome. is_cut_line (record { bytes = bytes.now; is_ended = is_ended }) ≡ is_still_written outcome) }
    ensures ranges { IfOk result IsInRangeIfChosen }
    ensures line { IfOk result (IsOfLine line) }
    ensures err { IfErr result (λ fault. fault ≢ AuditFault.NoMemory
        → judged_line choice.now line (record { bytes = bytes.now; is_ended = is_ended }) ≡ Err fault) }
{
    if bytes.len() > MAX_LINE {
        return Err(AuditFault::TooLong(line));
    }
    let alloc = room.alloc();
    match room.read(bytes) {
        Ok(Some(value)) => event_of_value(alloc, choice, &value.node(), line),
        Ok(None) if !is_ended && is_begun(bytes) => Ok(Outcome::Unfinished),
        Ok(None) => Err(AuditFault::NotUtf8Json(line)),
        Err(AllocError) => Err(AuditFault::NoMemory),
    }
}
