//! What is made of a line.

ghost use Rattle.std.specs.Prelude.{◌≡◌, ◌≢◌, map, IfOk, IfErr, Err, None, bytes_eq};
ghost use Rattle.apf_request_lines.specs.Lines.{line_read};
ghost use Rattle.apf_request_halves.specs.Held.{placed};
ghost use Rattle.apf_request_halves.specs.Reading.{Judges, max_held};

use crate::held::{Held, Store, hold};
use apf_request_lines::{RequestLine, RequestLineFault, read_line};
use std::alloc::Global;

/// What was made of a line.
#[derive(Drop)]
pub(crate) struct Judged {
    /// The line, if it has the id that is asked for.
    pub(crate) found: Option<RequestLine>,
    /// Whether a line that was held had to go.
    pub(crate) is_gone: bool,
}

// Whether these are the same bytes.
fn are_same(some: &[u8], others: &[u8]) -> bool
    ensures { result ≡ bytes_eq some.now others.now }
{
    some == others
}

// A line that is answered to nobody.
fn without(is_gone: bool) -> Judged
    ensures { result ≡ record { found = None; is_gone = is_gone } }
{
    Judged {
        found: None,
        is_gone,
    }
}

/// Answers the line of this number if it has this id, and else holds it, if it is the line of a request.
pub(crate) fn judge(
    alloc: Global,
    store: &mut Store,
    number: u64,
    line: &[u8],
    id: &[u8],
) -> Result<Judged, RequestLineFault>
    requires { store.old.cap ≡ max_held }
    ensures ok { IfOk result (λ judged. Judges number line.now id.now (map placed store.old.entries) judged.found judged.is_gone (map placed store.new.entries)) }
    ensures err { IfErr result (λ fault. fault ≢ RequestLineFault.NoMemory → (line_read line.now ≡ Err fault) × (store.new ≡ store.old)) }
    ensures cap { store.new.cap ≡ store.old.cap }
{
    let request = match read_line(alloc, line) {
        Ok(Some(request)) => request,
        Ok(None) => return Ok(without(false)),
        Err(fault) => return Err(fault),
    };
    if are_same(&request.audit_id, id) {
        return Ok(Judged {
            found: Some(request),
            is_gone: false,
        });
    }
    let held = Held {
        number,
        schema: request.schema,
        level: request.level,
        seats: request.seats,
        runs_for: request.runs_for,
    };
    match hold(store, request.audit_id, held) {
        Ok(is_gone) => Ok(without(is_gone)),
        Err(_) => Err(RequestLineFault::NoMemory),
    }
}
