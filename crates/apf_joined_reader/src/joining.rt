//! One request and its line.

ghost use Rattle.std.specs.Prelude.{◌≡◌, ◌≤◌, IfSome};
ghost use Rattle.apf_times.specs.Limits.{max_run};
ghost use Rattle.apf_words.specs.Limits.{max_width};
ghost use Rattle.apf_audit.specs.AuditEvent.{event};
ghost use Rattle.apf_audit.specs.Joining.{joined};
ghost use Rattle.apf_joined_reader.specs.Joins as spec;
ghost use Rattle.apf_joined_reader.specs.Looking.{LooksUp};

use apf_audit::Taken;
use apf_request_halves::{HalvesFault, RequestHalves};
use apf_request_lines::RequestLine;
use apf_times::MOST_RUNS_FOR;
use apf_words::MAX_WIDTH;
use std::io::Read;

// So many seats, within what a request takes.
fn as_width(seats: u32) -> u32
    ensures value { result ≡ spec.as_width seats }
    ensures one { 1 ≤ result }
    ensures most { result ≤ max_width }
{
    seats.max(1).min(MAX_WIDTH)
}

// So long, within what a request runs.
fn as_run(said: Option<u64>) -> Option<u64>
    ensures value { result ≡ spec.as_run said }
    ensures most { IfSome result (λ run. run ≤ max_run) }
{
    match said {
        Some(run) => Some(run.min(MOST_RUNS_FOR)),
        None => None,
    }
}

/// The request with what its line says: so many seats, and such a run.
pub(crate) fn join(taken: Taken, seats: u32, runs_for: Option<u64>) -> Taken
    ensures { event result ≡ joined (event taken) (spec.as_width seats) (spec.as_run runs_for) }
{
    taken.joined(as_width(seats), as_run(runs_for))
}

/// The line of a request, if it has an id and the line is found.
///
/// # Errors
///
/// Those of `find`.
pub(crate) fn look_up<S: Read>(
    halves: &mut RequestHalves,
    taken: &Taken,
    lines: &mut S,
) -> Result<Option<RequestLine>, HalvesFault>
    ensures { LooksUp (event taken.now).audit_id (S.remaining lines.old) (S.remaining lines.new) halves.old result halves.new }
{
    match &taken.audit_id {
        Some(id) => halves.find(id.as_bytes(), lines),
        None => Ok(None),
    }
}
