//! What a line gives.

ghost use Rattle.std.specs.Prelude.{◌≡◌, ◌≢◌, None, true, IfOk, IfErr};
ghost use Rattle.apf_times.specs.Windows.{is_late};
ghost use Rattle.apf_audit.specs.AuditEvent.{event, IsTakenInRange};
ghost use Rattle.apf_audit_reader.specs.Giving.{Gives, Hands, IsPut, IsRefusal};
ghost use Rattle.apf_audit_reader.specs.Places.{place_of};

use apf_audit::{AuditFault, Choice, Estimates, Outcome, Taken, read_line};
use apf_times::{Arrival, Place, Window, WindowError};
use apf_values::Room;
use std::alloc::Global;

/// What a line gives: the request that is handed out, if there is one, and why the line itself gives none.
#[derive(Drop)]
pub(crate) struct Given {
    pub(crate) first: Option<Taken>,
    pub(crate) is_unnamed: bool,
    pub(crate) is_unfinished: bool,
}

/// The request that leaves the window, with how long it is to run by those that were read.
pub(crate) fn hand(estimates: &mut Estimates, out: Option<Arrival<Taken>>) -> Option<Taken>
    ensures { Hands out estimates.old result estimates.new }
{
    let Some(first) = out else {
        return None;
    };
    let mut taken = first.item;
    taken.runs_for = estimates.run_of(&taken);
    Some(taken)
}

// Puts a request into the window.
fn put(
    estimates: &mut Estimates,
    window: &mut Window<Taken, Global>,
    taken: Taken,
) -> Result<Option<Taken>, AuditFault>
    requires { IsTakenInRange taken }
    ensures ok { IfOk result (λ first. IsPut taken window.old estimates.old first window.new estimates.new) }
    ensures err { IfErr result (λ fault. fault ≢ AuditFault.NoMemory
        → (fault ≡ AuditFault.TooLate taken.line) × (is_late (place_of (event taken)) window.old.last ≡ true)) }
    ensures size { window.new.size ≡ window.old.size }
{
    let Ok(()) = estimates.add(&taken) else {
        return Err(AuditFault::NoMemory);
    };
    let line = taken.line;
    let place = Place {
        arrives_at: taken.received,
        line,
    };
    match window.push(place, taken) {
        Ok(out) => Ok(hand(estimates, out)),
        Err(WindowError::TooLate) => Err(AuditFault::TooLate(line)),
        Err(WindowError::NoMemory) => Err(AuditFault::NoMemory),
    }
}

// A line that gives no request.
fn without(is_unnamed: bool, is_unfinished: bool) -> Given
    ensures { result ≡ record {
      first = None;
      is_unnamed = is_unnamed;
      is_unfinished = is_unfinished;
    } }
{
    Given {
        first: None,
        is_unnamed,
        is_unfinished,
    }
}

/// Puts the request of this line into the window, if it gives one, and hands out the first that leaves it.
pub(crate) fn take_line(
    room: &mut Room,
    choice: &Choice<'_>,
    estimates: &mut Estimates,
    window: &mut Window<Taken, Global>,
    line: &[u8],
    is_ended: bool,
    number: u64,
) -> Result<Given, AuditFault>
    ensures ok { IfOk result (λ given. Gives choice.now number (record {
      bytes = line.now;
      is_ended = is_ended;
    }) window.old estimates.old given window.new estimates.new) }
    ensures err { IfErr result (λ fault. fault ≢ AuditFault.NoMemory → IsRefusal choice.now number (record {
      bytes = line.now;
      is_ended = is_ended;
    }) window.old fault) }
    ensures size { window.new.size ≡ window.old.size }
{
    match read_line(room, choice, line, is_ended, number)? {
        Outcome::Chosen(taken) => match put(estimates, window, taken) {
            Ok(first) => Ok(Given {
                first,
                is_unnamed: false,
                is_unfinished: false,
            }),
            Err(fault) => Err(fault),
        },
        Outcome::Unnamed => Ok(without(true, false)),
        Outcome::LeftOut => Ok(without(false, false)),
        Outcome::Unfinished => Ok(without(false, true)),
    }
}
