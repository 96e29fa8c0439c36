//! The times of arrivals from the first on.

ghost use Rattle.std.specs.Prelude.{◌≡◌};
ghost use Rattle.apf_audit.specs.Arrivals as spec;

use crate::fault::AuditFault;
use apf_times::MOST_ARRIVES_AT;

/// When the request of line `line` arrives that was received at this time, in microseconds after `start`, at which the first
/// request was received.
///
/// # Errors
///
/// `BadArrival` if this is more than 1,000,000,000,000.
pub fn arrives_at(received: u64, line: u64, start: u64) -> Result<u64, AuditFault>
    ensures { result ≡ spec.arrives_at received line start }
{
    let arrives_at = received.saturating_sub(start);
    if arrives_at > MOST_ARRIVES_AT {
        return Err(AuditFault::BadArrival(line, arrives_at));
    }
    Ok(arrives_at)
}
