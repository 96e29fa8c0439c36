//! For how many seats the requests of a level ask, by those that came and those that are over.

ghost use Rattle.std.specs.Prelude.{◌≡◌, [], ◌∷◌, IfOk, OnOk};
ghost use Rattle.apf_lender.specs.Bounds.{AreBounds};
ghost use Rattle.apf_lending.specs.Claims.{IsClaim};
ghost use Rattle.apf_cluster.specs.Lending as spec;

use crate::fault::ClusterFault;
use apf_lender::{Asking, Bounds};
use apf_lending::Claim;
use apf_matching::LevelLimits;
use apf_objects::LevelSettings;
use apf_stream::Ended;
use apf_times::Arrival;
use apf_traces::TraceRequest;

// The most seats of a limit, which no level comes near.
const MOST_SEATS: u64 = 281_474_976_710_655;

/// The greatest limit of a level.
pub(crate) fn greatest_of(limits: LevelLimits) -> u64
    ensures { result ≡ spec.greatest_of limits }
{
    limits
        .nominal
        .saturating_add(limits.borrowing)
        .min(MOST_SEATS)
}

/// Between which limits a level of these settings is lent seats.
pub(crate) fn bounds_of(settings: &LevelSettings, limits: LevelLimits) -> Bounds
    ensures is { result ≡ spec.bounds_of settings.now limits }
    ensures range { AreBounds result }
{
    let nominal = limits.nominal.min(MOST_SEATS);
    let least = nominal.saturating_sub(limits.lendable);
    if settings.is_exempt {
        Bounds::Exempt(least, nominal)
    } else {
        Bounds::Limited(least, nominal, greatest_of(limits))
    }
}

/// The request asks for its seats from its arrival on.
///
/// # Errors
///
/// `Untimely` if it comes before something that is known.
pub(crate) fn come(asking: &mut Asking, came: &Arrival<TraceRequest>) -> Result<(), ClusterFault>
    ensures { OnOk result (spec.AsksToo came.now asking.old asking.new) }
{
    asking.arrive(came.item.arrives_at, came.item.width)?;
    Ok(())
}

// The request asks for its seats no more from when it was over.
fn leave(asking: &mut Asking, ended: &Ended) -> Result<(), ClusterFault>
    ensures { OnOk result (spec.AreOver (ended.now ∷ []) asking.old asking.new) }
{
    asking.leave(ended.over_at, ended.hold.asked.width)?;
    Ok(())
}

/// Each of these requests asks for its seats no more from when it was over.
///
/// # Errors
///
/// `Untimely` if one was over before something that is known, or did not ask.
pub(crate) fn leave_all(asking: &mut Asking, ends: &[Ended]) -> Result<(), ClusterFault>
    ensures { OnOk result (spec.AreOver ends.now asking.old asking.new) }
{
    for ended in ends {
        leave(asking, ended)?;
    }
    Ok(())
}

/// The period of the level ends. Answers what the level claims for the next one.
///
/// # Errors
///
/// `Untimely` if something is known behind its end.
pub(crate) fn end_period(asking: &mut Asking, at: u64) -> Result<Claim, ClusterFault>
    ensures claims { IfOk result (λ claim. spec.ClaimsAt at claim asking.old asking.new) }
    ensures range { IfOk result IsClaim }
{
    Ok(asking.end_period(at)?)
}
