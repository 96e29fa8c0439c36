//! A request of a log arrives on a second cluster.

ghost use Rattle.std.specs.Prelude.{◌≡◌, ◌<◌, ◌≤◌, ◌*◌, ◌++◌, ◌∷◌, [], List, suc, length, option_map, replicate, IfOk, IsSome, OnOk};
ghost use Rattle.apf_audit.specs.AuditEvent.{Event, event};
ghost use Rattle.apf_changes.specs.Scenarios.{scenario_view};
ghost use Rattle.apf_objects.specs.Cluster.{cluster_view};
ghost use Rattle.apf_cluster.specs.Beside as spec;
ghost use Rattle.apf_cluster.specs.Runs.{HaveLevels, course_of};

use crate::asking::schema_at;
use crate::fault::ClusterFault;
use crate::feeding::{Clock, Way, take};
use crate::lanes::LevelLane;
use apf_audit::{Beside, Taken};
use apf_changes::{Scenario, rate_of};
use std::alloc::Global;

/// The lanes of a cluster's levels, when the last request came, and how many periods have ended.
#[derive(Drop)]
pub(crate) struct Going {
    pub(crate) lanes: Vec<LevelLane>,
    pub(crate) clock: Clock,
}

/// The request of an event as the schemas of a second cluster have it.
#[derive(Drop)]
pub(crate) struct Seen {
    /// Whose request it is.
    pub(crate) user: String,
    pub(crate) taken: Taken,
}

// The request of an event as the schemas of a second cluster have it, if it was matched by these.
fn seen_beside(taken: Taken) -> Option<Seen>
    ensures { option_map spec.seen_view result ≡ spec.seen_beside (event taken) }
{
    let Taken {
        line,
        audit_id,
        received,
        turned_away,
        runs_for,
        width,
        schema: _,
        distinguisher: _,
        beside,
    } = taken;
    let Beside {
        user,
        schema,
        distinguisher,
    } = beside?;
    let taken = Taken {
        line,
        audit_id,
        received,
        turned_away,
        runs_for,
        width,
        schema,
        distinguisher,
        beside: None,
    };
    Some(Seen { user, taken })
}

/// The request of an event arrives on the lane of its level.
///
/// # Errors
///
/// Those of `take`.
pub(crate) fn take_next(
    alloc: Global,
    way: Way<'_>,
    going: &mut Going,
    taken: &Taken,
) -> Result<(), ClusterFault>
    requires few { length way.cluster.now.levels.items ≤ 1000 }
    requires ready { spec.IsReady (length way.cluster.now.levels.items) going.old }
    ensures takes { OnOk result (spec.TakesMore (course_of way.entry) (event taken.now ∷ []) going.old going.new) }
    ensures level { OnOk result (HaveLevels (cluster_view way.entry.cluster.now) (event taken.now ∷ [])) }
    ensures ready { OnOk result (spec.IsReady (length way.entry.cluster.now.levels.items) going.new) }
{
    going.clock = take(alloc, way, &mut going.lanes, going.clock, taken)?;
    Ok(())
}

// The request of an event arrives on the lane of its level, so many times.
fn take_often(
    alloc: Global,
    way: Way<'_>,
    going: &mut Going,
    taken: &Taken,
    times: u64,
) -> Result<(), ClusterFault>
    requires few { length way.cluster.now.levels.items ≤ 1000 }
    requires ready { spec.IsReady (length way.cluster.now.levels.items) going.old }
    ensures takes { OnOk result (spec.TakesMore (course_of way.entry) (replicate times (event taken.now)) going.old going.new) }
    ensures level { OnOk result (HaveLevels (cluster_view way.entry.cluster.now) (replicate times (event taken.now))) }
    ensures ready { OnOk result (spec.IsReady (length way.entry.cluster.now.levels.items) going.new) }
{
    for time in 0..times {
        take_next(alloc, way, going, taken)?;
    }
    Ok(())
}

/// The request of an event arrives on the second cluster, as often as is said of its user and of its schema there.
///
/// # Errors
///
/// Those of `take`; `Misread` if it was not matched by the schemas of the second cluster.
pub(crate) fn take_beside(
    alloc: Global,
    way: Way<'_>,
    scenario: &Scenario,
    going: &mut Going,
    taken: Taken,
) -> Result<(), ClusterFault>
    requires few { length way.cluster.now.levels.items ≤ 1000 }
    requires ready { spec.IsReady (length way.cluster.now.levels.items) going.old }
    ensures takes { OnOk result (spec.TakesMore (course_of way.entry) (spec.come_beside (scenario_view scenario.now) (event taken)) going.old going.new) }
    ensures matched { OnOk result (IsSome (event taken).beside) }
    ensures level { OnOk result (HaveLevels (cluster_view way.entry.cluster.now) (spec.come_beside (scenario_view scenario.now) (event taken))) }
    ensures ready { OnOk result (spec.IsReady (length way.entry.cluster.now.levels.items) going.new) }
{
    let line = taken.line;
    let Some(seen) = seen_beside(taken) else {
        return Err(ClusterFault::Misread(line));
    };
    let Some(schema) = schema_at(scenario.cluster.schemas.as_slice(), seen.taken.schema) else {
        return Err(ClusterFault::Misread(line));
    };
    let times = rate_of(scenario, seen.user.as_str(), schema.name.as_str());
    take_often(alloc, way, going, &seen.taken, times)
}
