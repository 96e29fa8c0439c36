//! Each request of a log arrives on the lane of its level.

ghost use Rattle.std.specs.Prelude.{◌≡◌, ◌<◌, ◌≤◌, ◌*◌, ◌-◌, ◌++◌, ◌∷◌, [], ℕ, suc, List, Option, IsSome, None, Some, length, option_map, IfOk, OnOk};
ghost use Rattle.apf_audit.specs.AuditEvent.{Event, event};
ghost use Rattle.apf_joined_reader.specs.Reading.{Inputs, IsAlike, inputs};
ghost use Rattle.apf_objects.specs.Cluster.{cluster_view};
ghost use Rattle.apf_times.specs.Limits.{max_arrival};
ghost use Rattle.apf_cluster.specs.Lending.{period};
ghost use Rattle.apf_cluster.specs.Requests.{level_of as level_in};
ghost use Rattle.apf_cluster.specs.Runs.{AreInTime, AreLived, HasFed, HaveGone, Reaches, TakesOne, course_of};

use crate::asking::{level_of, request_of, schema_at};
use crate::fault::ClusterFault;
use crate::lanes::{LevelLane, arrive};
use crate::lending::pass;
use crate::running::ClusterTerms;
use apf_audit::{Choice, Taken, arrives_at};
use apf_changes::Assigned;
use apf_joined_reader::JoinedReader;
use apf_objects::Cluster;
use apf_times::MOST_RUNS_FOR;
use apf_words::MAX_WIDTH;
use std::alloc::Global;
use std::io::Read;

/// A cluster of a server, and when the first request of a log was received.
#[derive(Clone, Copy)]
pub(crate) struct Way<'a> {
    pub(crate) cluster: &'a Cluster,
    pub(crate) choice: &'a Choice<'a>,
    pub(crate) terms: ClusterTerms,
    /// The nominal limits that were fixed.
    pub(crate) fixed: &'a [Assigned],
    pub(crate) start: u64,
}

/// When the last request came, and how many periods have ended.
#[derive(Clone, Copy)]
pub(crate) struct Clock {
    pub(crate) last: u64,
    pub(crate) periods: u64,
}

// The request of an event arrives on the lane of its level, at this time.
fn take_at(
    alloc: Global,
    way: Way<'_>,
    lanes: &mut Vec<LevelLane>,
    at: u64,
    taken: &Taken,
) -> Result<(), ClusterFault>
    requires count { length lanes.old.items ≡ length way.cluster.now.levels.items }
    requires received { at ≡ taken.now.received - way.start }
    requires range { at ≤ max_arrival }
    requires in_time { AreInTime at lanes.old.items }
    requires lived { AreLived lanes.old.items }
    ensures takes { OnOk result (TakesOne (cluster_view way.entry.cluster.now) way.entry.start (event taken.now) lanes.old.items lanes.new.items) }
    ensures in_time { OnOk result (AreInTime at lanes.new.items) }
    ensures lived { OnOk result (AreLived lanes.new.items) }
{
    let misread = ClusterFault::Misread(taken.line);
    if taken.runs_for > MOST_RUNS_FOR || taken.width < 1 || taken.width > MAX_WIDTH {
        return Err(misread);
    }
    let Some(schema) = schema_at(way.cluster.schemas.as_slice(), taken.schema) else {
        return Err(misread);
    };
    let Some(place) = level_of(way.cluster, schema) else {
        return Err(misread);
    };
    let came = request_of(alloc, schema.name.as_str(), taken, at)?;
    arrive(lanes, place, &came, taken.turned_away)
}

/// The request of an event arrives on the lane of its level, no earlier than the last one. Before that each period ends that ends by
/// then.
///
/// # Errors
///
/// `BadArrival`, `Misread`, and those of the lanes.
pub(crate) fn take(
    alloc: Global,
    way: Way<'_>,
    lanes: &mut Vec<LevelLane>,
    clock: Clock,
    taken: &Taken,
) -> Result<Clock, ClusterFault>
    requires count { length lanes.old.items ≡ length way.cluster.now.levels.items }
    requires few { length lanes.old.items ≤ 1000 }
    requires in_time { AreInTime clock.last lanes.old.items }
    requires next { clock.last < period * suc clock.periods }
    requires lived { AreLived lanes.old.items }
    ensures reaches { IfOk result (λ next. (told : List Event) → Reaches (course_of way.entry) told lanes.old.items clock.periods
        → Reaches (course_of way.entry) (told ++ event taken.now ∷ []) lanes.new.items next.periods) }
    ensures level { OnOk result (IsSome (level_in (cluster_view way.entry.cluster.now) (event taken.now))) }
    ensures in_time { IfOk result (λ next. AreInTime next.last lanes.new.items) }
    ensures next { IfOk result (λ next. next.last < period * suc next.periods) }
    ensures lived { OnOk result (AreLived lanes.new.items) }
    ensures count { OnOk result (length lanes.new.items ≡ length lanes.old.items) }
{
    let at = arrives_at(taken.received, taken.line, way.start)?;
    if at < clock.last {
        return Err(ClusterFault::Misread(taken.line));
    }
    let periods = pass(alloc, way, lanes, clock.periods, at)?;
    take_at(alloc, way, lanes, at, taken)?;
    Ok(Clock { last: at, periods })
}

// The request of an event arrives on the lane of its level, and the next one is read.
fn turn<R: Read, S: Read>(
    alloc: Global,
    way: Way<'_>,
    lanes: &mut Vec<LevelLane>,
    clock: &mut Clock,
    taken: Taken,
    reader: &mut JoinedReader,
    input: &mut R,
    lines: &mut S,
) -> Result<Option<Taken>, ClusterFault>
    requires count { length lanes.old.items ≡ length way.cluster.now.levels.items }
    requires few { length lanes.old.items ≤ 1000 }
    requires in_time { AreInTime clock.old.last lanes.old.items }
    requires next { clock.old.last < period * suc clock.old.periods }
    requires lived { AreLived lanes.old.items }
    ensures reaches { OnOk result ((told : List Event) → Reaches (course_of way.entry) told lanes.old.items clock.old.periods
        → Reaches (course_of way.entry) (told ++ event taken ∷ []) lanes.new.items clock.new.periods) }
    ensures level { OnOk result (IsSome (level_in (cluster_view way.entry.cluster.now) (event taken))) }
    ensures in_time { OnOk result (AreInTime clock.new.last lanes.new.items) }
    ensures next { OnOk result (clock.new.last < period * suc clock.new.periods) }
    ensures lived { OnOk result (AreLived lanes.new.items) }
    ensures count { OnOk result (length lanes.new.items ≡ length lanes.old.items) }
    ensures fed { IfOk result (λ next. (was : Inputs) (told : List Event) → HasFed way.entry.choice.now was (inputs (R.remaining input.old) (S.remaining lines.old)) told (Some (event taken)) reader.old
        → HasFed way.entry.choice.now was (inputs (R.remaining input.new) (S.remaining lines.new)) (told ++ event taken ∷ []) (option_map event next) reader.new) }
    ensures alike { IsAlike reader.old reader.new }
{
    *clock = take(alloc, way, lanes, *clock, &taken)?;
    Ok(reader.next(way.choice, input, lines)?)
}

/// The first request of the log arrives on the lane of its level, and each behind it. Answers how many periods have ended then.
///
/// # Errors
///
/// The reader's, `BadArrival` among them, and those of the lanes.
pub(crate) fn feed<R: Read, S: Read>(
    alloc: Global,
    way: Way<'_>,
    lanes: &mut Vec<LevelLane>,
    first: Option<Taken>,
    reader: &mut JoinedReader,
    input: &mut R,
    lines: &mut S,
) -> Result<u64, ClusterFault>
    requires count { length lanes.old.items ≡ length way.cluster.now.levels.items }
    requires few { length lanes.old.items ≤ 1000 }
    requires in_time { AreInTime 0 lanes.old.items }
    requires lived { AreLived lanes.old.items }
    ensures count { OnOk result (length lanes.new.items ≡ length lanes.old.items) }
    ensures lived { OnOk result (AreLived lanes.new.items) }
    ensures next { IfOk result (λ periods. AreInTime (period * suc periods) lanes.new.items) }
    ensures gone { IfOk result (λ periods. (was : Inputs) → HaveGone way.entry.choice.now (course_of way.entry) was (inputs (R.remaining input.old) (S.remaining lines.old)) (option_map event first) reader.old lanes.old.items 0
        → HaveGone way.entry.choice.now (course_of way.entry) was (inputs (R.remaining input.new) (S.remaining lines.new)) None reader.new lanes.new.items periods) }
    ensures alike { IsAlike reader.old reader.new }
{
    let mut next = first;
    let mut clock = Clock {
        last: 0,
        periods: 0,
    };
    'requests: for _ in 0..u64::MAX {
        match next {
            Some(taken) => {
                next = turn(alloc, way, lanes, &mut clock, taken, reader, input, lines)?;
            }
            None => return Ok(clock.periods),
        }
    }
    Err(ClusterFault::TooMany)
}
