//! A whole log on two clusters.

ghost use Rattle.std.specs.Prelude.{◌≡◌, ◌≤◌, ◌++◌, ◌∷◌, [], ℕ, List, Option, Some, None, length, map, option_map, vec_len, IfOk, IsSome, OnOk, is_some};
ghost use Rattle.apf_audit.specs.AuditEvent.{Event, event};
ghost use Rattle.apf_changes.specs.Scenarios.{assigned_view, scenario_view};
ghost use Rattle.apf_joined_reader.specs.Reading.{Inputs, IsAlike, inputs};
ghost use Rattle.apf_matching.specs.Limits.{max_seats};
ghost use Rattle.apf_objects.specs.Cluster.{cluster_view};
ghost use Rattle.apf_objects.specs.Levels.{level_view};
ghost use Rattle.apf_times.specs.Limits.{max_patience};
ghost use Rattle.apf_cluster.specs.Beside as spec;
ghost use Rattle.apf_cluster.specs.Runs.{HasFed, HasRun, HaveLevels, IsFresh, Reaches, course_of};

use crate::beside::{Going, take_beside, take_next};
use crate::fault::ClusterFault;
use crate::feeding::{Clock, Way};
use crate::lanes::open_lanes;
use crate::running::{ClusterTerms, close_after, start_of};
use apf_audit::{AuditFault, By, Choice, Taken};
use apf_changes::{Assigned, Scenario};
use apf_cluster_tables::LevelTable;
use apf_joined_reader::{JoinFault, JoinedReader};
use apf_matching::sum_of_shares;
use apf_objects::{Cluster, Level};
use std::alloc::Global;
use std::io::Read;

/// What the requests of each level came to, of a cluster and of a second one.
#[derive(Drop)]
pub struct BothTables {
    pub first: Vec<LevelTable>,
    pub second: Vec<LevelTable>,
}

/// Why a log is not simulated on two clusters.
#[derive(Debug, Drop)]
pub struct BothFault {
    /// Whether it is of the second cluster. What is of the log itself is of the first.
    pub is_second: bool,
    pub fault: ClusterFault,
}

impl BothFault {
    // A fault of the second cluster.
    fn of_second(fault: ClusterFault) -> Self {
        Self {
            is_second: true,
            fault,
        }
    }
}

impl From<ClusterFault> for BothFault {
    fn from(fault: ClusterFault) -> Self {
        Self {
            is_second: false,
            fault,
        }
    }
}

impl From<JoinFault> for BothFault {
    fn from(fault: JoinFault) -> Self {
        Self::from(ClusterFault::from(fault))
    }
}

impl From<AuditFault> for BothFault {
    fn from(fault: AuditFault) -> Self {
        Self::from(ClusterFault::from(fault))
    }
}

/// Two clusters of a server, and what is changed of the second one.
#[derive(Clone, Copy)]
struct Ways<'a> {
    first: Way<'a>,
    second: Way<'a>,
    scenario: &'a Scenario,
}

// The lanes of these levels, to which nobody came, where these nominal limits were fixed.
fn open_going(
    alloc: Global,
    levels: &[Level],
    terms: ClusterTerms,
    fixed: &[Assigned],
) -> Result<Going, ClusterFault>
    requires few { length levels.now ≤ 1000 }
    requires seats { terms.seats ≤ max_seats }
    requires patience { terms.patience ≤ max_patience }
    ensures opened { IfOk result (spec.IsNewGoing terms (map assigned_view fixed.now) (map level_view levels.now)) }
    ensures ready { IfOk result (spec.IsReady (length levels.now)) }
{
    let lanes = open_lanes(alloc, levels, terms, fixed, sum_of_shares(levels))?;
    let clock = Clock {
        last: 0,
        periods: 0,
    };
    Ok(Going { lanes, clock })
}

// The terms of the second cluster, which has its own seats.
fn terms_beside(terms: ClusterTerms, scenario: &Scenario) -> ClusterTerms
    ensures { result ≡ spec.terms_beside terms (scenario_view scenario.now) }
{
    ClusterTerms {
        seats: scenario.seats,
        ..terms
    }
}

// The lanes of the second cluster, to which nobody came.
fn open_second(alloc: Global, scenario: &Scenario, terms: ClusterTerms) -> Result<Going, BothFault>
    requires patience { terms.patience ≤ max_patience }
    ensures opened { IfOk result (spec.IsNewGoing (spec.terms_beside terms (scenario_view scenario.now)) (scenario_view scenario.now).nominal (scenario_view scenario.now).cluster.levels) }
    ensures ready { IfOk result (spec.IsReady (length scenario.now.cluster.levels.items)) }
{
    let terms = terms_beside(terms, scenario);
    let levels = scenario.cluster.levels.as_slice();
    match open_going(alloc, levels, terms, scenario.nominal.as_slice()) {
        Ok(going) => Ok(going),
        Err(fault) => Err(BothFault::of_second(fault)),
    }
}

// The request of an event arrives on the second cluster.
fn take_second(
    alloc: Global,
    ways: Ways<'_>,
    second: &mut Going,
    taken: Taken,
) -> Result<(), BothFault>
    requires few { length ways.second.cluster.now.levels.items ≤ 1000 }
    requires ready { spec.IsReady (length ways.second.cluster.now.levels.items) second.old }
    ensures takes { OnOk result (spec.TakesMore (course_of ways.entry.second) (spec.come_beside (scenario_view ways.entry.scenario.now) (event taken)) second.old second.new) }
    ensures matched { OnOk result (IsSome (event taken).beside) }
    ensures level { OnOk result (HaveLevels (cluster_view ways.entry.second.cluster.now) (spec.come_beside (scenario_view ways.entry.scenario.now) (event taken))) }
    ensures ready { OnOk result (spec.IsReady (length ways.entry.second.cluster.now.levels.items) second.new) }
{
    match take_beside(alloc, ways.second, ways.scenario, second, taken) {
        Ok(()) => Ok(()),
        Err(fault) => Err(BothFault::of_second(fault)),
    }
}

// The request of an event arrives on both clusters.
fn take_both(
    alloc: Global,
    ways: Ways<'_>,
    first: &mut Going,
    second: &mut Going,
    taken: Taken,
) -> Result<(), BothFault>
    requires few { length ways.first.cluster.now.levels.items ≤ 1000 }
    requires few_too { length ways.second.cluster.now.levels.items ≤ 1000 }
    requires ready { spec.IsReady (length ways.first.cluster.now.levels.items) first.old }
    requires ready_too { spec.IsReady (length ways.second.cluster.now.levels.items) second.old }
    ensures takes { OnOk result (spec.TakesBoth (course_of ways.entry.first) (course_of ways.entry.second) (scenario_view ways.entry.scenario.now) (event taken) first.old first.new second.old second.new) }
    ensures ready { OnOk result (spec.IsReady (length ways.entry.first.cluster.now.levels.items) first.new) }
    ensures ready_too { OnOk result (spec.IsReady (length ways.entry.second.cluster.now.levels.items) second.new) }
{
    take_next(alloc, ways.first, first, &taken)?;
    take_second(alloc, ways, second, taken)
}

// The request of an event arrives on both clusters, and the next one is read.
fn turn_both<R: Read, S: Read>(
    alloc: Global,
    ways: Ways<'_>,
    first: &mut Going,
    second: &mut Going,
    taken: Taken,
    reader: &mut JoinedReader,
    input: &mut R,
    lines: &mut S,
) -> Result<Option<Taken>, BothFault>
    requires few { length ways.first.cluster.now.levels.items ≤ 1000 }
    requires few_too { length ways.second.cluster.now.levels.items ≤ 1000 }
    requires ready { spec.IsReady (length ways.first.cluster.now.levels.items) first.old }
    requires ready_too { spec.IsReady (length ways.second.cluster.now.levels.items) second.old }
    ensures takes { OnOk result (spec.TakesBoth (course_of ways.entry.first) (course_of ways.entry.second) (scenario_view ways.entry.scenario.now) (event taken) first.old first.new second.old second.new) }
    ensures ready { OnOk result (spec.IsReady (length ways.entry.first.cluster.now.levels.items) first.new) }
    ensures ready_too { OnOk result (spec.IsReady (length ways.entry.second.cluster.now.levels.items) second.new) }
    ensures fed { IfOk result (λ next. (was : Inputs) (told : List Event) → HasFed ways.entry.first.choice.now was (inputs (R.remaining input.old) (S.remaining lines.old)) told (Some (event taken)) reader.old
        → HasFed ways.entry.first.choice.now was (inputs (R.remaining input.new) (S.remaining lines.new)) (told ++ event taken ∷ []) (option_map event next) reader.new) }
    ensures alike { IsAlike reader.old reader.new }
{
    take_both(alloc, ways, first, second, taken)?;
    Ok(reader.next(ways.first.choice, input, lines)?)
}

// The first request of the log arrives on both clusters, and each behind it.
fn feed_both<R: Read, S: Read>(
    alloc: Global,
    ways: Ways<'_>,
    first: &mut Going,
    second: &mut Going,
    next: Option<Taken>,
    reader: &mut JoinedReader,
    input: &mut R,
    lines: &mut S,
) -> Result<(), BothFault>
    requires few { length ways.first.cluster.now.levels.items ≤ 1000 }
    requires few_too { length ways.second.cluster.now.levels.items ≤ 1000 }
    requires ready { spec.IsReady (length ways.first.cluster.now.levels.items) first.old }
    requires ready_too { spec.IsReady (length ways.second.cluster.now.levels.items) second.old }
    ensures ready { OnOk result (spec.IsReady (length ways.entry.first.cluster.now.levels.items) first.new) }
    ensures ready_too { OnOk result (spec.IsReady (length ways.entry.second.cluster.now.levels.items) second.new) }
    ensures gone { OnOk result ((was : Inputs) → spec.HaveBothGone ways.entry.first.choice.now (course_of ways.entry.first) (course_of ways.entry.second) (scenario_view ways.entry.scenario.now) was (inputs (R.remaining input.old) (S.remaining lines.old)) (option_map event next) reader.old first.old second.old
        → spec.HaveBothGone ways.entry.first.choice.now (course_of ways.entry.first) (course_of ways.entry.second) (scenario_view ways.entry.scenario.now) was (inputs (R.remaining input.new) (S.remaining lines.new)) None reader.new first.new second.new) }
    ensures alike { IsAlike reader.old reader.new }
{
    let mut next = next;
    'requests: for _ in 0..u64::MAX {
        match next {
            Some(taken) => {
                next = turn_both(alloc, ways, first, second, taken, reader, input, lines)?;
            }
            None => return Ok(()),
        }
    }
    Err(BothFault::from(ClusterFault::TooMany))
}

// Periods end as long as somebody is there. Then each lane is closed.
fn close_going(alloc: Global, way: Way<'_>, going: Going) -> Result<Vec<LevelTable>, ClusterFault>
    requires few { length way.cluster.now.levels.items ≤ 1000 }
    requires ready { spec.IsReady (length way.cluster.now.levels.items) going }
    ensures tables { IfOk result (λ tables. (told : List Event) → Reaches (course_of way.entry) told going.lanes.items going.clock.periods → HasRun (course_of way.entry) told tables.items) }
    ensures count { IfOk result (λ tables. length tables.items ≡ length way.entry.cluster.now.levels.items) }
{
    let Going { lanes, clock } = going;
    close_after(alloc, way, lanes, clock.periods)
}

// The same of the second cluster.
fn close_second(alloc: Global, way: Way<'_>, going: Going) -> Result<Vec<LevelTable>, BothFault>
    requires few { length way.cluster.now.levels.items ≤ 1000 }
    requires ready { spec.IsReady (length way.cluster.now.levels.items) going }
    ensures tables { IfOk result (λ tables. (told : List Event) → Reaches (course_of way.entry) told going.lanes.items going.clock.periods → HasRun (course_of way.entry) told tables.items) }
    ensures count { IfOk result (λ tables. length tables.items ≡ length way.entry.cluster.now.levels.items) }
{
    match close_going(alloc, way, going) {
        Ok(tables) => Ok(tables),
        Err(fault) => Err(BothFault::of_second(fault)),
    }
}

// Periods end on both clusters as long as somebody is there. Then each lane is closed.
fn close_both(
    alloc: Global,
    ways: Ways<'_>,
    first: Going,
    second: Going,
) -> Result<BothTables, BothFault>
    requires few { length ways.first.cluster.now.levels.items ≤ 1000 }
    requires few_too { length ways.second.cluster.now.levels.items ≤ 1000 }
    requires ready { spec.IsReady (length ways.first.cluster.now.levels.items) first }
    requires ready_too { spec.IsReady (length ways.second.cluster.now.levels.items) second }
    ensures tables { IfOk result (λ tables. (told : List Event) → Reaches (course_of ways.entry.first) told first.lanes.items first.clock.periods → HasRun (course_of ways.entry.first) told tables.first.items) }
    ensures tables_too { IfOk result (λ tables. (told : List Event) → Reaches (course_of ways.entry.second) told second.lanes.items second.clock.periods → HasRun (course_of ways.entry.second) told tables.second.items) }
    ensures count { IfOk result (λ tables. length tables.first.items ≡ length ways.entry.first.cluster.now.levels.items) }
    ensures count_too { IfOk result (λ tables. length tables.second.items ≡ length ways.entry.second.cluster.now.levels.items) }
{
    let first = close_going(alloc, ways.first, first)?;
    let second = close_second(alloc, ways.second, second)?;
    Ok(BothTables { first, second })
}

/// Runs the requests of an audit log on the levels of a cluster, as `run_log` does, and on those of a second one, each request on
/// the level of its schema there, in one thread and by one reading of the log. Answers what they came to, in the order of the
/// levels of each.
///
/// The reader has read nothing. A request comes to the second cluster as often as is said of its user and of its schema there, at
/// the time at which it comes to the first. The terms are those of the first cluster. The second one has its own seats. A level of
/// it whose nominal limit was fixed lends and borrows by that, and the other levels keep their shares.
///
/// # Errors
///
/// Those of `run_log`, each with the cluster that it is of.
pub fn run_both<R: Read, S: Read>(
    alloc: Global,
    first: &Cluster,
    second: &Scenario,
    terms: ClusterTerms,
    reader: &mut JoinedReader,
    input: &mut R,
    lines: &mut S,
) -> Result<BothTables, BothFault>
    requires levels { vec_len first.now.levels ≤ 1000 }
    requires seats { terms.seats ≤ max_seats }
    requires patience { terms.patience ≤ max_patience }
    ensures each { IfOk result (λ tables. length tables.first.items ≡ length first.now.levels.items) }
    ensures each_too { IfOk result (λ tables. length tables.second.items ≡ length second.now.cluster.levels.items) }
    ensures ran { IfOk result (λ tables. IsFresh reader.old
        → spec.HasRunScenarios first.entry (cluster_view first.now) terms second.now.cluster (scenario_view second.now) (reader.old.reader.window.size) (is_some reader.old.halves) (inputs (R.remaining input.old) (S.remaining lines.old)) (inputs (R.remaining input.new) (S.remaining lines.new)) reader.new tables) }
{
    let mut going = open_going(alloc, first.levels.as_slice(), terms, &[])?;
    let mut beside = open_second(alloc, second, terms)?;
    let choice = Choice {
        by: By::Schemas(first, &second.cluster),
        user: None,
        since: None,
        until: None,
    };
    let next = reader.next(&choice, input, lines)?;
    let start = start_of(&next);
    let ways = Ways {
        first: Way {
            cluster: first,
            choice: &choice,
            terms,
            fixed: &[],
            start,
        },
        second: Way {
            cluster: &second.cluster,
            choice: &choice,
            terms: terms_beside(terms, second),
            fixed: second.nominal.as_slice(),
            start,
        },
        scenario: second,
    };
    feed_both(
        alloc,
        ways,
        &mut going,
        &mut beside,
        next,
        reader,
        input,
        lines,
    )?;
    close_both(alloc, ways, going, beside)
}
