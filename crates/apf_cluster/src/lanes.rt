//! A lane for each level.

ghost use Rattle.std.specs.Prelude.{◌≡◌, ◌<◌, ◌≤◌, ◌+◌, ℕ, length, map, IfOk, OnOk, if◌then◌else◌};
ghost use Rattle.apf_changes.specs.Scenarios.{assigned_view};
ghost use Rattle.apf_matching.specs.Limits.{max_seats, sum_of_shares as sum_of};
ghost use Rattle.apf_objects.specs.Levels.{level_view};
ghost use Rattle.apf_times.specs.Limits.{max_patience, max_wait};
ghost use Rattle.apf_traces.specs.TraceValue.{IsRequestInRange};
ghost use Rattle.apf_words.specs.Limits.{max_limit};
ghost use Rattle.apf_lending.specs.Claims.{IsClaim};
ghost use Rattle.apf_stream.specs.declared.deed.NewLimit.{NewLimit as NewLimitOf};
ghost use Rattle.apf_cluster.specs.Drawn.{DrawsStill, DrawsTold};
ghost use Rattle.apf_cluster.specs.Late.{CountsTold, is_counted};
ghost use Rattle.apf_cluster.specs.Lending.{AreOver, greatest_then as greatest_by, least_then as least_by};
ghost use Rattle.apf_cluster.specs.Runs.{AreInTime, AreLived, AreOpened, AreSameLimits, EndsOn, GoesOnAt, IsAhead, IsAlive, IsOfLevel, IsOpenedLane, IsSet, RunsOn, TakesOn, bounds_in};

use crate::demand::{bounds_of, come, end_period, greatest_of, leave_all};
use crate::drawn::Drawn;
use crate::fault::ClusterFault;
use crate::late::Late;
use crate::limits::limits_in;
use crate::running::ClusterTerms;
use crate::shape::{config_of, slots_of};
use apf_changes::Assigned;
use apf_charges::ChargedBy;
use apf_cluster_tables::limit_of;
use apf_lender::Asking;
use apf_lending::Claim;
use apf_objects::Level;
use apf_simulator::Lane;
use apf_stream::NewLimit;
use apf_times::Arrival;
use apf_traces::TraceRequest;
use std::alloc::Global;

/// The lane of a level.
#[derive(Drop)]
pub(crate) struct LevelLane {
    pub(crate) lane: Lane,
    /// Those of its requests that are counted.
    pub(crate) late: Late,
    /// What is drawn of it.
    pub(crate) drawn: Drawn,
    /// For how many seats its requests ask.
    pub(crate) asking: Asking,
    /// Whether it is set another limit at the end of each period.
    pub(crate) is_lent: bool,
    /// The nominal limit of the level.
    pub(crate) nominal: u64,
    /// The least limit that it had from when on requests are counted, and the greatest.
    pub(crate) least: u32,
    pub(crate) greatest: u32,
    /// How many of the requests that are counted the server of the log turned away.
    pub(crate) turned_away: u64,
}

// The lane of the level at this place, where all levels have this many shares, and these nominal limits were fixed.
fn open_lane(
    alloc: Global,
    level: &Level,
    place: usize,
    terms: ClusterTerms,
    fixed: &[Assigned],
    all: u64,
) -> Result<LevelLane, ClusterFault>
    requires part { level.now.settings.shares ≤ all }
    requires most { all ≤ 4294967295000 }
    requires seats { terms.seats ≤ max_seats }
    requires patience { terms.patience ≤ max_patience }
    ensures { IfOk result (IsOpenedLane terms (map assigned_view fixed.now) all (level_view level.now)) }
{
    let limits = limits_in(level, terms, fixed, all);
    let config = config_of(&level.settings, limits.nominal);
    let slots = slots_of(&config_of(&level.settings, greatest_of(limits)));
    let limit = limit_of(limits.nominal);
    let bounds = bounds_of(&level.settings, limits);
    let drawn = Drawn::new(alloc, limit, terms.draws)?;
    match Lane::open(alloc, &config, slots, terms.patience, ChargedBy::Time) {
        Ok(lane) => Ok(LevelLane {
            lane,
            late: Late::new(alloc, terms.since),
            drawn,
            asking: Asking::new(bounds, 0),
            is_lent: terms.lends && !level.settings.is_exempt,
            nominal: limits.nominal,
            least: limit,
            greatest: limit,
            turned_away: 0,
        }),
        Err(fault) => Err(ClusterFault::of_level(place, fault)),
    }
}

/// A lane for each level, to which nobody came, where all levels have this many shares, and these nominal limits were fixed.
pub(crate) fn open_lanes(
    alloc: Global,
    levels: &[Level],
    terms: ClusterTerms,
    fixed: &[Assigned],
    all: u64,
) -> Result<Vec<LevelLane>, ClusterFault>
    requires shares { sum_of (map level_view levels.now) ≤ all }
    requires most { all ≤ 4294967295000 }
    requires seats { terms.seats ≤ max_seats }
    requires patience { terms.patience ≤ max_patience }
    ensures { IfOk result (λ lanes. AreOpened terms (map assigned_view fixed.now) all (map level_view levels.now) lanes.items) }
{
    let mut lanes = Vec::with_capacity(alloc, levels.len())?;
    let mut rest = levels;
    while let Some((level, others)) = rest.split_first() {
        let lane = open_lane(alloc, level, lanes.len(), terms, fixed, all)?;
        let Ok(()) = lanes.push(lane) else {
            return Err(ClusterFault::NoMemory);
        };
        rest = others;
    }
    Ok(lanes)
}

// One more, if it holds.
fn counted(number: u64, holds: bool) -> Result<u64, ClusterFault>
    ensures { IfOk result (λ next. next ≡ number + (if holds then 1 else 0)) }
{
    if !holds {
        return Ok(number);
    }
    number.checked_add(1).ok_or(ClusterFault::TooMany)
}

/// Who was told by the last call of the lane asks for no seats any more, is counted, and is drawn.
///
/// # Errors
///
/// `NoMemory`, `TooMany`, or `Untimely`.
pub(crate) fn hear(
    asking: &mut Asking,
    late: &mut Late,
    drawn: &mut Drawn,
    lane: &Lane,
) -> Result<(), ClusterFault>
    requires ahead { IsAhead lane.now late.old }
    ensures over { OnOk result (AreOver lane.now.ends asking.old asking.new) }
    ensures counts { OnOk result (CountsTold lane.now.ends late.old late.new) }
    ensures since { late.new.since ≡ late.old.since }
    ensures draws { OnOk result (DrawsTold lane.now.ends drawn.old drawn.new) }
    ensures still { OnOk result (DrawsStill drawn.old drawn.new) }
{
    leave_all(asking, lane.ends())?;
    late.hear(lane)?;
    drawn.hear(lane.ends())?;
    Ok(())
}

/// Carries out all that is due on the lane of this level up to this time. Whoever is over asks for no seats any more.
///
/// # Errors
///
/// Those of a lane's `advance`, or `Untimely`.
pub(crate) fn advance_on(level: &mut LevelLane, at: u64) -> Result<(), ClusterFault>
    requires lived { IsAlive level.old }
    requires forward { level.old.lane.state.slots.time ≤ at }
    ensures goes { OnOk result (RunsOn level.old level.new) }
    ensures time { OnOk result (level.new.lane.state.slots.time ≤ at) }
    ensures lived { OnOk result (IsAlive level.new) }
    ensures same { OnOk result (IsOfLevel level.old level.new) }
{
    level.lane.advance(at)?;
    hear(
        &mut level.asking,
        &mut level.late,
        &mut level.drawn,
        &level.lane,
    )?;
    Ok(())
}

// A request arrives on the lane of this level, where all is carried out that was due before that.
fn come_on(level: &mut LevelLane, came: &Arrival<TraceRequest>) -> Result<(), ClusterFault>
    requires range { IsRequestInRange came.now.item }
    requires forward { level.old.lane.state.slots.time ≤ came.now.item.arrives_at }
    requires lived { IsAlive level.old }
    ensures goes { OnOk result (TakesOn came.now level.old level.new) }
    ensures time { OnOk result (level.new.lane.state.slots.time ≤ came.now.item.arrives_at) }
    ensures lived { OnOk result (IsAlive level.new) }
    ensures same { OnOk result (IsOfLevel level.old level.new) }
{
    come(&mut level.asking, came)?;
    level.late.meet(came)?;
    level.lane.arrive(came)?;
    hear(
        &mut level.asking,
        &mut level.late,
        &mut level.drawn,
        &level.lane,
    )?;
    Ok(())
}

// A request arrives on the lane of this level.
fn arrive_on(
    level: &mut LevelLane,
    came: &Arrival<TraceRequest>,
    turned_away: bool,
) -> Result<(), ClusterFault>
    requires range { IsRequestInRange came.now.item }
    requires forward { level.old.lane.state.slots.time ≤ came.now.item.arrives_at }
    requires lived { IsAlive level.old }
    ensures goes { OnOk result (TakesOn came.now level.old level.new) }
    ensures time { OnOk result (level.new.lane.state.slots.time ≤ came.now.item.arrives_at) }
    ensures lived { OnOk result (IsAlive level.new) }
    ensures same { OnOk result (AreSameLimits level.old level.new) }
    ensures counted { OnOk result (level.new.turned_away ≡ level.old.turned_away + (if is_counted level.old.late.since turned_away came.now.item.arrives_at then 1 else 0)) }
{
    let is_counted = turned_away && level.late.since <= came.item.arrives_at;
    advance_on(level, came.item.arrives_at)?;
    come_on(level, came)?;
    level.turned_away = counted(level.turned_away, is_counted)?;
    Ok(())
}

/// A request arrives on the lane of the level at this place.
///
/// # Errors
///
/// Those of a lane's `arrive`.
pub(crate) fn arrive(
    lanes: &mut Vec<LevelLane>,
    place: usize,
    came: &Arrival<TraceRequest>,
    turned_away: bool,
) -> Result<(), ClusterFault>
    requires place { place < length lanes.old.items }
    requires range { IsRequestInRange came.now.item }
    requires forward { AreInTime came.now.item.arrives_at lanes.old.items }
    requires lived { AreLived lanes.old.items }
    ensures goes { OnOk result (GoesOnAt place came.now turned_away lanes.old.items lanes.new.items) }
    ensures forward { OnOk result (AreInTime came.now.item.arrives_at lanes.new.items) }
    ensures lived { OnOk result (AreLived lanes.new.items) }
{
    arrive_on(&mut lanes[place], came, turned_away)
}

// The period of this level ends at this time, where all is carried out that was due by then. Answers what it claims for the next one.
pub(crate) fn end_on(level: &mut LevelLane, at: u64) -> Result<Claim, ClusterFault>
    requires lived { IsAlive level.old }
    requires forward { level.old.lane.state.slots.time ≤ at }
    ensures goes { IfOk result (λ claim. EndsOn at claim level.old level.new) }
    ensures range { IfOk result IsClaim }
    ensures time { OnOk result (level.new.lane.state.slots.time ≤ at) }
    ensures lived { OnOk result (IsAlive level.new) }
    ensures same { OnOk result (IsOfLevel level.old level.new) }
{
    advance_on(level, at)?;
    let claim = end_period(&mut level.asking, at)?;
    Ok(claim)
}

// The least limit from a time on, once this one is set, where it was that before.
fn least_then(since: u64, new: NewLimit, before: u32) -> u32
    ensures { result ≡ least_by since new.at new.limit before }
{
    if new.at <= since {
        new.limit
    } else {
        new.limit.min(before)
    }
}

// The greatest.
fn greatest_then(since: u64, new: NewLimit, before: u32) -> u32
    ensures { result ≡ greatest_by since new.at new.limit before }
{
    if new.at <= since {
        new.limit
    } else {
        new.limit.max(before)
    }
}

/// This level is set a limit, no earlier than anything that was carried out.
///
/// # Errors
///
/// Those of a lane's `set_limit`, or `Untimely`.
pub(crate) fn set_on(level: &mut LevelLane, new: NewLimit) -> Result<(), ClusterFault>
    requires lived { IsAlive level.old }
    requires low { new.at ≤ max_wait }
    requires some_limit { 1 ≤ new.limit }
    requires small_limit { new.limit ≤ max_limit }
    requires forward { level.old.lane.state.slots.time ≤ new.at }
    ensures set { OnOk result (IsSet new level.old level.new) }
    ensures time { OnOk result (level.new.lane.state.slots.time ≤ new.at) }
    ensures lived { OnOk result (IsAlive level.new) }
{
    level.lane.set_limit(new)?;
    level.drawn.set(new)?;
    hear(
        &mut level.asking,
        &mut level.late,
        &mut level.drawn,
        &level.lane,
    )?;
    level.least = least_then(level.late.since, new, level.least);
    level.greatest = greatest_then(level.late.since, new, level.greatest);
    Ok(())
}
