//! The seats of the server are lent to its levels anew, at the end of each period.

ghost use Rattle.std.specs.Prelude.{◌≡◌, ℕ, suc, ◌+◌, ◌*◌, ◌^◌, ◌<◌, ◌≤◌, All, List, length, slice_get, IfOk, OnOk};
ghost use Rattle.apf_audit.specs.AuditEvent.{Event};
ghost use Rattle.apf_times.specs.Limits.{max_wait};
ghost use Rattle.apf_lending.specs.Claims.{IsClaim};
ghost use Rattle.apf_words.specs.Limits.{max_limit};
ghost use Rattle.apf_cluster_tables.specs.Limits.{limit_of as limit_by};
ghost use Rattle.apf_cluster.specs.Lending.{or_none, period};
ghost use Rattle.apf_cluster.specs.Runs.{AreEnded, AreInTime, AreLived, AreSet, HaveGoneOn, IsAlive, IsSetBy, Reaches, course_of, nominal_of_all};

use crate::fault::ClusterFault;
use crate::feeding::Way;
use crate::lanes::{LevelLane, advance_on, end_on, set_on};
use apf_calendar::MOST_TIME;
use apf_cluster_tables::limit_of;
use apf_lending::{Claim, divide};
use apf_stream::NewLimit;
use std::alloc::Global;

/// How long the limits stay, in microseconds.
const PERIOD: u64 = 10_000_000;

/// One more than the most seats that are divided: 2^59.
const TOO_MANY_SEATS: u64 = 576_460_752_303_423_488;

/// When the next period ends, behind so many.
///
/// # Errors
///
/// `Untimely` if that is later than a request can be over.
pub(crate) fn end_after(periods: u64) -> Result<u64, ClusterFault>
    ensures end { IfOk result (λ at. at ≡ period * suc periods) }
    ensures low { IfOk result (λ at. at ≤ max_wait) }
{
    if periods >= MOST_TIME / PERIOD {
        return Err(ClusterFault::Untimely);
    }
    Ok((periods + 1) * PERIOD)
}

// The period of each level ends. What each claims for the next one.
fn end_all(alloc: Global, lanes: &mut Vec<LevelLane>, at: u64) -> Result<Vec<Claim>, ClusterFault>
    requires in_time { AreInTime at lanes.old.items }
    requires lived { AreLived lanes.old.items }
    ensures ended { IfOk result (λ claims. AreEnded at lanes.old.items lanes.new.items claims.items) }
    ensures range { IfOk result (λ claims. All IsClaim claims.items) }
    ensures in_time { OnOk result (AreInTime at lanes.new.items) }
    ensures lived { OnOk result (AreLived lanes.new.items) }
{
    let mut claims = Vec::with_capacity(alloc, lanes.len())?;
    for level in 0..lanes.len() {
        let claim = end_on(&mut lanes[level], at)?;
        let Ok(()) = claims.push(claim) else {
            return Err(ClusterFault::NoMemory);
        };
    }
    Ok(claims)
}

// The limit of the level at this place, as a lane is set it.
fn given(limits: &[u64], level: usize) -> u32
    ensures is { result ≡ limit_by (or_none (slice_get limits.now level)) }
    ensures some { 1 ≤ result }
    ensures small { result ≤ max_limit }
{
    match limits.get(level) {
        Some(limit) => limit_of(*limit),
        None => limit_of(0),
    }
}

// The level is set the limit, if it is lent seats.
fn set_one(level: &mut LevelLane, new: NewLimit) -> Result<(), ClusterFault>
    requires lived { IsAlive level.old }
    requires low { new.at ≤ max_wait }
    requires some_limit { 1 ≤ new.limit }
    requires small_limit { new.limit ≤ max_limit }
    requires forward { level.old.lane.state.slots.time ≤ new.at }
    ensures set { OnOk result (IsSetBy level.old.is_lent new level.old level.new) }
    ensures time { OnOk result (level.new.lane.state.slots.time ≤ new.at) }
    ensures lived { OnOk result (IsAlive level.new) }
{
    if level.is_lent {
        set_on(level, new)
    } else {
        Ok(())
    }
}

// Each level that is lent seats is set its limit.
fn set_all(lanes: &mut Vec<LevelLane>, at: u64, limits: &[u64]) -> Result<(), ClusterFault>
    requires low { at ≤ max_wait }
    requires in_time { AreInTime at lanes.old.items }
    requires lived { AreLived lanes.old.items }
    ensures set { OnOk result (AreSet at limits.now lanes.old.items lanes.new.items) }
    ensures in_time { OnOk result (AreInTime at lanes.new.items) }
    ensures lived { OnOk result (AreLived lanes.new.items) }
{
    for level in 0..lanes.len() {
        let limit = given(limits, level);
        set_one(&mut lanes[level], NewLimit { at, limit })?;
    }
    Ok(())
}

// The nominal limits of all levels together: what is divided.
fn sum_of_nominal(lanes: &[LevelLane]) -> Result<u64, ClusterFault>
    ensures is { IfOk result (λ sum. sum ≡ nominal_of_all lanes.now) }
    ensures few { IfOk result (λ sum. sum < 2 ^ 59) }
{
    let mut sum = 0;
    let mut rest = lanes;
    while let Some((level, others)) = rest.split_first() {
        if level.nominal >= TOO_MANY_SEATS - sum {
            return Err(ClusterFault::TooMany);
        }
        sum += level.nominal;
        rest = others;
    }
    Ok(sum)
}

// The period ends that ends next, and the seats are divided anew.
fn adjust(
    alloc: Global,
    way: Way<'_>,
    lanes: &mut Vec<LevelLane>,
    periods: u64,
) -> Result<u64, ClusterFault>
    requires count { length lanes.old.items ≤ 1000 }
    requires in_time { AreInTime (period * suc periods) lanes.old.items }
    requires lived { AreLived lanes.old.items }
    ensures reaches { IfOk result (λ next. (told : List Event) → Reaches (course_of way.entry) told lanes.old.items periods → Reaches (course_of way.entry) told lanes.new.items next) }
    ensures next { IfOk result (λ next. next ≡ suc periods) }
    ensures in_time { OnOk result (AreInTime (period * suc periods) lanes.new.items) }
    ensures lived { OnOk result (AreLived lanes.new.items) }
    ensures count { OnOk result (length lanes.new.items ≡ length lanes.old.items) }
{
    let at = end_after(periods)?;
    let seats = sum_of_nominal(lanes.as_slice())?;
    let claims = end_all(alloc, lanes, at)?;
    let limits = divide(alloc, seats, claims.as_slice())?;
    set_all(lanes, at, limits.as_slice())?;
    Ok(periods + 1)
}

/// Each period ends that ends by this time, one after another. Before this so many have ended, and nothing was carried out behind
/// the end of the next. Answers how many have ended then.
///
/// # Errors
///
/// Those of a lane's `advance` and `set_limit`, `NoMemory`, or `Untimely`.
pub(crate) fn pass(
    alloc: Global,
    way: Way<'_>,
    lanes: &mut Vec<LevelLane>,
    periods: u64,
    by: u64,
) -> Result<u64, ClusterFault>
    requires count { length lanes.old.items ≤ 1000 }
    requires forward { AreInTime by lanes.old.items }
    requires next { AreInTime (period * suc periods) lanes.old.items }
    requires lived { AreLived lanes.old.items }
    ensures reaches { IfOk result (λ ended. (told : List Event) → Reaches (course_of way.entry) told lanes.old.items periods → Reaches (course_of way.entry) told lanes.new.items ended) }
    ensures in_time { OnOk result (AreInTime by lanes.new.items) }
    ensures all { IfOk result (λ ended. by < period * suc ended) }
    ensures lived { OnOk result (AreLived lanes.new.items) }
    ensures count { OnOk result (length lanes.new.items ≡ length lanes.old.items) }
{
    let mut ended = periods;
    for period in periods..by / PERIOD {
        ended = adjust(alloc, way, lanes, period)?;
    }
    Ok(ended)
}

// Carries out all that is due on each lane up to this time.
fn advance_all(lanes: &mut Vec<LevelLane>, at: u64) -> Result<(), ClusterFault>
    requires in_time { AreInTime at lanes.old.items }
    requires lived { AreLived lanes.old.items }
    ensures gone { OnOk result (HaveGoneOn lanes.old.items lanes.new.items) }
    ensures in_time { OnOk result (AreInTime at lanes.new.items) }
    ensures lived { OnOk result (AreLived lanes.new.items) }
{
    for level in 0..lanes.len() {
        advance_on(&mut lanes[level], at)?;
    }
    Ok(())
}

// Whether some level asks for seats.
fn is_asked(lanes: &[LevelLane]) -> bool {
    for level in lanes {
        if level.asking.seats() > 0 {
            return true;
        }
    }
    false
}

// Carries out all that is due by the end of the next period. Answers whether somebody is there then.
fn is_asked_then(
    way: Way<'_>,
    lanes: &mut Vec<LevelLane>,
    periods: u64,
) -> Result<bool, ClusterFault>
    requires next { AreInTime (period * suc periods) lanes.old.items }
    requires lived { AreLived lanes.old.items }
    ensures reaches { OnOk result ((told : List Event) → Reaches (course_of way.entry) told lanes.old.items periods → Reaches (course_of way.entry) told lanes.new.items periods) }
    ensures next { OnOk result (AreInTime (period * suc periods) lanes.new.items) }
    ensures lived { OnOk result (AreLived lanes.new.items) }
    ensures count { OnOk result (length lanes.new.items ≡ length lanes.old.items) }
{
    let at = end_after(periods)?;
    advance_all(lanes, at)?;
    Ok(is_asked(lanes.as_slice()))
}

/// Periods end, one after another, as long as somebody is there as they do. Answers how many have ended then.
///
/// # Errors
///
/// Those of `pass`.
pub(crate) fn pass_all(
    alloc: Global,
    way: Way<'_>,
    lanes: &mut Vec<LevelLane>,
    periods: u64,
) -> Result<u64, ClusterFault>
    requires count { length lanes.old.items ≤ 1000 }
    requires next { AreInTime (period * suc periods) lanes.old.items }
    requires lived { AreLived lanes.old.items }
    ensures reaches { IfOk result (λ ended. (told : List Event) → Reaches (course_of way.entry) told lanes.old.items periods → Reaches (course_of way.entry) told lanes.new.items ended) }
    ensures lived { OnOk result (AreLived lanes.new.items) }
    ensures count { OnOk result (length lanes.new.items ≡ length lanes.old.items) }
{
    let mut ended = periods;
    'settling: for _ in 0..u64::MAX {
        if !is_asked_then(way, lanes, ended)? {
            return Ok(ended);
        }
        ended = adjust(alloc, way, lanes, ended)?;
    }
    Err(ClusterFault::Untimely)
}
