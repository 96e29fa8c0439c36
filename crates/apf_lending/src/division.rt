//! Divides the seats among the levels.

ghost use Rattle.std.specs.Prelude.{◌≡◌, ◌-◌, ◌<◌, ◌≤◌, ◌^◌, All, length, map, IfOk};
ghost use Rattle.apf_lending.specs.Claims as claimed;
ghost use Rattle.apf_lending.specs.Divisions as spec;
ghost use Rattle.apf_lending.specs.Shares.{limit_by};

use crate::claim::Claim;
use crate::factor::factor_of;
use crate::fraction::Fraction;
use crate::shares::{limit_by, rounded, sum_of_reach};
use std::alloc::{AllocError, Global};

// The least limits of all.
fn sum_of_min(claims: &[Claim]) -> u64
    requires claims { All claimed.IsClaim claims.now }
    requires few { length claims.now ≤ 1000 }
    ensures sum { result ≡ claimed.sum_of_min claims.now }
    ensures most { result < 2 ^ 59 }
{
    let mut sum = 0;
    let mut rest = claims;
    while let Some((claim, others)) = rest.split_first() {
        sum += claim.min;
        rest = others;
    }
    sum
}

// What all asked for at once, within their limits.
fn sum_of_current(claims: &[Claim]) -> u64
    requires claims { All claimed.IsClaim claims.now }
    requires few { length claims.now ≤ 1000 }
    ensures sum { result ≡ claimed.sum_of_current claims.now }
    ensures most { result < 2 ^ 59 }
{
    let mut sum = 0;
    let mut rest = claims;
    while let Some((claim, others)) = rest.split_first() {
        sum += claim.current;
        rest = others;
    }
    sum
}

// The least limit of each.
fn least(alloc: Global, claims: &[Claim]) -> Result<Vec<u64>, AllocError>
    ensures { IfOk result (λ limits. limits.items ≡ map (λ claim. claim.min) claims.now) }
{
    let mut limits = Vec::new(alloc);
    for claim in claims {
        limits.push(claim.min)?;
    }
    Ok(limits)
}

// The greatest limit of each.
fn most(alloc: Global, claims: &[Claim]) -> Result<Vec<u64>, AllocError>
    ensures { IfOk result (λ limits. limits.items ≡ map (λ claim. claim.max) claims.now) }
{
    let mut limits = Vec::new(alloc);
    for claim in claims {
        limits.push(claim.max)?;
    }
    Ok(limits)
}

// The limit of a level that has this part of what it asked for above its least limit.
fn limit_of_part(over: u64, under: u64, claim: &Claim) -> u64
    requires claim { claimed.IsClaim claim.now }
    requires over { over < 2 ^ 59 }
    requires under { under < 2 ^ 59 }
    requires some { 1 ≤ under }
    requires within { over ≤ under }
    ensures { result ≡ spec.limit_of_part over under claim.now }
{
    let above = u128::from(claim.current - claim.min) * u128::from(over);
    claim.min + rounded(above, u128::from(under)) as u64
}

// The limit of each that has this part of what it asked for above its least limit.
fn parts(alloc: Global, over: u64, under: u64, claims: &[Claim]) -> Result<Vec<u64>, AllocError>
    requires claims { All claimed.IsClaim claims.now }
    requires over { over < 2 ^ 59 }
    requires under { under < 2 ^ 59 }
    requires some { 1 ≤ under }
    requires within { over ≤ under }
    ensures { IfOk result (λ limits. limits.items ≡ map (spec.limit_of_part over under) claims.now) }
{
    let mut limits = Vec::new(alloc);
    for claim in claims {
        limits.push(limit_of_part(over, under, claim))?;
    }
    Ok(limits)
}

// The limit of each by this number.
fn scaled(alloc: Global, factor: Fraction, claims: &[Claim]) -> Result<Vec<u64>, AllocError>
    requires claims { All claimed.IsClaim claims.now }
    requires some { 1 ≤ factor.under }
    requires over { factor.over < 2 ^ 64 }
    requires under { factor.under < 2 ^ 75 }
    ensures { IfOk result (λ limits. limits.items ≡ map (limit_by factor) claims.now) }
{
    let mut limits = Vec::new(alloc);
    for claim in claims {
        limits.push(limit_by(factor, claim))?;
    }
    Ok(limits)
}

/// Divides the seats among at most 1,000 levels: the limit of each for the next period, in the order of the claims.
///
/// Where the seats are not enough for the least limits, each level has its own. Where they are not enough for what all asked for at
/// once, each has the same part of what it asked for above its least limit. Else each has one number times its target, from what
/// it asked for at once to its greatest limit, so that all seats are given out; where the limits forbid that, its greatest limit.
/// Halves are rounded up.
///
/// # Errors
///
/// `AllocError` if memory was refused.
pub fn divide(alloc: Global, seats: u64, claims: &[Claim]) -> Result<Vec<u64>, AllocError>
    requires claims { All claimed.IsClaim claims.now }
    requires few { length claims.now ≤ 1000 }
    requires seats { seats < 2 ^ 59 }
    ensures { IfOk result (λ limits. spec.IsDivision seats claims.now limits.items) }
{
    let min = sum_of_min(claims);
    let current = sum_of_current(claims);
    if seats <= min {
        least(alloc, claims)
    } else if seats <= current {
        parts(alloc, seats - min, current - min, claims)
    } else if sum_of_reach(claims) < seats {
        most(alloc, claims)
    } else {
        let factor = factor_of(alloc, seats, claims)?;
        scaled(alloc, factor, claims)
    }
}
