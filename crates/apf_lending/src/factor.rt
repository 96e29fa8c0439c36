//! The number with which all levels have all seats together.

ghost use Rattle.std.specs.Prelude.{◌≡◌, ◌<◌, ◌≤◌, ◌*◌, ◌^◌, ◌⊎◌, All, length, IsTrue, ◌↔◌, IfOk};
ghost use Rattle.apf_lending.specs.Claims.{IsClaim, max_limit, sum_of_current};
ghost use Rattle.apf_lending.specs.Shares.{IsFactor, sum_of_reach};
ghost use Rattle.apf_lending.specs.Breaks as spec;
ghost use Rattle.apf_lending.specs.Pieces.{fixed_in, free_in};

use crate::breaks::{breaks_of, greatest_of};
use crate::claim::Claim;
use crate::fraction::Fraction;
use crate::shares::sum_of_shares;
use std::alloc::{AllocError, Global};

// Whether all have at least these seats with this number.
fn reaches(factor: Fraction, seats: u64, claims: &[Claim]) -> bool
    requires claims { All IsClaim claims.now }
    requires few { length claims.now ≤ 1000 }
    requires small { spec.IsSmall factor }
    requires seats { seats < 2 ^ 59 }
    ensures { IsTrue result ↔ spec.Reaches seats claims.now factor }
{
    sum_of_shares(factor, claims) >= u128::from(seats) * factor.under
}

// The lesser of two with which all have at least these seats, where they have with the first.
fn lesser_reaching(least: Fraction, at: Fraction, seats: u64, claims: &[Claim]) -> Fraction
    requires claims { All IsClaim claims.now }
    requires few { length claims.now ≤ 1000 }
    requires seats { seats < 2 ^ 59 }
    requires small { spec.IsSmall least }
    requires at_small { spec.IsSmall at }
    requires reaches { spec.Reaches seats claims.now least }
    ensures small { spec.IsSmall result }
    ensures reaches { spec.Reaches seats claims.now result }
    ensures up_to_least { spec.IsUpTo result least }
    ensures up_to_at { spec.Reaches seats claims.now at → spec.IsUpTo result at }
{
    if at.is_less(least) && reaches(at, seats, claims) {
        at
    } else {
        least
    }
}

// The least of these with which all have at least these seats, where they have with this one, which is not less than any.
fn least_reaching(greatest: Fraction, breaks: &[Fraction], seats: u64, claims: &[Claim]) -> Fraction
    requires claims { All IsClaim claims.now }
    requires few { length claims.now ≤ 1000 }
    requires seats { seats < 2 ^ 59 }
    requires small { All spec.IsSmall breaks.now }
    requires greatest_small { spec.IsSmall greatest }
    requires reaches { spec.Reaches seats claims.now greatest }
    ensures small { spec.IsSmall result }
    ensures reaches { spec.Reaches seats claims.now result }
    ensures least { All (λ b. spec.Reaches seats claims.now b → spec.IsUpTo result b) breaks.now }
{
    let mut least = greatest;
    for at in breaks {
        least = lesser_reaching(least, *at, seats, claims);
    }
    least
}

// The greater of two that are below this one, where the first is.
fn greater_below(below: Fraction, at: Fraction, from: Fraction) -> Fraction
    requires small { spec.IsSmall below }
    requires at_small { spec.IsSmall at }
    requires from_small { spec.IsSmall from }
    requires less { spec.IsLess below from }
    ensures small { spec.IsSmall result }
    ensures less { spec.IsLess result from }
    ensures from_below { spec.IsUpTo below result }
    ensures from_at { spec.IsLess at from → spec.IsUpTo at result }
    ensures one { (result ≡ below) ⊎ (result ≡ at) }
{
    if at.is_less(from) && below.is_less(at) {
        at
    } else {
        below
    }
}

// The greatest of these below this one, or 0, where all below it reach fewer than these seats.
fn greatest_below(from: Fraction, breaks: &[Fraction]) -> Fraction
    requires small { All spec.IsSmall breaks.now }
    requires from_small { spec.IsSmall from }
    requires some { 1 ≤ from.over }
    ensures small { spec.IsSmall result }
    ensures less { spec.IsLess result from }
    ensures apart { spec.AreApart result from breaks.now }
    ensures one { spec.IsOneOf result breaks.now }
{
    let mut below = Fraction { over: 0, under: 1 };
    for at in breaks {
        below = greater_below(below, *at, from);
    }
    below
}

// The limit of a level that is fixed between the two, or its target.
enum Piece {
    Fixed(u64),
    Free(u64),
}

// What a level has between the two.
fn piece_of(below: Fraction, from: Fraction, claim: &Claim) -> Piece
    requires claim { IsClaim claim.now }
    requires below { spec.IsSmall below }
    requires from { spec.IsSmall from }
    ensures fixed { fixed_in result ≡ spec.fixed_by below from claim.now }
    ensures free { free_in result ≡ spec.free_by below from claim.now }
    ensures few { fixed_in result ≤ max_limit }
    ensures small { free_in result < 2 ^ 64 }
{
    if from.over * u128::from(claim.target) <= u128::from(claim.current) * from.under {
        Piece::Fixed(claim.current)
    } else if u128::from(claim.max) * below.under <= below.over * u128::from(claim.target) {
        Piece::Fixed(claim.max)
    } else {
        Piece::Free(claim.target)
    }
}

// The fixed limits of all between the two, and the targets of the others.
fn pieces_of(below: Fraction, from: Fraction, claims: &[Claim]) -> (u64, u128)
    requires claims { All IsClaim claims.now }
    requires few { length claims.now ≤ 1000 }
    requires below { spec.IsSmall below }
    requires from { spec.IsSmall from }
    ensures fixed { result.0 ≡ spec.sum_of_fixed below from claims.now }
    ensures free { result.1 ≡ spec.sum_of_free below from claims.now }
    ensures small { result.1 < 2 ^ 75 }
{
    let mut fixed = 0;
    let mut free = 0;
    let mut rest = claims;
    while let Some((claim, others)) = rest.split_first() {
        match piece_of(below, from, claim) {
            Piece::Fixed(limit) => fixed += limit,
            Piece::Free(target) => free += u128::from(target),
        }
        rest = others;
    }
    (fixed, free)
}

// The number with which all levels have these seats together, where these are all breaks.
fn factor_by(breaks: &[Fraction], seats: u64, claims: &[Claim]) -> Fraction
    requires claims { All IsClaim claims.now }
    requires few { length claims.now ≤ 1000 }
    requires seats { seats < 2 ^ 59 }
    requires more { sum_of_current claims.now < seats }
    requires reach { seats ≤ sum_of_reach claims.now }
    requires breaks { breaks.now ≡ spec.breaks_of claims.now }
    requires small { All spec.IsSmall breaks.now }
    ensures factor { IsFactor seats claims.now result }
    ensures over { result.over < 2 ^ 64 }
    ensures under { result.under < 2 ^ 75 }
{
    let greatest = greatest_of(breaks);
    let from = least_reaching(greatest, breaks, seats, claims);
    let below = greatest_below(from, breaks);
    let (fixed, free) = pieces_of(below, from, claims);
    Fraction {
        over: u128::from(seats - fixed),
        under: free,
    }
}

/// The number with which all levels have these seats together, where what they asked for at once is fewer, and their greatest limits
/// are not.
///
/// # Errors
///
/// `AllocError` if memory was refused.
pub(crate) fn factor_of(alloc: Global, seats: u64, claims: &[Claim]) -> Result<Fraction, AllocError>
    requires claims { All IsClaim claims.now }
    requires few { length claims.now ≤ 1000 }
    requires seats { seats < 2 ^ 59 }
    requires more { sum_of_current claims.now < seats }
    requires reach { seats ≤ sum_of_reach claims.now }
    ensures factor { IfOk result (λ f. IsFactor seats claims.now f) }
    ensures over { IfOk result (λ f. f.over < 2 ^ 64) }
    ensures under { IfOk result (λ f. f.under < 2 ^ 75) }
{
    let breaks = breaks_of(alloc, claims)?;
    Ok(factor_by(&breaks, seats, claims))
}
