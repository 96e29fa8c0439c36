//! What a level has where each has one number times its target.

ghost use Rattle.std.specs.Prelude.{◌≡◌, ◌<◌, ◌≤◌, ◌*◌, ◌^◌, All, length, IsTrue, ◌↔◌};
ghost use Rattle.apf_lending.specs.Claims as claimed;
ghost use Rattle.apf_lending.specs.Shares as spec;

use crate::claim::Claim;
use crate::fraction::Fraction;

/// What a level has, times the denominator.
pub(crate) fn share_of(factor: Fraction, claim: &Claim) -> u128
    requires claim { claimed.IsClaim claim.now }
    requires over { factor.over < 2 ^ 64 }
    requires under { factor.under < 2 ^ 75 }
    ensures value { result ≡ spec.share_of factor claim.now }
    ensures most { result ≤ claimed.max_limit * factor.under }
{
    let most = u128::from(claim.max) * factor.under;
    let current = u128::from(claim.current) * factor.under;
    (factor.over * u128::from(claim.target))
        .max(current)
        .min(most)
}

/// What all have, times the denominator.
pub(crate) fn sum_of_shares(factor: Fraction, claims: &[Claim]) -> u128
    requires claims { All claimed.IsClaim claims.now }
    requires few { length claims.now ≤ 1000 }
    requires over { factor.over < 2 ^ 64 }
    requires under { factor.under < 2 ^ 64 }
    ensures value { result ≡ spec.sum_of_shares factor claims.now }
{
    let mut sum = 0;
    let mut rest = claims;
    while let Some((claim, others)) = rest.split_first() {
        sum += share_of(factor, claim);
        rest = others;
    }
    sum
}

// What the level has where the number is as great as can be.
fn reach_of(claim: &Claim) -> u64
    requires { claimed.IsClaim claim.now }
    ensures value { result ≡ spec.reach_by claim.now.target claim.now.current claim.now.max }
    ensures most { result ≤ claimed.max_limit }
{
    if claim.target == 0 {
        claim.current
    } else {
        claim.max
    }
}

/// What all have where the number is as great as can be.
pub(crate) fn sum_of_reach(claims: &[Claim]) -> u64
    requires claims { All claimed.IsClaim claims.now }
    requires few { length claims.now ≤ 1000 }
    ensures { result ≡ spec.sum_of_reach claims.now }
{
    let mut sum = 0;
    let mut rest = claims;
    while let Some((claim, others)) = rest.split_first() {
        sum += reach_of(claim);
        rest = others;
    }
    sum
}

/// A quotient, halves rounded up.
pub(crate) fn rounded(over: u128, under: u128) -> u128
    requires some { 1 ≤ under }
    requires over { over < 2 ^ 124 }
    requires under { under < 2 ^ 124 }
    ensures { result ≡ spec.rounded over under }
{
    (2 * over + under) / (2 * under)
}

/// The limit of a level: what it has, halves rounded up.
pub(crate) fn limit_by(factor: Fraction, claim: &Claim) -> u64
    requires claim { claimed.IsClaim claim.now }
    requires some { 1 ≤ factor.under }
    requires over { factor.over < 2 ^ 64 }
    requires under { factor.under < 2 ^ 75 }
    ensures { result ≡ spec.limit_by factor claim.now }
{
    rounded(share_of(factor, claim), factor.under) as u64
}
