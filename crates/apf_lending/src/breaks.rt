//! Where what levels have by one number ceases to be linear in it.

ghost use Rattle.std.specs.Prelude.{◌≡◌, ◌++◌, All, IfOk, OnOk};
ghost use Rattle.apf_lending.specs.Claims.{IsClaim};
ghost use Rattle.apf_lending.specs.Breaks as spec;

use crate::claim::Claim;
use crate::fraction::Fraction;
use std::alloc::{AllocError, Global};

// The numbers at which this level comes above what it asked for at once, or to its greatest limit.
fn push_breaks(breaks: &mut Vec<Fraction>, claim: &Claim) -> Result<(), AllocError>
    requires { IsClaim claim.now }
    ensures breaks { OnOk result (breaks.new.items ≡ breaks.old.items ++ spec.breaks_by claim.now.target claim.now.current claim.now.max) }
    ensures small { OnOk result (All spec.IsSmall breaks.old.items → All spec.IsSmall breaks.new.items) }
{
    if claim.target != 0 {
        breaks.push(Fraction::new(claim.current, claim.target))?;
        breaks.push(Fraction::new(claim.max, claim.target))?;
    }
    Ok(())
}

/// The numbers at which a level comes above what it asked for at once, or to its greatest limit.
///
/// # Errors
///
/// `AllocError` if memory was refused.
pub(crate) fn breaks_of(alloc: Global, claims: &[Claim]) -> Result<Vec<Fraction>, AllocError>
    requires { All IsClaim claims.now }
    ensures breaks { IfOk result (λ breaks. breaks.items ≡ spec.breaks_of claims.now) }
    ensures small { IfOk result (λ breaks. All spec.IsSmall breaks.items) }
{
    let mut breaks = Vec::new(alloc);
    for claim in claims {
        push_breaks(&mut breaks, claim)?;
    }
    Ok(breaks)
}

// The greater of two.
fn greater_of(one: Fraction, other: Fraction) -> Fraction
    requires one { spec.IsSmall one }
    requires another { spec.IsSmall other }
    ensures small { spec.IsSmall result }
    ensures from_one { spec.IsUpTo one result }
    ensures from_other { spec.IsUpTo other result }
{
    if one.is_less(other) { other } else { one }
}

/// The greatest of these, or 0.
pub(crate) fn greatest_of(breaks: &[Fraction]) -> Fraction
    requires { All spec.IsSmall breaks.now }
    ensures small { spec.IsSmall result }
    ensures greatest { All (λ b. spec.IsUpTo b result) breaks.now }
{
    let mut greatest = Fraction { over: 0, under: 1 };
    for at in breaks {
        greatest = greater_of(greatest, *at);
    }
    greatest
}
