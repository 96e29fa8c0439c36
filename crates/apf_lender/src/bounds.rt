//! Between which limits a level is lent seats.

ghost use Rattle.std.specs.Prelude.{◌≡◌, ◌≤◌};
ghost use Rattle.apf_lending.specs.Claims.{IsClaim};
ghost use Rattle.apf_lender.specs.Bounds.{AreBounds, claim_of as the_claim_of};

use apf_lending::Claim;

/// Between which limits a level is lent seats, each at most 2^48 - 1 seats and at most the next.
#[derive(Clone, Copy, Debug, PartialEq, Eq)]
pub enum Bounds {
    /// Of a level that holds requests back: its least limit, the nominal one, and the greatest.
    Limited(u64, u64, u64),
    /// Of an exempt level, which holds none back: its least limit and the nominal one.
    Exempt(u64, u64),
}

/// What a level claims whose requests asked at most for `high` seats at once in the last period, and lately for `smoothed`
/// thousandths of a seat.
pub(crate) fn claim_of(bounds: Bounds, high: u64, smoothed: u64) -> Claim
    requires { AreBounds bounds }
    ensures value { result ≡ the_claim_of bounds high smoothed }
    ensures range { IsClaim result }
{
    match bounds {
        Bounds::Limited(min, nominal, max) => Claim::of_limited(min, nominal, max, high, smoothed),
        Bounds::Exempt(min, nominal) => Claim::of_exempt(min, nominal, high),
    }
}
