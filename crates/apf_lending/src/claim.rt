//! What a level claims of the seats.

ghost use Rattle.std.specs.Prelude.{◌≡◌, ◌≤◌};
ghost use Rattle.apf_lending.specs.Claims.{limited_claim, exempt_claim, IsClaim, least_of_all};

/// What a level claims of the seats for the next period. The limits are seats, at most 2^48 - 1, and each is at most the next.
#[derive(Clone, Copy, Debug, PartialEq, Eq)]
pub struct Claim {
    /// What it has whatever the others claim: its nominal limit less what it lends.
    pub min: u64,
    /// What it has where there is enough for that: what it asked for at once, from the least limit to the nominal one.
    pub current: u64,
    /// What it has at most.
    pub max: u64,
    /// What it would have, in thousandths of a seat.
    pub target: u64,
}

// What the level asked for at once, from its least limit to the nominal one.
fn current_of(min: u64, nominal: u64, high: u64) -> u64
    ensures { result ≡ least_of_all min nominal high }
{
    nominal.min(high).max(min)
}

impl Claim {
    /// What a level claims that has these limits, where in the last period its requests asked at most for `high` seats at once,
    /// and lately for `smoothed` thousandths of a seat.
    pub fn of_limited(min: u64, nominal: u64, max: u64, high: u64, smoothed: u64) -> Claim
        requires lends { min ≤ nominal }
        requires borrows { nominal ≤ max }
        requires few { max ≤ 281474976710655 }
        ensures value { result ≡ limited_claim min nominal max high smoothed }
        ensures range { IsClaim result }
    {
        let current = current_of(min, nominal, high);
        Claim {
            min,
            current,
            max,
            target: smoothed.max(1000 * current),
        }
    }

    /// What an exempt level claims: what its requests asked for at once, and nothing else.
    pub fn of_exempt(min: u64, nominal: u64, high: u64) -> Claim
        requires lends { min ≤ nominal }
        requires few { nominal ≤ 281474976710655 }
        ensures value { result ≡ exempt_claim min nominal high }
        ensures range { IsClaim result }
    {
        let current = current_of(min, nominal, high);
        Claim {
            min: current,
            current,
            max: current,
            target: 0,
        }
    }
}
