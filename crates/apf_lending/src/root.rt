//! The square root of a whole number.

ghost use Rattle.std.specs.Prelude.{◌<◌, ◌^◌};
ghost use Rattle.apf_lending.specs.Demands.{IsRoot};

/// The square root of a number below 2^124, rounded down.
pub(crate) fn root_of(number: u128) -> u64
    requires { number < 2 ^ 124 }
    ensures root { IsRoot number result }
    ensures small { result < 2 ^ 62 }
{
    let mut low: u64 = 0;
    let mut high: u64 = 1 << 62;
    while high - low > 1 {
        let middle = low + (high - low) / 2;
        if u128::from(middle) * u128::from(middle) <= number {
            low = middle;
        } else {
            high = middle;
        }
    }
    low
}
