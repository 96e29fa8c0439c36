//! A fraction.

ghost use Rattle.std.specs.Prelude.{◌≡◌, ◌*◌, ◌<◌, ◌≤◌, IsTrue, ◌↔◌};
ghost use Rattle.apf_lending.specs.Breaks.{IsLess, IsSmall};
ghost use Rattle.apf_lending.specs.Claims.{max_limit};

/// A fraction, which is not reduced.
#[derive(Clone, Copy, Debug, PartialEq, Eq)]
pub struct Fraction {
    /// The numerator.
    pub over: u128,
    /// The denominator, from 1.
    pub under: u128,
}

impl Fraction {
    /// So many seats by a target of so many thousandths of a seat.
    pub(crate) fn new(seats: u64, target: u64) -> Fraction
        ensures { result ≡ record { over = seats; under = target } }
    {
        Fraction {
            over: u128::from(seats),
            under: u128::from(target),
        }
    }

    /// Whether it is less than the other.
    pub(crate) fn is_less(self, other: Fraction) -> bool
        requires one { IsSmall self }
        requires another { IsSmall other }
        ensures { IsTrue result ↔ IsLess self other }
    {
        self.over * other.under < other.over * self.under
    }
}
