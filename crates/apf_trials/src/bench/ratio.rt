//! A ratio of two times.

use std::fmt;

/// A ratio, in hundredths.
#[derive(Clone, Copy)]
pub struct Ratio {
    hundredths: u64,
}

impl Ratio {
    /// One time beside another.
    pub fn of(time: u64, beside: u64) -> Ratio {
        Ratio {
            hundredths: time.saturating_mul(100) / beside.max(1),
        }
    }
}

impl fmt::Display for Ratio {
    fn fmt<W: fmt::Write>(&self, f: &mut fmt::Formatter<W>) -> fmt::Result {
        let (whole, rest) = (self.hundredths / 100, self.hundredths % 100);
        write!(f, "{whole}.{rest:02}")
    }
}
