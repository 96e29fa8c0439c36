//! Why a span is not added.

use thiserror::Error;

/// Why a span is not added.
#[derive(Clone, Copy, Debug, PartialEq, Eq, Error)]
pub enum StripFault {
    /// The sum of all amounts times their times is more than 2^128 - 1.
    #[error("the amounts are too much")]
    TooMuch,
}
