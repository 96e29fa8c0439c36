//! Why a line is not read.

ghost use Rattle.std.specs.Prelude.{◌≡◌};
ghost use Rattle.apf_request_lines.specs.declared.fault.RequestLineFault.TheVariants.{NoMemory};

use crate::key::Key;
use std::alloc::AllocError;
use thiserror::Error;

/// Why a line is not read.
#[derive(Clone, Copy, Debug, PartialEq, Eq, Drop, Error)]
pub enum RequestLineFault {
    /// Memory was refused.
    #[error("not enough memory")]
    NoMemory,
    /// No quote ends a text.
    #[error("no quote ends a text")]
    Unended,
    /// The value of this key is not of its kind.
    #[error("the value of {0} is not of its kind")]
    NotOfKind(Key),
    /// The time of the execution and the additional latency are more than 10,000,000,000 microseconds together.
    #[error("it ran longer than 10,000 seconds")]
    TooLong,
}

impl From<AllocError> for RequestLineFault {
    ghost from_gives = { λ _ fault. fault ≡ NoMemory };

    fn from(_error: AllocError) -> RequestLineFault {
        RequestLineFault::NoMemory
    }
}
