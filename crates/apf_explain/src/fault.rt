//! Why a line is not written.

ghost use Rattle.std.specs.Prelude.{◌≡◌};
ghost use Rattle.apf_explain.specs.declared.fault.ExplainFault.TheVariants.{CannotWrite, NoMemory};

use std::alloc::AllocError;
use std::io;
use thiserror::Error;

/// Why the line of a fault is not written.
#[derive(Clone, Copy, Debug, PartialEq, Eq, Error)]
pub enum ExplainFault {
    /// Memory was refused, here or to the reader of the file.
    #[error("out of memory")]
    NoMemory,
    /// The output was not written. Nothing is known of how much of it was.
    #[error("cannot write")]
    CannotWrite,
}

impl From<AllocError> for ExplainFault {
    ghost from_gives = { λ _ fault. fault ≡ NoMemory };

    fn from(_error: AllocError) -> Self {
        ExplainFault::NoMemory
    }
}

impl From<io::Error> for ExplainFault {
    ghost from_gives = { λ _ fault. fault ≡ CannotWrite };

    fn from(_error: io::Error) -> Self {
        ExplainFault::CannotWrite
    }
}
