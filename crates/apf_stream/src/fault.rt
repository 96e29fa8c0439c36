//! Why a stream does not go on.

ghost use Rattle.std.specs.Prelude.{◌≡◌};
ghost use Rattle.apf_stream.specs.declared.fault.StreamFault.TheVariants.{NoMemory, TooFar as FinishesTooLate};

use apf_calendar::TooFar;
use std::alloc::AllocError;
use thiserror::Error;

/// Why a stream does not go on.
#[derive(Clone, Copy, Debug, PartialEq, Eq, Error)]
pub enum StreamFault {
    /// Memory was refused.
    #[error("out of memory")]
    NoMemory,
    /// A request would finish later than anything is carried out.
    #[error("a request finishes too late")]
    TooFar,
    /// A slot was given to as many requests as it can be: 2^46.
    #[error("a slot is used up")]
    UsedUp,
}

impl From<AllocError> for StreamFault {
    ghost from_gives = { λ _ told. told ≡ NoMemory };

    fn from(_refused: AllocError) -> Self {
        Self::NoMemory
    }
}

impl From<TooFar> for StreamFault {
    ghost from_gives = { λ _ told. told ≡ FinishesTooLate };

    fn from(_late: TooFar) -> Self {
        Self::TooFar
    }
}
