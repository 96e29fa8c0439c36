//! Why a level is not opened.

ghost use Rattle.std.specs.Prelude.{◌≡◌};
ghost use Rattle.apf_local.specs.declared.fault.OpenFault.TheVariants.{NoMemory};
ghost use Rattle.apf_local.specs.Openings.{told_of_gate, told_of_level};

use apf_book::BookFault;
use apf_gate::GateFault;
use std::alloc::AllocError;
use thiserror::Error;

/// Why a level is not opened.
#[derive(Clone, Copy, Debug, PartialEq, Eq, Error)]
pub enum OpenFault {
    /// The gate is not opened: `BadLimit` or `TooMany`.
    #[error("{0}")]
    Gate(GateFault),
    /// The dealer or the queues are not made.
    #[error("{0}")]
    Level(BookFault),
    /// Memory was refused.
    #[error("out of memory")]
    NoMemory,
}

impl From<GateFault> for OpenFault {
    ghost from_gives = { λ fault told. told ≡ told_of_gate fault };

    fn from(fault: GateFault) -> Self {
        match fault {
            GateFault::NoMemory => Self::NoMemory,
            _ => Self::Gate(fault),
        }
    }
}

impl From<BookFault> for OpenFault {
    ghost from_gives = { λ fault told. told ≡ told_of_level fault };

    fn from(fault: BookFault) -> Self {
        match fault {
            BookFault::NoMemory => Self::NoMemory,
            _ => Self::Level(fault),
        }
    }
}

impl From<AllocError> for OpenFault {
    ghost from_gives = { λ _ told. told ≡ NoMemory };

    fn from(_refused: AllocError) -> Self {
        Self::NoMemory
    }
}
