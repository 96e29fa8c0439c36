//! Why a replay or a run came to nothing.

ghost use Rattle.std.specs.Prelude.{◌≡◌};
ghost use Rattle.apf_session.specs.Openings.{told_of_level};
ghost use Rattle.apf_run.specs.declared.fault.RunFault.TheVariants as run;
ghost use Rattle.apf_run.specs.Faults.{told_of_opening, told_of_local};

use apf_book::BookFault;
use apf_gate::GateFault;
use apf_session::OpenFault;
use std::alloc::AllocError;
use thiserror::Error;

/// Why a script was not replayed: why its level was not opened.
pub type ReplayFault = OpenFault;

/// Why a level of one thread was not opened, as a replay tells it.
pub fn told(fault: apf_local::OpenFault) -> ReplayFault
    ensures { result ≡ told_of_local fault }
{
    match fault {
        apf_local::OpenFault::Gate(fault) => ReplayFault::Gate(fault),
        apf_local::OpenFault::Level(fault) => ReplayFault::Level(fault),
        apf_local::OpenFault::NoMemory => ReplayFault::NoMemory,
    }
}

/// Why requests were not run by workers.
#[derive(Clone, Copy, Debug, PartialEq, Eq, Error)]
pub enum RunFault {
    /// Memory was refused.
    #[error("out of memory")]
    NoMemory,
    /// The worker of this number could not be started.
    #[error("worker {0} could not start")]
    Worker(u32),
    /// The gate was not opened.
    #[error("{0}")]
    Gate(GateFault),
    /// The level was not opened.
    #[error("{0}")]
    Level(BookFault),
}

impl From<OpenFault> for RunFault {
    ghost from_gives = { λ fault told. told ≡ told_of_opening fault };

    fn from(fault: OpenFault) -> Self {
        match fault {
            OpenFault::Gate(fault) => Self::Gate(fault),
            OpenFault::Level(fault) => Self::Level(fault),
            OpenFault::NoMemory => Self::NoMemory,
        }
    }
}

impl From<BookFault> for RunFault {
    ghost from_gives = { λ fault told. told ≡ told_of_opening (told_of_level fault) };

    fn from(fault: BookFault) -> Self {
        OpenFault::from(fault).into()
    }
}

impl From<AllocError> for RunFault {
    ghost from_gives = { λ _ told. told ≡ run.NoMemory };

    fn from(_refused: AllocError) -> Self {
        Self::NoMemory
    }
}
