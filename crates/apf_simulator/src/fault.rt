//! Why a trace is not simulated.

ghost use Rattle.std.specs.Prelude.{◌≡◌};
ghost use Rattle.apf_simulator.specs.Faults.{of_opening, of_stream};
ghost use Rattle.apf_simulator.specs.declared.fault.SimulatorFault.TheVariants.{NoMemory, Read};

use apf_local::OpenFault;
use apf_stream::StreamFault;
use apf_trace_reader::ReadFault;
use std::alloc::AllocError;
use thiserror::Error;

/// Why a trace is not simulated.
#[derive(Debug, Drop, Error)]
pub enum SimulatorFault {
    /// The trace is not read: its first fault, or the input failed.
    #[error("{0}")]
    Read(ReadFault),
    /// The level is not opened.
    #[error("{0}")]
    Open(OpenFault),
    /// The other level, of two, is not opened.
    #[error("{0}")]
    OpenOther(OpenFault),
    /// At the arrival of the request of this line, at this time in microseconds, all slots are taken.
    #[error("at line {0}, at {1}, more than 10000 requests are there at once")]
    Crowded(u64, u64),
    /// A request would finish later than anything is carried out, 2 * 10^14 microseconds.
    #[error("a request would finish after 200000000 seconds")]
    TooFar,
    /// There are more requests than can be counted, 2^64 - 1, or than a slot can have, 2^46.
    #[error("there are more requests than can be counted")]
    TooMany,
    /// There are more requests than can be listed, each with what became of it.
    #[error("there are more than 10000 requests")]
    TooManyListed,
    /// Both sides of the bound are asked for where requests are charged their seats.
    #[error("there is no bound where requests are charged their seats")]
    BoundOfSeats,
    /// Nothing is due, and a request still waits. It has never been seen: that it can't be is not proved.
    #[error("a request waits while no seat is taken")]
    StillWaits,
    /// The level decided other numbers of requests than its flows have, or its log could not be followed for the bound. It has
    /// never been seen: that it can't be is not proved.
    #[error("the level's book has other numbers than its flows")]
    OtherBook,
    /// The output is not written.
    #[error("cannot write")]
    CannotWrite,
    /// Memory was refused.
    #[error("out of memory")]
    NoMemory,
}

impl SimulatorFault {
    /// The other level, of two, is not opened, or memory was refused.
    pub(crate) fn of_other(fault: OpenFault) -> SimulatorFault {
        match fault {
            OpenFault::NoMemory => SimulatorFault::NoMemory,
            OpenFault::Gate(_) | OpenFault::Level(_) => SimulatorFault::OpenOther(fault),
        }
    }
}

impl From<StreamFault> for SimulatorFault {
    ghost from_gives = { λ fault told. told ≡ of_stream fault };

    fn from(fault: StreamFault) -> Self {
        match fault {
            StreamFault::NoMemory => Self::NoMemory,
            StreamFault::TooFar => Self::TooFar,
            StreamFault::UsedUp => Self::TooMany,
        }
    }
}

impl From<ReadFault> for SimulatorFault {
    ghost from_gives = { λ fault told. told ≡ Read fault };

    fn from(fault: ReadFault) -> Self {
        Self::Read(fault)
    }
}

impl From<OpenFault> for SimulatorFault {
    ghost from_gives = { λ fault told. told ≡ of_opening fault };

    fn from(fault: OpenFault) -> Self {
        match fault {
            OpenFault::NoMemory => Self::NoMemory,
            OpenFault::Gate(_) | OpenFault::Level(_) => Self::Open(fault),
        }
    }
}

impl From<AllocError> for SimulatorFault {
    ghost from_gives = { λ _ told. told ≡ NoMemory };

    fn from(_refused: AllocError) -> Self {
        Self::NoMemory
    }
}
