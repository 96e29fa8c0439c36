//! Why a log is not simulated.

use apf_audit::AuditFault;
use apf_audit_reader::ReadFault;
use apf_joined_reader::JoinFault;
use apf_lender::Untimely;
use apf_local::OpenFault;
use apf_request_halves::HalvesFault;
use apf_simulator::SimulatorFault;
use std::alloc::AllocError;
use thiserror::Error;

/// Why a log is not simulated.
#[derive(Debug, Drop, Error)]
pub enum ClusterFault {
    /// The log is not read: its first fault, or the input failed.
    #[error("{0}")]
    Read(ReadFault),
    /// The server's own log is not read: a fault of a line, or the input failed.
    #[error("{0}")]
    Lines(HalvesFault),
    /// The level at this place is not opened.
    #[error("level {0}: {1}")]
    Open(usize, OpenFault),
    /// What runs on a level.
    #[error("{0}")]
    Level(SimulatorFault),
    /// The request of this line was handed out before its time, runs for too long, has no width that a request can have, or is of
    /// no level. It has never been seen: that it can't be is not proved.
    #[error("line {0} is of no level, or out of order")]
    Misread(u64),
    /// A level was told what its requests ask for out of its time. It has never been seen: that it can't be is not proved.
    #[error("what a level asks for was told out of its time")]
    Untimely,
    /// There are more requests than can be counted, 2^64 - 1.
    #[error("there are more requests than can be counted")]
    TooMany,
    /// Memory was refused.
    #[error("out of memory")]
    NoMemory,
}

impl ClusterFault {
    /// The level at this place is not opened, or memory was refused.
    pub(crate) fn of_level(place: usize, fault: OpenFault) -> ClusterFault {
        match fault {
            OpenFault::NoMemory => ClusterFault::NoMemory,
            OpenFault::Gate(_) | OpenFault::Level(_) => ClusterFault::Open(place, fault),
        }
    }
}

impl From<ReadFault> for ClusterFault {
    fn from(fault: ReadFault) -> Self {
        match fault {
            ReadFault::Log(AuditFault::NoMemory) => Self::NoMemory,
            ReadFault::Log(_) | ReadFault::CannotRead(_) => Self::Read(fault),
        }
    }
}

impl From<JoinFault> for ClusterFault {
    fn from(fault: JoinFault) -> Self {
        match fault {
            JoinFault::Read(fault) => Self::from(fault),
            JoinFault::Lines(HalvesFault::NoMemory) | JoinFault::NoMemory => Self::NoMemory,
            JoinFault::Lines(fault) => Self::Lines(fault),
        }
    }
}

impl From<AuditFault> for ClusterFault {
    fn from(fault: AuditFault) -> Self {
        Self::from(ReadFault::Log(fault))
    }
}

impl From<SimulatorFault> for ClusterFault {
    fn from(fault: SimulatorFault) -> Self {
        match fault {
            SimulatorFault::NoMemory => Self::NoMemory,
            SimulatorFault::TooMany => Self::TooMany,
            _ => Self::Level(fault),
        }
    }
}

impl From<Untimely> for ClusterFault {
    fn from(_told: Untimely) -> Self {
        Self::Untimely
    }
}

impl From<AllocError> for ClusterFault {
    fn from(_refused: AllocError) -> Self {
        Self::NoMemory
    }
}
