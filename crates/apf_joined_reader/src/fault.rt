//! Why no request is handed out.

ghost use Rattle.std.specs.Prelude.{◌≡◌};
ghost use Rattle.apf_joined_reader.specs.declared.fault.JoinFault.TheVariants.{Read, NoMemory};

use apf_audit_reader::ReadFault;
use apf_request_halves::HalvesFault;
use std::alloc::AllocError;
use thiserror::Error;

/// Why no request is handed out.
#[derive(Debug, Drop, Error)]
pub enum JoinFault {
    /// The audit log is not read: its first fault, or the input failed.
    #[error("{0}")]
    Read(ReadFault),
    /// The server's own log is not read: a fault of a line, or the input failed.
    #[error("{0}")]
    Lines(HalvesFault),
    /// Memory was refused.
    #[error("out of memory")]
    NoMemory,
}

impl From<ReadFault> for JoinFault {
    ghost from_gives = { λ read fault. fault ≡ Read read };

    fn from(fault: ReadFault) -> Self {
        Self::Read(fault)
    }
}

impl From<AllocError> for JoinFault {
    ghost from_gives = { λ _ fault. fault ≡ NoMemory };

    fn from(_refused: AllocError) -> Self {
        Self::NoMemory
    }
}
