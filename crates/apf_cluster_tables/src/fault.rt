//! Why what the levels of two clusters came to is not written.

use std::alloc::AllocError;
use std::io;
use thiserror::Error;

/// Why what the levels of two clusters came to is not written.
#[derive(Clone, Copy, Debug, PartialEq, Eq, Error)]
pub enum TablesFault {
    /// Memory was refused.
    #[error("out of memory")]
    NoMemory,
    /// The writer's fault.
    #[error("the output can't be written")]
    CannotWrite,
}

impl From<AllocError> for TablesFault {
    fn from(_refused: AllocError) -> TablesFault {
        TablesFault::NoMemory
    }
}

impl From<io::Error> for TablesFault {
    fn from(_fault: io::Error) -> TablesFault {
        TablesFault::CannotWrite
    }
}
