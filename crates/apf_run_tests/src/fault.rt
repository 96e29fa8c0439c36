//! Why a test came to nothing.

use apf_run::{ReplayFault, RunFault};
use std::alloc::AllocError;

/// Why a test came to nothing.
#[derive(Clone, Copy, Debug, PartialEq, Eq)]
pub enum Fault {
    Replay(ReplayFault),
    Run(RunFault),
    NoMemory,
}

impl From<ReplayFault> for Fault {
    fn from(fault: ReplayFault) -> Self {
        Self::Replay(fault)
    }
}

impl From<RunFault> for Fault {
    fn from(fault: RunFault) -> Self {
        Self::Run(fault)
    }
}

impl From<AllocError> for Fault {
    fn from(_refused: AllocError) -> Self {
        Self::NoMemory
    }
}
