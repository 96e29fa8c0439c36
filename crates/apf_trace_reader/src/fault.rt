//! Why no request is handed out.

use apf_traces::TraceFault;
use std::io;
use thiserror::Error;

/// Why no request is handed out.
#[derive(Debug, Drop, Error)]
pub enum ReadFault {
    /// The first fault of the trace, or memory was refused.
    #[error("{0}")]
    Trace(TraceFault),
    /// The input failed.
    #[error("cannot read")]
    CannotRead(io::Error),
}
