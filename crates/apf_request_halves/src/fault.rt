//! Why no line is answered.

use apf_request_lines::RequestLineFault;
use std::io;
use thiserror::Error;

/// Why no line is answered.
#[derive(Debug, Drop, Error)]
pub enum HalvesFault {
    /// Memory was refused. Nothing is said of what is asked for later.
    #[error("not enough memory")]
    NoMemory,
    /// The line of this number, counted from 1, has this fault.
    #[error("line {0}: {1}")]
    Line(u64, RequestLineFault),
    /// The input failed.
    #[error("cannot read")]
    CannotRead(io::Error),
}
