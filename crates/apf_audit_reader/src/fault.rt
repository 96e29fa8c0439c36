//! Why no request is handed out.

use apf_audit::AuditFault;
use std::io;
use thiserror::Error;

/// Why no request is handed out.
#[derive(Debug, Drop, Error)]
pub enum ReadFault {
    /// The first fault of the log, or memory was refused.
    #[error("{0}")]
    Log(AuditFault),
    /// The input failed.
    #[error("cannot read")]
    CannotRead(io::Error),
}
