//! What a reader does next.

use apf_audit::AuditFault;

/// What comes next.
#[derive(Clone, Copy, Debug, PartialEq, Eq)]
pub enum Stage {
    /// The next line is cut off, or more is read.
    Reading,
    /// The input is at its end: what is held is handed out.
    Ended,
    /// This fault is told.
    Failed(AuditFault),
}
