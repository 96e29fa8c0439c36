//! Why an audit log is refused.

ghost use Rattle.std.specs.Prelude.{◌≡◌};
ghost use Rattle.apf_audit.specs.AuditFaults.{audit_fault_number, line_of};

use thiserror::Error;

/// Why an audit log was refused. Lines are counted from 1.
///
/// Lines are judged from the first to the last, each by the faults 1 to 8 in the order of their numbers, with 12 behind
/// 4 and 13 behind 8. The first fault is answered. A request is judged by fault 10 when it is handed out. No fault has the
/// number 9.
#[derive(Clone, Copy, Debug, PartialEq, Eq, Error)]
pub enum AuditFault {
    /// 1: the line has more than 1,048,576 bytes. Its LF does not count.
    #[error("line too long")]
    TooLong(u64),
    /// 2: the line is no JSON text in UTF-8, and an LF ends it.
    #[error("not JSON")]
    NotUtf8Json(u64),
    /// 3: the value is no object with the texts `stage` and `verb`.
    #[error("not an audit event")]
    NotEvent(u64),
    /// 4: `user.username`, or `impersonatedUser.username` where there is such a user, is not a text of at most 4,096
    /// bytes. An event that has none is no fault: it is left out.
    #[error("bad username")]
    BadUser(u64),
    /// 12: `objectRef.namespace` is not a text of at most 4,096 bytes. Judged where namespaces make the flows.
    #[error("bad namespace")]
    BadNamespace(u64),
    /// 5: `requestReceivedTimestamp` is not the text of an instant from 1970 on, or it is absent.
    #[error("bad requestReceivedTimestamp")]
    BadReceived(u64),
    /// 6: `stageTimestamp` is not the text of an instant from 1970 on, or it is absent.
    #[error("bad stageTimestamp")]
    BadStage(u64),
    /// 7: the annotation `apiserver.latency.k8s.io/apf-queue-wait` is not the text of a duration from 0 to 10,000 s.
    #[error("bad apf-queue-wait")]
    BadWait(u64),
    /// 8: the run is below 0, or above 10,000,000,000 microseconds.
    #[error("bad run")]
    BadRun(u64),
    /// 10: the line's request arrives this many microseconds after the first one, more than 1,000,000,000,000.
    #[error("arrives too late")]
    BadArrival(u64, u64),
    /// 11: memory was refused.
    #[error("out of memory")]
    NoMemory,
    /// 13: the line's request was received before what was handed out: more than 131,072 requests of the lines before it
    /// were received later.
    #[error("arrives more than 131072 requests late")]
    TooLate(u64),
}

impl AuditFault {
    /// The fault's number, 1 to 13.
    pub fn number(&self) -> u8
        ensures { result ≡ audit_fault_number self.now }
    {
        match self {
            AuditFault::TooLong(_) => 1,
            AuditFault::NotUtf8Json(_) => 2,
            AuditFault::NotEvent(_) => 3,
            AuditFault::BadUser(_) => 4,
            AuditFault::BadReceived(_) => 5,
            AuditFault::BadStage(_) => 6,
            AuditFault::BadWait(_) => 7,
            AuditFault::BadRun(_) => 8,
            AuditFault::BadArrival(_, _) => 10,
            AuditFault::BadNamespace(_) => 12,
            AuditFault::NoMemory => 11,
            AuditFault::TooLate(_) => 13,
        }
    }

    /// The line of the fault, counted from 1. Out of memory has none.
    pub fn line(&self) -> Option<u64>
        ensures { result ≡ line_of self.now }
    {
        match *self {
            AuditFault::TooLong(line)
            | AuditFault::NotUtf8Json(line)
            | AuditFault::NotEvent(line)
            | AuditFault::BadUser(line)
            | AuditFault::BadNamespace(line)
            | AuditFault::BadReceived(line)
            | AuditFault::BadStage(line)
            | AuditFault::BadWait(line)
            | AuditFault::BadRun(line)
            | AuditFault::BadArrival(line, _)
            | AuditFault::TooLate(line) => Some(line),
            AuditFault::NoMemory => None,
        }
    }
}
