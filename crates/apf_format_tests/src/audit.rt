//! The texts of the faults of `apf_audit`: each command says more of a fault than its text.

use crate::asserts::is;
use apf_audit::AuditFault;
use std::test::Fail;

const TEXTS: [(AuditFault, &str); 12] = [
    (AuditFault::TooLong(7), "line too long"),
    (AuditFault::NotUtf8Json(7), "not JSON"),
    (AuditFault::NotEvent(7), "not an audit event"),
    (AuditFault::BadUser(7), "bad username"),
    (AuditFault::BadReceived(7), "bad requestReceivedTimestamp"),
    (AuditFault::BadStage(7), "bad stageTimestamp"),
    (AuditFault::BadWait(7), "bad apf-queue-wait"),
    (AuditFault::BadRun(7), "bad run"),
    (AuditFault::BadArrival(7, 8), "arrives too late"),
    (AuditFault::NoMemory, "out of memory"),
    (AuditFault::BadNamespace(7), "bad namespace"),
    (
        AuditFault::TooLate(7),
        "arrives more than 131072 requests late",
    ),
];

#[test]
fn texts(rt: HostRuntime) -> Result<(), Fail> {
    for (fault, said) in TEXTS {
        is(&rt, fault.to_string(rt.alloc())?.as_str(), said);
    }
    Ok(())
}
