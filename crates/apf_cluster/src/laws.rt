//! What is true of every run of a log.

ghost use Rattle.std.specs.Prelude.{◌≡◌, List};
ghost use Rattle.apf_audit.specs.AuditEvent.{Event};
ghost use Rattle.apf_cluster_tables.specs.declared.level_table.LevelTable.{LevelTable as TableOf};
ghost use Rattle.apf_cluster.specs.Runs.{Course, HasRun, HaveLevels};
ghost use Rattle.apf_cluster.specs.Sums.{AreCountedOnce};

/// Where requests are counted from the first one on, each request of a log is in the table of one level, and in no other: the
/// requests of all levels together are those of the log, and so are those that were executed, rejected and cancelled.
///
/// It runs no code: the contract is the law.
pub fn every_request_is_counted_once()
    ensures { (w : Course) (told : List Event) (tables : List TableOf) → w.terms.since ≡ 0 → HaveLevels w.cluster told → HasRun w told tables → AreCountedOnce told tables }
{}
