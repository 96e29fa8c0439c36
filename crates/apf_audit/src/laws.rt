//! What holds of every audit log and of every trace that is made of one.

ghost use Rattle.std.specs.Prelude.{◌≡◌, ℕ, ◌+◌, ◌≤◌, List, All, length};
ghost use Rattle.apf_times.specs.Limits.{max_arrival, max_run};
ghost use Rattle.apf_times.specs.Waits.{max_exact};
ghost use Rattle.apf_traces.specs.TraceFile.{max_bytes};
ghost use Rattle.apf_audit.specs.declared.event.Taken.{Taken};
ghost use Rattle.apf_audit.specs.AuditEvent.{Event, event, IsTakenInRange, max_name};
ghost use Rattle.apf_audit.specs.Estimates.{run_read};
ghost use Rattle.apf_audit.specs.Runs.{run_in};
ghost use Rattle.apf_audit.specs.TraceText.{line_text};

use apf_times::every_wait_is_kept;

/// The law of estimates. By at most 10,000 requests an estimate is as the whole of them has it: the median of the runs of
/// the flow, or of all where none of the flow ran. No estimate is above what a trace can have. It runs no code: the contract
/// is the law.
pub fn every_estimate_is_in_range()
    ensures exact { (events : List Event) (event : Event) → length events ≤ max_exact → run_read events event ≡ run_in events event }
    ensures within { (events : List Event) (event : Event) → All (λ e. e.runs_for ≤ max_run) events → event.runs_for ≤ max_run → run_read events event ≤ max_run }
{
    every_wait_is_kept();
}

/// The law of the traces of audit logs. Where the schema is as short as the name of a user has to be, 4,096 bytes, each line
/// has at most the 65,536 bytes that a line of a trace can have, besides its LF. It runs no code: the contract is the law.
pub fn every_trace_fits()
    ensures { (schema : List ℕ) (request : Taken) (arrives_at : ℕ) → length schema ≤ max_name → IsTakenInRange request → arrives_at ≤ max_arrival
        → length (line_text schema (event request) arrives_at) ≤ max_bytes + 1 }
{}
