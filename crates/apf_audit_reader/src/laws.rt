//! What is true of whatever was read.

ghost use Rattle.std.specs.Prelude.{◌≡◌, ℕ, ◌≤◌, List, ◌++◌, length, map, Ok, IsPermutation};
ghost use Rattle.apf_times.specs.Waits.{max_exact};
ghost use Rattle.apf_times.specs.WindowRuns.{AreInPlace, all_out};
ghost use Rattle.apf_audit.specs.AuditEvent.{Event};
ghost use Rattle.apf_audit.specs.AuditLog.{events_of};
ghost use Rattle.apf_audit.specs.Runs.{run_in};
ghost use Rattle.apf_audit.specs.declared.choice.Choice.{Choice};
ghost use Rattle.apf_audit_reader.specs.Log.{handed_from, requests_of, with_run};
ghost use Rattle.apf_audit_reader.specs.Places.{placed};
ghost use Rattle.apf_audit_reader.specs.Reading.{HasTaken};
ghost use Rattle.apf_audit_reader.specs.Views.{ReaderView};
ghost use Rattle.apf_traces.specs.TraceFile.{Line, lines_of};

use apf_audit::{Taken, every_estimate_is_in_range};
use apf_times::every_window_is_in_order;

/// What was handed out and what is held are the chosen requests of the lines that were taken. What was handed out is in the
/// order of the arrivals. No more are held than the window's size.
///
/// It runs no code: the contract is the law.
pub fn every_reading_is_in_order()
    ensures order { (choice : Choice) (lines : List Line) (told : List Event) (v : ReaderView)
        → (read : HasTaken choice lines told v) → AreInPlace (all_out read.calls) }
    ensures same { (choice : Choice) (lines : List Line) (told : List Event) (v : ReaderView)
        → (read : HasTaken choice lines told v) → IsPermutation (map placed read.taken) (all_out read.calls ++ v.window.held) }
    ensures few { (choice : Choice) (lines : List Line) (told : List Event) (v : ReaderView)
        → HasTaken choice lines told v → length v.window.held ≤ v.window.size }
{
    every_window_is_in_order::<Taken>();
}

/// A log with at most as many lines as the window's size has the same requests, or the same first fault, when it is read in
/// pieces; and one without fault with as many chosen requests too. Where they are at most 10,000, each that was turned away
/// runs for the median of all runs of its flow, or of all runs where none of its flow ran.
///
/// It runs no code: the contract is the law.
pub fn every_short_log_is_read_alike()
    ensures lines { (choice : Choice) (size : ℕ) (bytes : List ℕ) → length (lines_of bytes) ≤ size → requests_of choice size bytes ≡ events_of choice bytes }
    ensures read { (choice : Choice) (size : ℕ) (bytes : List ℕ) (events : List Event)
        → length events ≤ size → events_of choice bytes ≡ Ok events → requests_of choice size bytes ≡ Ok events }
    ensures runs { (size : ℕ) (events ordered : List Event) → length events ≤ size → length events ≤ max_exact
        → handed_from size events 0 ordered ≡ map (λ e. with_run (run_in events e) e) ordered }
{
    every_estimate_is_in_range();
}
