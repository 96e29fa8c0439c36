//! What is true of whatever was read.

ghost use Rattle.std.specs.Prelude.{◌≡◌, ◌≢◌, ℕ, ◌+◌, ◌≤◌, List, ◌++◌, length, Option, Result, Ok, Err, IsPermutation};
ghost use Rattle.apf_times.specs.declared.window.Arrival.{Arrival};
ghost use Rattle.apf_times.specs.WindowRuns.{AreInPlace};
ghost use Rattle.apf_traces.specs.TraceFile.{max_lines, trace_of};
ghost use Rattle.apf_traces.specs.TraceValue.{Entry};
ghost use Rattle.apf_traces.specs.declared.fault.TraceFault.{TraceFault};
ghost use Rattle.apf_traces.specs.declared.request.TraceRequest.{TraceRequest};
ghost use Rattle.apf_trace_reader.specs.Reading.{arrivals_from, HasRead};
ghost use Rattle.apf_trace_reader.specs.Timely.{requests_of};
ghost use Rattle.apf_trace_reader.specs.Views.{ReaderView};

use apf_times::every_window_is_in_order;
use apf_traces::TraceRequest;

/// What was handed out and what is held are the requests of the lines that were taken. What was handed out is in the order
/// of the arrivals. No more are held than the window's size. The two together are as many as the lines that were taken.
///
/// It runs no code: the contract is the law.
pub fn every_reading_is_in_order()
    ensures order { (bytes : List ℕ) (told : List (Arrival TraceRequest)) (left : Option (List ℕ)) (v : ReaderView)
        → HasRead bytes told left v → AreInPlace told }
    ensures same { (bytes : List ℕ) (told : List (Arrival TraceRequest)) (left : Option (List ℕ)) (v : ReaderView)
        → (read : HasRead bytes told left v) → IsPermutation (arrivals_from 1 read.requests) (told ++ v.window.held) }
    ensures few { (bytes : List ℕ) (told : List (Arrival TraceRequest)) (left : Option (List ℕ)) (v : ReaderView)
        → HasRead bytes told left v → length v.window.held ≤ v.window.size }
    ensures count { (bytes : List ℕ) (told : List (Arrival TraceRequest)) (left : Option (List ℕ)) (v : ReaderView)
        → HasRead bytes told left v → length told + length v.window.held ≡ v.number }
{
    every_window_is_in_order::<TraceRequest>();
}

/// A trace that is read as a whole has the same requests, or the same fault, when it is read in pieces, unless it has too
/// many lines: the window is as large as all of it.
///
/// It runs no code: the contract is the law.
pub fn every_short_trace_is_read_alike()
    ensures { (size : ℕ) (bytes : List ℕ) (answer : Result (List Entry) TraceFault)
        → max_lines ≤ size → trace_of bytes ≡ answer → ((line : ℕ) → answer ≢ Err (TraceFault.TooMany line)) → requests_of size bytes ≡ answer }
{}
