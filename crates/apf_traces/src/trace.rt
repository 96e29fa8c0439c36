//! The trace file: requests in time, one JSON object a line.

ghost use Rattle.std.specs.Prelude.{◌≡◌, ◌≢◌, ◌<◌, ◌≤◌, ◌∷◌, IfOk, IfErr, Ok, Err, All, length, vec_len, map};
ghost use Rattle.apf_traces.specs.TraceValue.{entry, IsRequestInRange, IsNamed};
ghost use Rattle.apf_traces.specs.TraceFile.{trace_of, lines_of, max_lines};

use crate::fault::TraceFault;
use crate::line::{LineReader, MAX_LINES};
use crate::request::TraceRequest;
use apf_files::line_end;
use std::alloc::Global;

// The most lines of a trace that is read as a whole.
const MOST_LINES: u64 = MAX_LINES as u64;

/// The first line of what is left of a file, without its LF, and what is left after it.
#[derive(Clone, Copy)]
pub struct First<'a> {
    pub line: &'a [u8],
    /// Whether an LF ends the line.
    pub is_ended: bool,
    pub rest: &'a [u8],
}

/// Cuts the first line off a file that is not empty.
pub fn first_line(bytes: &[u8]) -> First<'_>
    requires { 0 < length bytes.now }
    ensures first { lines_of bytes.now ≡ record {
      bytes = result.line.now;
      is_ended = result.is_ended;
    } ∷ lines_of result.rest.now }
    ensures shorter { length result.rest.now < length bytes.now }
{
    match line_end(bytes) {
        Some(end) => First {
            line: &bytes[..end],
            is_ended: true,
            rest: &bytes[end + 1..],
        },
        None => First {
            line: bytes,
            is_ended: false,
            rest: b"",
        },
    }
}

/// Reads a trace file: one JSON object in UTF-8 a line, at most 10,000 lines of at most 65,536 bytes.
///
/// Each line is ended by LF, which is none of its bytes. The times of arrivals come in any order.
///
/// A request has `arrivesAt` and `runsFor`. It has either `hash`, a whole number of 64 bits, or both of the texts
/// `schema` and `distinguisher`, whose `flow_hash` its hash is. It may have `width` and `cost`, and no other key.
/// Numbers are whole numbers, without fraction or exponent. Of a repeated key the last value counts.
///
/// One line is parsed at a time, so the memory that is held is that of the requests and of one line.
///
/// # Errors
///
/// Lines are judged from the first to the last, each by the faults in the order of `TraceFault`. The first fault is
/// answered. `NoMemory` only where memory was refused.
#[tactic(auto, unfolding(crate::specs::TraceFile::judged_line))]
pub fn read_trace(alloc: Global, bytes: &[u8]) -> Result<Vec<TraceRequest>, TraceFault>
    ensures ok { IfOk result (λ requests. trace_of bytes.now ≡ Ok (map entry requests.items)) }
    ensures ranges { IfOk result (λ requests. (vec_len requests ≤ max_lines)
        × All IsRequestInRange requests.items) }
    ensures named { IfOk result (λ requests. All IsNamed requests.items) }
    ensures err { IfErr result (λ fault. fault ≢ TraceFault.NoMemory → trace_of bytes.now ≡ Err fault) }
    ensures memory { IfErr result (λ fault. fault ≡ TraceFault.NoMemory → 0 < length bytes.now) }
{
    let mut requests = Vec::new(alloc);
    let mut reader = LineReader::new(alloc);
    let mut rest = bytes;
    let mut line = 1;
    while !rest.is_empty() {
        let first = first_line(rest);
        let request = reader.read(first.line, first.is_ended, line, MOST_LINES)?;
        if requests.push(request).is_err() {
            return Err(TraceFault::NoMemory);
        }
        rest = first.rest;
        line += 1;
    }
    Ok(requests)
}
