//! What a line says of a request.

ghost use Rattle.std.specs.Prelude.{◌≡◌, ◌≤◌, ◌<◌, max, length, IfOk, IfSome, option_map};
ghost use Rattle.apf_request_lines.specs.Faults.{Gives, Reads};
ghost use Rattle.apf_request_lines.specs.Lines as spec;
ghost use Rattle.apf_request_lines.specs.Lines.{IsInRange};
ghost use Rattle.apf_request_lines.specs.Pairs.{written};

use crate::fault::RequestLineFault;
use crate::key::Key;
use crate::numbers::number_of;
use crate::pairs::{Written, behind, count_before, find};
use crate::texts::said;
use crate::times::{begins, time_of};
use std::alloc::Global;

/// The most seats of a request.
pub const MOST_SEATS: u32 = 10_000;

/// The longest time that a request has its seats, in microseconds.
pub const LONGEST_RUN: u64 = 10_000_000_000;

/// What a line says of a request. Its texts are bytes, as the server had them.
#[derive(Debug, PartialEq, Eq, Drop)]
pub struct RequestLine {
    /// The id of the request in the audit log, at least one byte.
    pub audit_id: Vec<u8>,
    /// The name of its flow schema, where the line says it.
    pub schema: Option<Vec<u8>>,
    /// The name of its priority level, where the line says it.
    pub level: Option<Vec<u8>>,
    /// The most seats that it has at once, 1 to 10,000.
    pub seats: u32,
    /// How long it has its seats, in microseconds, 0 to 10,000,000,000: while it is executed, and for the additional latency
    /// behind that. `None` where the line has no time of an execution.
    pub runs_for: Option<u64>,
}

// The pairs of a line of a request.
fn pairs_in(line: &[u8]) -> Option<&[u8]>
    ensures { option_map (λ pairs. pairs.now) result ≡ spec.pairs_in line.now }
{
    let front = count_before(b']', line);
    if front == line.len() {
        return None;
    }
    let rest = behind(front + 1, line);
    if begins(rest, b" \"HTTP\"") {
        Some(behind(7, rest))
    } else {
        None
    }
}

// The value of this key as a text.
#[tactic(auto, using(crate::proofs::Fails::fails), unfolding(crate::specs::Lines::text_at))]
fn text_at(alloc: Global, key: Key, bytes: &[u8]) -> Result<Option<Vec<u8>>, RequestLineFault>
    ensures { Gives (option_map (λ text. text.items)) result (spec.text_at key bytes.now) }
{
    let value = match find(key.name(), bytes) {
        Ok(Some(value)) => value,
        Ok(None) => return Ok(None),
        Err(fault) => return Err(fault),
    };
    match said(alloc, &value) {
        Ok(Some(text)) => Ok(Some(text)),
        Ok(None) => Err(RequestLineFault::NotOfKind(key)),
        Err(_) => Err(RequestLineFault::NoMemory),
    }
}

// A number of seats.
fn seats_said(value: &Written<'_>) -> Option<u32>
    ensures value { result ≡ spec.seats_said (written value.now) }
    ensures most { IfSome result (λ seats. seats ≤ 10000) }
{
    let Some(number) = number_of(value.bytes) else {
        return None;
    };
    if number <= u64::from(MOST_SEATS) {
        Some(number as u32)
    } else {
        None
    }
}

// The value of this key as a number of seats.
#[tactic(auto, unfolding(crate::specs::Lines::seats_at))]
fn seats_at(key: Key, bytes: &[u8]) -> Result<Option<u32>, RequestLineFault>
    ensures value { Reads (λ seats. seats) result (spec.seats_at key bytes.now) }
    ensures most { IfOk result (λ seats. IfSome seats (λ seats. seats ≤ 10000)) }
{
    let value = match find(key.name(), bytes) {
        Ok(Some(value)) => value,
        Ok(None) => return Ok(None),
        Err(fault) => return Err(fault),
    };
    let Some(seats) = seats_said(&value) else {
        return Err(RequestLineFault::NotOfKind(key));
    };
    Ok(Some(seats))
}

// The value of this key as a time, in nanoseconds.
#[tactic(auto, unfolding(crate::specs::Lines::time_at))]
fn time_at(key: Key, bytes: &[u8]) -> Result<Option<u64>, RequestLineFault>
    ensures value { Reads (λ time. time) result (spec.time_at key bytes.now) }
    ensures most { IfOk result (λ time. IfSome time (λ time. time ≤ 10000000000999)) }
{
    let value = match find(key.name(), bytes) {
        Ok(Some(value)) => value,
        Ok(None) => return Ok(None),
        Err(fault) => return Err(fault),
    };
    let Some(time) = time_of(value.bytes) else {
        return Err(RequestLineFault::NotOfKind(key));
    };
    Ok(Some(time))
}

// The number, or 0 where there is none.
fn seats_or_none(seats: Option<u32>) -> u32
    requires { IfSome seats (λ seats. seats ≤ 10000) }
    ensures value { result ≡ spec.or_else 0 seats }
    ensures most { result ≤ 10000 }
{
    match seats {
        Some(seats) => seats,
        None => 0,
    }
}

// The same of a time.
fn time_or_none(time: Option<u64>) -> u64
    ensures { result ≡ spec.or_else 0 time }
{
    match time {
        Some(time) => time,
        None => 0,
    }
}

// The most of two numbers of seats, and 1 at least.
fn most_of(first: u32, second: u32) -> u32
    requires { (first ≤ 10000) × (second ≤ 10000) }
    ensures value { result ≡ max (max first second) 1 }
    ensures range { (1 ≤ result) × (result ≤ 10000) }
{
    first.max(second).max(1)
}

// The seats that a request takes.
#[tactic(auto, unfolding(crate::specs::Lines::seats_in))]
fn seats_in(bytes: &[u8]) -> Result<u32, RequestLineFault>
    ensures value { Reads (λ seats. seats) result (spec.seats_in bytes.now) }
    ensures range { IfOk result (λ seats. (1 ≤ seats) × (seats ≤ 10000)) }
{
    let first = match seats_at(Key::Seats, bytes) {
        Ok(first) => first,
        Err(fault) => return Err(fault),
    };
    let last = match seats_at(Key::FinalSeats, bytes) {
        Ok(last) => last,
        Err(fault) => return Err(fault),
    };
    Ok(most_of(seats_or_none(first), seats_or_none(last)))
}

// These two times together, in microseconds rounded down.
fn together(execution: u64, latency: Option<u64>) -> Result<Option<u64>, RequestLineFault>
    requires first { execution ≤ 10000000000999 }
    requires second { IfSome latency (λ latency. latency ≤ 10000000000999) }
    ensures value { Reads (λ time. time) result (spec.together execution latency) }
    ensures most { IfOk result (λ time. IfSome time (λ time. time ≤ 10000000000)) }
{
    let time = (execution + time_or_none(latency)) / 1000;
    if time <= LONGEST_RUN {
        Ok(Some(time))
    } else {
        Err(RequestLineFault::TooLong)
    }
}

// How long it has its seats, where it says how long it was executed.
#[tactic(auto, unfolding(crate::specs::Lines::run_in))]
fn run_in(bytes: &[u8]) -> Result<Option<u64>, RequestLineFault>
    ensures value { Reads (λ run. run) result (spec.run_in bytes.now) }
    ensures most { IfOk result (λ run. IfSome run (λ run. run ≤ 10000000000)) }
{
    let execution = match time_at(Key::ExecutionTime, bytes) {
        Ok(Some(execution)) => execution,
        Ok(None) => return Ok(None),
        Err(fault) => return Err(fault),
    };
    let latency = match time_at(Key::AdditionalLatency, bytes) {
        Ok(latency) => latency,
        Err(fault) => return Err(fault),
    };
    together(execution, latency)
}

// What these pairs say of the request of this id.
#[tactic(auto, using(crate::proofs::Fails::fails), unfolding(crate::specs::Lines::request_of))]
fn request_of(
    alloc: Global,
    bytes: &[u8],
    audit_id: Vec<u8>,
) -> Result<RequestLine, RequestLineFault>
    requires { 0 < length audit_id.items }
    ensures value { Gives spec.request result (spec.request_of bytes.now audit_id.items) }
    ensures ranges { IfOk result (λ request. IsInRange (spec.request request)) }
{
    let schema = match text_at(alloc, Key::Schema, bytes) {
        Ok(schema) => schema,
        Err(fault) => return Err(fault),
    };
    let level = match text_at(alloc, Key::Level, bytes) {
        Ok(level) => level,
        Err(fault) => return Err(fault),
    };
    let seats = match seats_in(bytes) {
        Ok(seats) => seats,
        Err(fault) => return Err(fault),
    };
    let runs_for = match run_in(bytes) {
        Ok(runs_for) => runs_for,
        Err(fault) => return Err(fault),
    };
    Ok(RequestLine {
        audit_id,
        schema,
        level,
        seats,
        runs_for,
    })
}

/// What a line of a kube-apiserver's own log says of a request, which comes without its LF; or nothing, where it is no line
/// of a request, or has no id.
///
/// A line of a request has ` "HTTP"` behind its first closing bracket, which ends klog's own part of it. Behind that stand
/// pairs, as `apf_iseats=1`, with blanks between them, in any order. A value stands between quotes, as Go quotes a text, or
/// up to the next blank. Of a key that comes more than once the first value counts. The seats are the most of `apf_iseats`
/// and `apf_fseats`, and at least 1. The time is `apf_execution_time` and `apf_additionalLatency` together, as Go writes
/// times, rounded down to whole microseconds. The other keys are `audit-ID`, `apf_fs` and `apf_pl`, which are texts.
///
/// # Errors
///
/// The first fault, where the keys are read in this order: `audit-ID`, `apf_fs`, `apf_pl`, `apf_iseats`, `apf_fseats`,
/// `apf_execution_time`, `apf_additionalLatency`, each by the pairs up to its own. `Unended` where a text begins there that
/// no quote ends, `NotOfKind` where the value is no text, no number up to 10,000 or no time up to 10,000 seconds, and
/// `TooLong` where the two times are longer together. `NoMemory` only where memory was refused.
#[tactic(auto, unfolding(crate::specs::Lines::line_read))]
pub fn read_line(alloc: Global, line: &[u8]) -> Result<Option<RequestLine>, RequestLineFault>
    ensures value { Gives (option_map spec.request) result (spec.line_read line.now) }
    ensures ranges { IfOk result (λ request. IfSome request (λ request. IsInRange (spec.request request))) }
{
    let Some(pairs) = pairs_in(line) else {
        return Ok(None);
    };
    let audit_id = match text_at(alloc, Key::AuditId, pairs) {
        Ok(Some(audit_id)) => audit_id,
        Ok(None) => return Ok(None),
        Err(fault) => return Err(fault),
    };
    if audit_id.is_empty() {
        return Ok(None);
    }
    match request_of(alloc, pairs, audit_id) {
        Ok(request) => Ok(Some(request)),
        Err(fault) => Err(fault),
    }
}

/// The value of this key as it stands in a line of a request: between its quotes, or up to the next blank; where the line has it.
/// What `NotOfKind` says of a key is said of this.
#[tactic(auto, unfolding(crate::specs::Lines::written_at))]
pub fn written_at(key: Key, line: &[u8]) -> Option<&[u8]>
    ensures { option_map (λ bytes. bytes.now) result ≡ spec.written_at key line.now }
{
    let Some(pairs) = pairs_in(line) else {
        return None;
    };
    match find(key.name(), pairs) {
        Ok(Some(value)) => Some(value.bytes),
        Ok(None) => None,
        Err(_) => None,
    }
}
