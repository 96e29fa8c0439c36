//! The lines of what became of each request.

ghost use Rattle.std.specs.Prelude.{◌≡◌, ◌-◌, OnOk};
ghost use Rattle.std.specs.Io.KnownBytes.{Appends};
ghost use Rattle.apf_simulator.specs.Fates.{decision_text, number_or_dash, asked_text, seated_text, ended_text, course_text, fate_text, fates_header};

use apf_flows::{write_hash, write_names};
use apf_stream::Ended;
use apf_times::Arrival;
use apf_traces::TraceRequest;
use apf_words::Decision;
use std::io;
use std::io::Write;

// The word of a decision.
fn word(decision: Decision) -> &'static str
    ensures { result.now ≡ decision_text decision }
{
    match decision {
        Decision::Execute => "execute",
        Decision::QueueFull => "queue-full",
        Decision::Closed => "closed",
        Decision::Cancelled => "cancelled",
        Decision::ConcurrencyLimit => "concurrency-limit",
    }
}

// Writes the number of a queue, or a dash.
fn write_queue<W: Write>(out: &mut W, queue: Option<u32>) -> io::Result<()>
    ensures { OnOk result (Appends (W.contents out.old) (W.contents out.new) (number_or_dash queue)) }
{
    match queue {
        Some(queue) => write!(out, "{queue}"),
        None => out.write_all(b"-"),
    }
}

// Writes a time, or a dash.
fn write_start<W: Write>(out: &mut W, start: Option<u64>) -> io::Result<()>
    ensures { OnOk result (Appends (W.contents out.old) (W.contents out.new) (number_or_dash start)) }
{
    match start {
        Some(start) => write!(out, "{start}"),
        None => out.write_all(b"-"),
    }
}

// Writes the number of a request, its flow and its arrival.
#[tactic(auto, unfolding(crate::specs::Fates::asked_text))]
fn write_asked<W: Write>(out: &mut W, came: &Arrival<TraceRequest>) -> io::Result<()>
    ensures { OnOk result (Appends (W.contents out.old) (W.contents out.new) (asked_text came.now)) }
{
    let number = came.place.line.saturating_sub(1);
    let arrival = came.item.arrives_at;
    write!(out, "{number} ")?;
    write_hash(out, came.item.hash)?;
    write!(out, " {arrival}")
}

// Writes the queue that it entered, and when it took its seats.
#[tactic(auto, unfolding(crate::specs::Fates::seated_text))]
fn write_seated<W: Write>(out: &mut W, ended: &Ended) -> io::Result<()>
    ensures { OnOk result (Appends (W.contents out.old) (W.contents out.new) (seated_text ended.now)) }
{
    out.write_all(b" ")?;
    write_queue(out, ended.hold.queue)?;
    out.write_all(b" ")?;
    write_start(out, ended.since)
}

// Writes when it ended, and how.
#[tactic(auto, unfolding(crate::specs::Fates::ended_text))]
fn write_ended<W: Write>(out: &mut W, ended: &Ended) -> io::Result<()>
    ensures { OnOk result (Appends (W.contents out.old) (W.contents out.new) (ended_text ended.now)) }
{
    let over_at = ended.over_at;
    write!(out, " {over_at} ")?;
    out.write_all(word(ended.decision).as_bytes())
}

// Writes the line of a request, up to its names.
#[tactic(auto, unfolding(crate::specs::Fates::course_text))]
fn write_course<W: Write>(
    out: &mut W,
    came: &Arrival<TraceRequest>,
    ended: &Ended,
) -> io::Result<()>
    ensures { OnOk result (Appends (W.contents out.old) (W.contents out.new) (course_text came.now ended.now)) }
{
    write_asked(out, came)?;
    write_seated(out, ended)?;
    write_ended(out, ended)
}

/// Writes the line of a request.
///
/// # Errors
///
/// The writer's. Then nothing is known of how much was written.
#[tactic(auto, unfolding(crate::specs::Fates::fate_text))]
pub(crate) fn write_fate<W: Write>(
    out: &mut W,
    came: &Arrival<TraceRequest>,
    ended: &Ended,
) -> io::Result<()>
    ensures { OnOk result (Appends (W.contents out.old) (W.contents out.new) (fate_text came.now ended.now)) }
{
    write_course(out, came, ended)?;
    write_names(out, &came.item.names)?;
    out.write_all(b"\n")
}

/// Writes the names of the columns.
///
/// # Errors
///
/// The writer's. Then nothing is known of how much was written.
#[tactic(auto, unfolding(crate::specs::Fates::fates_header))]
pub(crate) fn write_header<W: Write>(out: &mut W) -> io::Result<()>
    ensures { OnOk result (Appends (W.contents out.old) (W.contents out.new) fates_header) }
{
    out.write_all(b"request flow arrival queue start end decision schema distinguisher\n")
}
