//! A line of a transcript, and how it is written.

ghost use Rattle.std.specs.Prelude.{◌≡◌, OnOk};
ghost use Rattle.std.specs.Io.KnownBytes.{Appends};
ghost use Rattle.apf_texts.specs.Texts.{decision_name as name_of, line_text, lines_text};

use apf_words::Decision;
use std::io;
use std::io::Write;

/// What a command did, or what the log gained by it. Requests, queues and limits are numbers.
#[derive(Clone, Copy, Debug, PartialEq, Eq)]
pub enum Line {
    /// The request arrived, and is decided so.
    Arrives(u32, Decision),
    /// It arrived, and entered this queue.
    Queued(u32, u32),
    /// It arrived, and this queue was full.
    QueueFull(u32, u32),
    /// It arrived before.
    Again(u32),
    /// It gave its seats back.
    Finishes(u32),
    /// It has no seats to give back.
    NotRunning(u32),
    /// It is cancelled, or was decided so before.
    Cancels(u32, Decision),
    /// The level is closed by this command.
    ClosesFirst,
    /// It was closed before.
    ClosesAlready,
    /// The limit is set in place of this one.
    Limits(u32, u32),
    /// The request was dispatched from this queue.
    Dispatches(u32, u32),
    /// The request was struck out of this queue.
    Strikes(u32, u32),
}

/// How a decision is written.
pub fn decision_name(decision: Decision) -> &'static str
    ensures { result.now ≡ name_of decision }
{
    match decision {
        Decision::Execute => "execute",
        Decision::QueueFull => "queue-full",
        Decision::Closed => "closed",
        Decision::Cancelled => "cancelled",
        Decision::ConcurrencyLimit => "concurrency-limit",
    }
}

/// Writes a line, with the LF that ends it.
pub fn write_line<W: Write>(out: &mut W, line: Line) -> io::Result<()>
    ensures { OnOk result (Appends (W.contents out.old) (W.contents out.new) (line_text line)) }
{
    match line {
        Line::Arrives(request, decision) => {
            let name = decision_name(decision);
            writeln!(out, "arrive {request} {name}")
        }
        Line::Queued(request, queue) => writeln!(out, "arrive {request} queued {queue}"),
        Line::QueueFull(request, queue) => writeln!(out, "arrive {request} queue-full {queue}"),
        Line::Again(request) => writeln!(out, "arrive {request} again"),
        Line::Finishes(request) => writeln!(out, "finish {request}"),
        Line::NotRunning(request) => writeln!(out, "finish {request} not running"),
        Line::Cancels(request, decision) => {
            let name = decision_name(decision);
            writeln!(out, "cancel {request} {name}")
        }
        Line::ClosesFirst => writeln!(out, "close first"),
        Line::ClosesAlready => writeln!(out, "close already"),
        Line::Limits(limit, old) => writeln!(out, "limit {limit} was {old}"),
        Line::Dispatches(request, queue) => writeln!(out, "dispatch {request} queue {queue}"),
        Line::Strikes(request, queue) => writeln!(out, "strike {request} queue {queue}"),
    }
}

/// Writes the lines, one after another.
pub fn write_lines<W: Write>(out: &mut W, lines: &[Line]) -> io::Result<()>
    ensures { OnOk result (Appends (W.contents out.old) (W.contents out.new) (lines_text lines.now)) }
{
    for line in lines {
        write_line(out, *line)?;
    }
    Ok(())
}
