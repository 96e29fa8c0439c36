//! The trace of requests.

ghost use Rattle.std.specs.Prelude.{OnOk};
ghost use Rattle.std.specs.Io.KnownBytes.{Appends};
ghost use Rattle.apf_audit.specs.AuditEvent.{event};
ghost use Rattle.apf_audit.specs.TraceText.{member_text, times_text, width_text, line_text};

use crate::event::Taken;
use apf_flows::write_text;
use std::io;
use std::io::Write;

// Writes what stands in front of a text, and the text.
#[tactic(auto, unfolding(crate::specs::TraceText::member_text))]
fn write_member<W: Write>(out: &mut W, front: &[u8], text: &str) -> io::Result<()>
    ensures { OnOk result (Appends (W.contents out.old) (W.contents out.new) (member_text front.now text.now)) }
{
    out.write_all(front)?;
    write_text(out, text)
}

// Writes the two times of a request.
#[tactic(auto, unfolding(crate::specs::TraceText::times_text))]
fn write_times<W: Write>(out: &mut W, arrives_at: u64, runs_for: u64) -> io::Result<()>
    ensures { OnOk result (Appends (W.contents out.old) (W.contents out.new) (times_text arrives_at runs_for)) }
{
    write!(out, ",\"arrivesAt\":{arrives_at},\"runsFor\":{runs_for}")
}

// Writes the width of a request that takes more than one seat.
#[tactic(auto, unfolding(crate::specs::TraceText::width_text))]
fn write_width<W: Write>(out: &mut W, width: u32) -> io::Result<()>
    ensures { OnOk result (Appends (W.contents out.old) (W.contents out.new) (width_text width)) }
{
    if width <= 1 {
        return Ok(());
    }
    write!(out, ",\"width\":{width}")
}

/// Writes the line of a trace of a request of this flow schema, which arrives at this time: one JSON object, without blanks,
/// and an LF. It has the width of a request that takes more than one seat.
///
/// # Errors
///
/// The writer's. Then nothing is known of how much was written.
#[tactic(auto, unfolding(crate::specs::TraceText::line_text))]
pub fn write_request<W: Write>(
    schema: &str,
    request: &Taken,
    arrives_at: u64,
    out: &mut W,
) -> io::Result<()>
    ensures { OnOk result (Appends (W.contents out.old) (W.contents out.new) (line_text schema.now (event request.now) arrives_at)) }
{
    write_member(out, b"{\"schema\":", schema)?;
    write_member(out, b",\"distinguisher\":", request.distinguisher.as_str())?;
    write_times(out, arrives_at, request.runs_for)?;
    write_width(out, request.width)?;
    out.write_all(b"}\n")
}
