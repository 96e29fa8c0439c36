//! The requests file of a trace.

ghost use Rattle.std.specs.Prelude.{OnOk};
ghost use Rattle.std.specs.Io.KnownBytes.{Appends};
ghost use Rattle.apf_flows.specs.Requests.{member_text, flow_text, request_text, requests_text, further_text};

use crate::json::write_text;
use apf_traces::{FlowNames, TraceRequest};
use std::io;
use std::io::Write;

// Writes the member of an object whose value is a text.
#[tactic(auto, unfolding(crate::specs::Requests::member_text))]
fn write_member<W: Write>(out: &mut W, key: &str, text: &str) -> io::Result<()>
    ensures { OnOk result (Appends (W.contents out.old) (W.contents out.new) (member_text key.now text.now)) }
{
    write_text(out, key)?;
    out.write_all(b":")?;
    write_text(out, text)
}

// Writes the flow of a request, as the trace gives it: the two names, or the hash.
fn write_flow<W: Write>(out: &mut W, names: &Option<FlowNames>, hash: u64) -> io::Result<()>
    ensures { OnOk result (Appends (W.contents out.old) (W.contents out.new) (flow_text names.now hash)) }
{
    match names {
        Some(names) => {
            write_member(out, "schema", names.schema.as_str())?;
            out.write_all(b",")?;
            write_member(out, "distinguisher", names.distinguisher.as_str())
        }
        None => write!(out, "\"hash\":{hash}"),
    }
}

// Writes the object that a request is.
fn write_request<W: Write>(out: &mut W, request: &TraceRequest) -> io::Result<()>
    ensures { OnOk result (Appends (W.contents out.old) (W.contents out.new) (request_text request.now)) }
{
    let width = request.width;
    out.write_all(b"{")?;
    write_flow(out, &request.names, request.hash)?;
    if width == 1 {
        return out.write_all(b"}");
    }
    write!(out, ",\"width\":{width}}}")
}

// Writes the requests that come after the first.
fn write_further<W: Write>(out: &mut W, requests: &[TraceRequest]) -> io::Result<()>
    ensures { OnOk result (Appends (W.contents out.old) (W.contents out.new) (further_text requests.now)) }
{
    for request in requests {
        out.write_all(b",\n")?;
        write_request(out, request)?;
    }
    Ok(())
}

/// Writes the requests file of the same requests, which `replay` reads: an array, one object a line, without blanks.
///
/// An object has the flow as the trace gives it, the two names or the hash, and a width that is not 1.
///
/// # Errors
///
/// The writer's. Then nothing is known of how much was written.
pub fn write_requests<W: Write>(trace: &[TraceRequest], out: &mut W) -> io::Result<()>
    ensures { OnOk result (Appends (W.contents out.old) (W.contents out.new) (requests_text trace.now)) }
{
    out.write_all(b"[\n")?;
    if let Some((first, further)) = trace.split_first() {
        write_request(out, first)?;
        write_further(out, further)?;
        out.write_all(b"\n")?;
    }
    out.write_all(b"]\n")
}
