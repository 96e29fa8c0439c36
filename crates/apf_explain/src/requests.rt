//! The line of a requests file.

ghost use Rattle.std.specs.Prelude.{◌≡◌, OnOk, IfSome, Err, option_map};
ghost use Rattle.std.specs.Io.KnownBytes.{Appends};
ghost use Rattle.serde_json.specs.View.{view};
ghost use Rattle.apf_files.specs.JsonFile.{value_in, value_of};
ghost use Rattle.apf_explain.specs.Lines.{place_text, too_many_text, requests_text, IsRequestsLine};

use crate::fault::ExplainFault;
use crate::found::Found;
use crate::json::{explain_not_json, items_of};
use crate::members::write_request;
use crate::place::{Part, Place};
use crate::reason::Strange;
use apf_files::{Parsed, RequestFault, every_item_is_counted};
use apf_words::MAX_REQUESTS;
use serde_json::Value;
use std::alloc::Global;
use std::io;
use std::io::Write;

const STRANGE: Strange = Strange {
    bracket: b'{',
    why: ": an object begins here: requests are one array of them",
    why_trace: ": the first line is a request of a trace: apf requests makes requests of it",
};

// Writes that there are too many requests.
fn write_too_many<W: Write>(out: &mut W, place: Place<'_>, value: Option<&Value>) -> io::Result<()>
    ensures { OnOk result (Appends (W.contents out.old) (W.contents out.new) (too_many_text (place_text place.entry.name.now place.entry.part) (option_map (λ value. view value.now) value.entry))) }
{
    every_item_is_counted();
    match items_of(value) {
        Some(items) => {
            let count = items.len();
            writeln!(
                out,
                "{place}there are {count} requests: at most {MAX_REQUESTS} may be there"
            )
        }
        None => writeln!(
            out,
            "{place}there are too many requests: at most {MAX_REQUESTS} may be there"
        ),
    }
}

// Writes the line of a file that is the value, which has this fault.
fn write_requests<W: Write>(
    out: &mut W,
    name: &str,
    value: Option<&Value>,
    fault: RequestFault,
) -> io::Result<()>
    ensures { OnOk result (IfSome (requests_text name.now (option_map (λ value. view value.now) value.entry) fault) (Appends (W.contents out.old) (W.contents out.new))) }
{
    if let Some(number) = fault.request() {
        let part = Part::Request(number);
        return write_request(out, Place { name, part }, value, number, fault);
    }
    let part = Part::Whole;
    let place = Place { name, part };
    if fault == RequestFault::TooMany {
        return write_too_many(out, place, value);
    }
    let found = Found(value);
    writeln!(out, "{place}requests are a JSON array, but this is {found}")
}

/// Writes the fault of a requests file, whose bytes were parsed as this, as one line for a person.
///
/// `fault` is what `judge_requests` answers for these. Where that is so, the line names the request, the key and
/// the value that it was answered for, and what has to stand there: see `every_request_fault_is_shown`.
///
/// Of bytes that are no JSON the line has the place at which the reader stopped, as `explain_config` has it.
///
/// # Errors
///
/// [`ExplainFault::NoMemory`] if memory was refused, here or, by the fault, to the reader, and then nothing is written.
/// [`ExplainFault::CannotWrite`] if the writer failed.
pub fn explain_requests<W: Write>(
    alloc: Global,
    name: &str,
    bytes: &[u8],
    parsed: &Parsed,
    fault: RequestFault,
    out: &mut W,
) -> Result<(), ExplainFault>
    requires { value_in parsed.now ≡ value_of bytes.now }
    ensures line { OnOk result (IsRequestsLine name.now bytes.now fault (W.contents out.old) (W.contents out.new)) }
    ensures refused { fault ≡ RequestFault.NoMemory → (result ≡ Err ExplainFault.NoMemory) × (out.new ≡ out.old) }
    ensures memory { result ≡ Err ExplainFault.NoMemory → out.new ≡ out.old }
{
    if fault == RequestFault::NoMemory {
        return Err(ExplainFault::NoMemory);
    }
    if fault == RequestFault::NotJson {
        return explain_not_json(alloc, name, bytes, parsed, STRANGE, out);
    }
    Ok(write_requests(out, name, parsed.value(), fault)?)
}
