//! The line of a cluster's objects that are no JSON, or are another file.

ghost use Rattle.std.specs.Prelude.{◌≡◌, OnOk, Err, option_map};
ghost use Rattle.std.specs.Io.KnownBytes.{Appends};
ghost use Rattle.serde_json.specs.View.{view};
ghost use Rattle.apf_files.specs.JsonFile.{value_in, value_of};
ghost use Rattle.apf_explain.specs.Kinds.{other_kind as other_kind_of};
ghost use Rattle.apf_explain.specs.Lines.{other_line, IsNotJsonLine};

use crate::fault::ExplainFault;
use crate::json::explain_not_json;
use crate::likeness::other_kind;
use crate::reason::Strange;
use apf_files::Parsed;
use serde_json::Value;
use std::alloc::Global;
use std::io;
use std::io::Write;

const STRANGE: Strange = Strange {
    bracket: b'[',
    why: ": an array begins here: objects are one JSON object, as kubectl prints a list",
    why_trace: ": the first line is a request of a trace: objects are one JSON object, as kubectl prints a list",
};

/// Writes where the objects of a cluster, whose bytes were parsed as this, stop to be JSON, and why, as one line for a person.
///
/// The line has the place at which the reader stopped, as `explain_config` has it.
///
/// # Errors
///
/// [`ExplainFault::NoMemory`] if memory was refused, and then nothing is written. [`ExplainFault::CannotWrite`] if the writer
/// failed.
pub fn explain_objects<W: Write>(
    alloc: Global,
    name: &str,
    bytes: &[u8],
    parsed: &Parsed,
    out: &mut W,
) -> Result<(), ExplainFault>
    requires { value_in parsed.now ≡ value_of bytes.now }
    ensures line { OnOk result (IsNotJsonLine name.now bytes.now (W.contents out.old) (W.contents out.new)) }
    ensures memory { result ≡ Err ExplainFault.NoMemory → out.new ≡ out.old }
{
    explain_not_json(alloc, name, bytes, parsed, STRANGE, out)
}

/// Writes what a value is that stands in the place of the objects of a cluster, as one line for a person: a request of a trace, a
/// config or an event of an audit log. Where it is none of these, nothing is written.
///
/// # Errors
///
/// Those of the writer.
pub fn explain_other<W: Write>(name: &str, value: Option<&Value>, out: &mut W) -> io::Result<()>
    ensures { OnOk result (Appends (W.contents out.old) (W.contents out.new) (other_line name.now (other_kind_of (option_map (λ value. view value.now) value.entry)))) }
{
    match other_kind(value) {
        Some(kind) => writeln!(
            out,
            "{name}: this is {kind}: objects are one JSON object, as kubectl prints a list"
        ),
        None => Ok(()),
    }
}
