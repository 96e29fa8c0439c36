//! What the files that are JSON share.

ghost use Rattle.std.specs.Prelude.{◌≡◌, ℕ, OnOk, IfSome, Err, option_map, option_and_then};
ghost use Rattle.std.specs.Io.KnownBytes.{Appends};
ghost use Rattle.serde_json.specs.Find.{get, as_array};
ghost use Rattle.serde_json.specs.View.{view, items_view};
ghost use Rattle.apf_files.specs.JsonFile.{value_in, value_of};
ghost use Rattle.apf_explain.specs.Lines.{place_text, unwanted_text, stop_text, IsNotJsonLine};

use crate::fault::ExplainFault;
use crate::found::Found;
use crate::place::Place;
use crate::reason::{Strange, file_reason};
use crate::wanted::Wanted;
use apf_files::Parsed;
use serde_json::{Error, Value};
use std::alloc::Global;
use std::io;
use std::io::Write;

/// The value at a key.
pub fn value_at<'a>(value: Option<&'a Value>, key: &str) -> Option<&'a Value>
    ensures { option_map (λ found. view found.now) result ≡ option_and_then (get key.now) (option_map (λ whole. view whole.now) value.entry) }
{
    value?.get(key)
}

/// The items of a value that is an array.
pub(crate) fn items_of(value: Option<&Value>) -> Option<&Vec<Value>>
    ensures { option_map (λ items. items_view items.now.items) result ≡ option_and_then as_array (option_map (λ whole. view whole.now) value.entry) }
{
    value?.as_array()
}

/// Writes that a key has a value that may not stand there.
pub fn write_unwanted<W: Write>(
    out: &mut W,
    place: Place<'_>,
    key: &str,
    found: Option<&Value>,
    wanted: Wanted,
) -> io::Result<()>
    ensures { OnOk result (IfSome (unwanted_text (place_text place.entry.name.now place.entry.part) key.now (option_map (λ value. view value.now) found.entry) wanted)
        (Appends (W.contents out.old) (W.contents out.new))) }
{
    let found = Found(found);
    writeln!(out, "{place}{key} is {found}: it must be {wanted}")
}

// Writes where the reader stopped, and why.
fn write_stop<W: Write>(out: &mut W, name: &str, error: &Error, why: &str) -> io::Result<()>
    ensures { (line : ℕ) × ((column : ℕ) × OnOk result (Appends (W.contents out.old) (W.contents out.new) (stop_text name.now line column why.now))) }
{
    let (line, column) = (error.line(), error.column());
    writeln!(out, "{name}:{line}:{column}: this is not JSON{why}")
}

/// Writes where bytes stop to be JSON, which were parsed as this.
pub(crate) fn explain_not_json<W: Write>(
    alloc: Global,
    name: &str,
    bytes: &[u8],
    parsed: &Parsed,
    strange: Strange,
    out: &mut W,
) -> Result<(), ExplainFault>
    requires { value_in parsed.now ≡ value_of bytes.now }
    ensures line { OnOk result (IsNotJsonLine name.now bytes.now (W.contents out.old) (W.contents out.new)) }
    ensures memory { result ≡ Err ExplainFault.NoMemory → out.new ≡ out.old }
{
    match parsed {
        Parsed::Value(_) => Ok(writeln!(out, "{name}: this is not JSON")?),
        Parsed::Stopped(error) => {
            let why = file_reason(alloc, bytes, error, strange)?;
            Ok(write_stop(out, name, error, why)?)
        }
    }
}
