//! The line of a config file.

ghost use Rattle.std.specs.Prelude.{◌≡◌, OnOk, IfSome, Err, option_map};
ghost use Rattle.std.specs.Io.KnownBytes.{Appends};
ghost use Rattle.serde_json.specs.View.{view};
ghost use Rattle.apf_files.specs.JsonFile.{value_in, value_of};
ghost use Rattle.apf_explain.specs.Wanted.{wanted_at};
ghost use Rattle.apf_explain.specs.Lines.{missing_text, place_text, config_text, IsConfigLine};

use crate::fault::ExplainFault;
use crate::found::Found;
use crate::json::{explain_not_json, value_at, write_unwanted};
use crate::keys::{Keys, write_unknown_key};
use crate::place::{Part, Place};
use crate::reason::Strange;
use crate::wanted::Wanted;
use apf_files::{ConfigFault, ConfigKey, MAX_HAND_SIZE, Parsed};
use apf_words::{MAX_LIMIT, MAX_QUEUE_LENGTH, MAX_QUEUES};
use serde_json::Value;
use std::alloc::Global;
use std::io;
use std::io::Write;

const STRANGE: Strange = Strange {
    bracket: b'[',
    why: ": an array begins here: a config is one object",
    why_trace: ": the first line is a request of a trace: a config is one object",
};

// What has to stand at a key.
fn wanted_of(key: ConfigKey) -> Wanted
    ensures { result ≡ wanted_at key }
{
    let most = match key {
        ConfigKey::Limit => MAX_LIMIT,
        ConfigKey::Queues => MAX_QUEUES,
        ConfigKey::HandSize => MAX_HAND_SIZE,
        ConfigKey::QueueLengthLimit => MAX_QUEUE_LENGTH,
        ConfigKey::LimitResponse => return Wanted::Response,
    };
    Wanted::Whole(1, u64::from(most))
}

// Writes that there is no limit.
fn write_missing<W: Write>(out: &mut W, name: &str, most: u32) -> io::Result<()>
    ensures { OnOk result (Appends (W.contents out.old) (W.contents out.new) (missing_text name.now most)) }
{
    writeln!(
        out,
        "{name}: the key limit is missing: it must be a whole number from 1 to {most}"
    )
}

// Writes the line of a config that is the value, which has this fault.
fn write_config<W: Write>(
    out: &mut W,
    place: Place<'_>,
    value: Option<&Value>,
    fault: ConfigFault,
) -> io::Result<()>
    ensures { OnOk result (IfSome (config_text (place_text place.entry.name.now place.entry.part) (option_map (λ value. view value.now) value.entry) fault)
        (Appends (W.contents out.old) (W.contents out.new))) }
{
    match fault {
        ConfigFault::UnknownKey => write_unknown_key(out, place, Keys::OfConfig, value),
        ConfigFault::BadValue(key) => {
            let found = value_at(value, key.name());
            write_unwanted(out, place, key.name(), found, wanted_of(key))
        }
        _ => {
            let found = Found(value);
            writeln!(out, "{place}a config is a JSON object, but this is {found}")
        }
    }
}

/// Writes the fault of a config file, whose bytes were parsed as this, as one line for a person.
///
/// `fault` is what `judge_config` answers for these. Where that is so, the line names the key and the value that
/// it was answered for, and what has to stand there: see `every_config_fault_is_shown`.
///
/// Of bytes that are no JSON the line has the place at which the reader stopped. Lines and columns count from 1, and
/// columns count bytes. Behind the last byte the column is the number of bytes of the last line, which may be 0.
///
/// # Errors
///
/// [`ExplainFault::NoMemory`] if memory was refused, here or, by the fault, to the reader, and then nothing is written.
/// [`ExplainFault::CannotWrite`] if the writer failed.
pub fn explain_config<W: Write>(
    alloc: Global,
    name: &str,
    bytes: &[u8],
    parsed: &Parsed,
    fault: ConfigFault,
    out: &mut W,
) -> Result<(), ExplainFault>
    requires { value_in parsed.now ≡ value_of bytes.now }
    ensures line { OnOk result (IsConfigLine name.now bytes.now fault (W.contents out.old) (W.contents out.new)) }
    ensures refused { fault ≡ ConfigFault.NoMemory → (result ≡ Err ExplainFault.NoMemory) × (out.new ≡ out.old) }
    ensures memory { result ≡ Err ExplainFault.NoMemory → out.new ≡ out.old }
{
    match fault {
        ConfigFault::NotJson => explain_not_json(alloc, name, bytes, parsed, STRANGE, out),
        ConfigFault::Missing => Ok(write_missing(out, name, MAX_LIMIT)?),
        ConfigFault::NoMemory => Err(ExplainFault::NoMemory),
        ConfigFault::NotObject | ConfigFault::UnknownKey | ConfigFault::BadValue(_) => {
            let part = Part::Whole;
            Ok(write_config(out, Place { name, part }, parsed.value(), fault)?)
        }
    }
}
