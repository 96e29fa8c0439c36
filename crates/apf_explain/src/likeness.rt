//! Which file the bytes are that stand in the place of another one.

ghost use Rattle.std.specs.Prelude.{◌≡◌, IfOk, IfErr, option_map};
ghost use Rattle.serde_json.specs.View.{view};
ghost use Rattle.apf_explain.specs.Kinds.{has_key as has_key_of, is_event as is_event_of, is_printed as is_printed_of, other_kind as other_kind_of, value_said as value_said_of, whole_said as whole_said_of};
ghost use Rattle.apf_explain.specs.Likeness.{begins_as_trace as begins_as_trace_of};

use crate::fault::ExplainFault;
use crate::json::value_at;
use crate::lines::{line_value, numbered};
use apf_files::value_of;
use serde_json::Value;
use std::alloc::Global;

// The most bytes of a config.
const MOST_OF_CONFIG: usize = 65_536;

// The most bytes of the objects of a cluster.
const MOST_OF_OBJECTS: usize = 8_388_608;

// Whether the value is an object that has this key.
fn has_key(value: Option<&Value>, key: &str) -> bool
    ensures { result ≡ has_key_of key.now (option_map (λ whole. view whole.now) value.entry) }
{
    value_at(value, key).is_some()
}

/// Whether the value is an event of an audit log: an object that has `stage` and `verb`.
pub(crate) fn is_event(value: Option<&Value>) -> bool
    ensures { result ≡ is_event_of (option_map (λ whole. view whole.now) value.entry) }
{
    has_key(value, "stage") && has_key(value, "verb")
}

// Whether the value has a key of the objects that `kubectl` prints.
fn is_printed(value: Option<&Value>) -> bool
    ensures { result ≡ is_printed_of (option_map (λ whole. view whole.now) value.entry) }
{
    has_key(value, "apiVersion") || has_key(value, "kind")
}

/// Whether the first line of a file is a request of a trace: an object that has `arrivesAt`.
///
/// # Errors
///
/// [`ExplainFault::NoMemory`] if memory was refused.
pub fn begins_as_trace(alloc: Global, bytes: &[u8]) -> Result<bool, ExplainFault>
    ensures ok { IfOk result (λ is_so. is_so ≡ begins_as_trace_of bytes.now) }
    ensures memory { IfErr result (λ fault. fault ≡ ExplainFault.NoMemory) }
{
    let value = line_value(alloc, numbered(bytes, 1))?;
    Ok(has_key(value.as_ref(), "arrivesAt"))
}

// What is said of a file in the place of a trace, which is this value and no larger than a config.
fn value_said(is_small: bool, value: Option<&Value>) -> Option<&'static str>
    ensures { option_map (λ said. said.now) result ≡ value_said_of is_small (option_map (λ whole. view whole.now) value.entry) }
{
    if is_event(value) {
        return Some(": this is an event of an audit log: a trace has one object on each line");
    }
    if is_printed(value) {
        return Some(
            ": this is an object as kubectl prints it: a trace has one object on each line",
        );
    }
    if is_small && has_key(value, "limit") {
        return Some(": this is a config: a trace has one object on each line");
    }
    None
}

/// What is said of a file in the place of a trace that is one object on more lines than one: an event of an audit log, an object
/// as `kubectl` prints it, or a config. Nothing is said of one with more bytes than the objects of a cluster have at most.
///
/// # Errors
///
/// [`ExplainFault::NoMemory`] if memory was refused.
pub(crate) fn whole_said(alloc: Global, bytes: &[u8]) -> Result<Option<&'static str>, ExplainFault>
    ensures ok { IfOk result (λ said. option_map (λ text. text.now) said ≡ whole_said_of bytes.now) }
    ensures memory { IfErr result (λ fault. fault ≡ ExplainFault.NoMemory) }
{
    if bytes.len() > MOST_OF_OBJECTS {
        return Ok(None);
    }
    let value = value_of(alloc, bytes)?;
    Ok(value_said(bytes.len() <= MOST_OF_CONFIG, value.as_ref()))
}

/// What stands in the place of the objects of a cluster, in words, where it is known.
pub(crate) fn other_kind(value: Option<&Value>) -> Option<&'static str>
    ensures { option_map (λ kind. kind.now) result ≡ other_kind_of (option_map (λ whole. view whole.now) value.entry) }
{
    if is_event(value) {
        return Some("an event of an audit log");
    }
    if has_key(value, "arrivesAt") {
        return Some("a request of a trace");
    }
    if has_key(value, "limit") {
        return Some("a config");
    }
    None
}
