//! What stands at a place of a text of objects.

use crate::path::path_of;
use apf_flows::write_text;
use apf_objects::{ObjectKey, Place};
use serde_json::Value;
use std::io;
use std::io::Write;

/// The longest text that is shown, in bytes.
const LONGEST: usize = 64;

/// The object of this number: an item of a list, or the one object.
pub(crate) fn object_at(value: &Value, number: usize) -> Option<&Value> {
    match value.get("items") {
        Some(items) => items.get(number),
        None => Some(value),
    }
}

// The value at one word of a path.
fn value_at<'a>(value: &'a Value, word: &str, place: Place) -> Option<&'a Value> {
    if let Some(word) = word.strip_suffix("%") {
        return value.get(word)?.get(place.rule);
    }
    if let Some(word) = word.strip_suffix("#") {
        return value.get(word)?.get(place.member);
    }
    value.get(word)
}

/// The value at a key of an object.
pub(crate) fn found_at<'a>(object: &'a Value, place: Place, key: ObjectKey) -> Option<&'a Value> {
    let mut value = object;
    for word in path_of(key).split(".") {
        value = value_at(value, word, place)?;
    }
    Some(value)
}

/// Writes what stands there as a person reads it.
pub(crate) fn write_found<W: Write>(out: &mut W, found: Option<&Value>) -> io::Result<()> {
    let Some(value) = found else {
        return out.write_all(b"nothing");
    };
    match value {
        Value::Null => out.write_all(b"null"),
        Value::Bool(is_so) => write!(out, "{is_so}"),
        Value::Number(number) => write!(out, "{number}"),
        Value::String(text) => {
            if text.len() <= LONGEST {
                write_text(out, text.as_str())
            } else {
                let count = text.len();
                write!(out, "a text of {count} bytes")
            }
        }
        Value::Array(_) => out.write_all(b"an array"),
        Value::Object(_) => out.write_all(b"an object"),
    }
}
