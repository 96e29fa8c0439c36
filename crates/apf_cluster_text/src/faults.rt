//! The line of a fault of objects.

use crate::found::{found_at, object_at, write_found};
use crate::path::{path_of, wanted_of};
use apf_files::{Parsed, text_at};
use apf_flows::write_text;
use apf_objects::{MAX_LEVELS, MAX_OBJECTS, ObjectFault, ObjectKey, Place};
use serde_json::Value;
use std::io;
use std::io::Write;

// Writes a key of an object by its path, with the numbers of the rule and of its member.
fn write_path<W: Write>(out: &mut W, place: Place, key: ObjectKey) -> io::Result<()> {
    let (rule, member) = (place.rule, place.member);
    for byte in path_of(key).as_bytes() {
        match *byte {
            b'%' => write!(out, "[{rule}]")?,
            b'#' => write!(out, "[{member}]")?,
            other => out.write_all(&[other])?,
        }
    }
    Ok(())
}

// Writes which object it is: its number, and its kind and name where it has them.
fn write_object<W: Write>(out: &mut W, object: Option<&Value>, place: Place) -> io::Result<()> {
    let number = place.object;
    write!(out, " at object {number}")?;
    let Some(object) = object else {
        return Ok(());
    };
    if let Some(kind) = text_at(object, "kind") {
        out.write_all(b", ")?;
        write_text(out, kind)?;
    }
    if let Some(metadata) = object.get("metadata")
        && let Some(name) = text_at(metadata, "name")
    {
        out.write_all(b" ")?;
        write_text(out, name)?;
    }
    Ok(())
}

// Writes what is wrong, behind the number and the object.
fn write_reason<W: Write>(
    out: &mut W,
    value: Option<&Value>,
    object: Option<&Value>,
    fault: &ObjectFault,
) -> io::Result<()> {
    match *fault {
        ObjectFault::NotJson => out.write_all(b": this is not JSON"),
        ObjectFault::NoObjects => {
            out.write_all(b": kind is ")?;
            write_found(out, value.and_then(|whole| whole.get("kind")))?;
            out.write_all(
                b": it must be List, FlowSchemaList, PriorityLevelConfigurationList, FlowSchema or PriorityLevelConfiguration",
            )
        }
        ObjectFault::BadItems => {
            out.write_all(b": items is ")?;
            write_found(out, value.and_then(|whole| whole.get("items")))?;
            out.write_all(b": it must be an array")
        }
        ObjectFault::TooMany => write!(out, ": more than {MAX_OBJECTS} objects"),
        ObjectFault::NotObject(_) => {
            out.write_all(b": it is ")?;
            write_found(out, object)?;
            out.write_all(b": it must be an object")
        }
        ObjectFault::Missing(place, key) => {
            out.write_all(b": ")?;
            write_path(out, place, key)?;
            let wanted = wanted_of(key);
            write!(out, " is absent: it must be {wanted}")
        }
        ObjectFault::BadValue(place, key) => {
            out.write_all(b": ")?;
            write_path(out, place, key)?;
            out.write_all(b" is ")?;
            let found = object.and_then(|object| found_at(object, place, key));
            write_found(out, found)?;
            let wanted = wanted_of(key);
            write!(out, ": it must be {wanted}")
        }
        ObjectFault::Repeated(_) => {
            out.write_all(b": metadata.name is that of an earlier object of this kind")
        }
        ObjectFault::TooManyLevels(_) => write!(out, ": more than {MAX_LEVELS} levels"),
        ObjectFault::NoMemory => out.write_all(b": out of memory"),
    }
}

/// Writes the line of a fault of a text that was parsed as this: its number, its object, its key, what stands there and what
/// may.
///
/// # Errors
///
/// Those of the writer.
pub fn write_object_fault<W: Write>(
    out: &mut W,
    parsed: &Parsed,
    fault: &ObjectFault,
) -> io::Result<()> {
    let value = parsed.value();
    let number = fault.number();
    write!(out, "apf: objects fault {number}")?;
    let mut object = None;
    if let Some(place) = fault.place() {
        object = value.and_then(|whole| object_at(whole, place.object));
        write_object(out, object, place)?;
    }
    write_reason(out, value, object, fault)?;
    out.write_all(b"\n")
}
