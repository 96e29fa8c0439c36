//! The value of a line that is one object of texts and whole numbers, as most are, read into room that is kept.

ghost use Rattle.std.specs.Prelude.{◌≡◌, ◌<◌, ℕ, Some, length, option_map, IfOk, IfErr, IfSome, OnOk};
ghost use Rattle.json.specs.Json.{members as members_from, value as value_from};
ghost use Rattle.serde_json.specs.Data.{no_members, unsigned};
ghost use Rattle.serde_json.specs.Read.{converted, number_of, of_json, of_members, read as read_text};
ghost use Rattle.serde_json.specs.View.{members_view, view};
ghost use Rattle.apf_files.specs.JsonFile.{value_of as value_of_bytes};

use apf_files::value_of;
use fast_float::Numeral;
use json::{Invalid, Reader, Scratch, Token};
use serde_json::{Map, Value};
use std::alloc::{AllocError, AllocFailed, Global};

// The whole number below 2^64 that this text writes without a sign, a point and an exponent, if it is one.
fn whole_number(text: &str) -> Option<u64>
    ensures { IfSome result (λ n. number_of text.now ≡ Some (unsigned n)) }
{
    let bytes = text.as_bytes();
    if bytes.is_empty() || bytes[0] == b'-' {
        return None;
    }
    Numeral::scan(bytes).to_u64()
}

/// The text is no object of texts and whole numbers, or memory was refused.
#[derive(Clone, Copy)]
pub(crate) struct Unusual;

impl From<Invalid> for Unusual {
    fn from(_invalid: Invalid) -> Unusual {
        Unusual
    }
}

impl From<AllocError> for Unusual {
    fn from(_refused: AllocError) -> Unusual {
        Unusual
    }
}

impl<T> From<AllocFailed<T>> for Unusual
where
    T: Drop,
{
    fn from(_refused: AllocFailed<T>) -> Unusual {
        Unusual
    }
}

// The text or the whole number that comes next, if it is one.
fn flat_value(alloc: Global, reader: &mut Reader<'_>) -> Result<Value, Unusual>
    ensures value { IfOk result (λ v. (depth : ℕ) → converted of_json (value_from depth reader.old) ≡ Some (view v, reader.new)) }
    ensures shorter { OnOk result (length reader.new < length reader.old) }
{
    let token = reader.next().ok_or(Unusual)?;
    match token {
        Token::String(text) => Ok(Value::String(String::from_str(alloc, text)?)),
        Token::Number(text) => match whole_number(text) {
            Some(number) => Ok(Value::from(number)),
            None => Err(Unusual),
        },
        _ => Err(Unusual),
    }
}

// The members of an object up to its brace, if all are texts and whole numbers.
fn flat_members(alloc: Global, reader: &mut Reader<'_>) -> Result<Map<String, Value>, Unusual>
    ensures { IfOk result (λ m. (depth : ℕ)
        → converted (λ ms. of_members ms no_members) (members_from (value_from depth) (length reader.old) reader.old) ≡ Some (members_view m.entries, reader.new)) }
{
    let mut found = Map::new(alloc);
    'members: while let Some(name) = reader.next_key()? {
        let key = String::from_str(alloc, name)?;
        let member = flat_value(alloc, reader)?;
        drop(found.insert(key, member)?);
    }
    Ok(found)
}

/// The object that the text is, if its members are texts and whole numbers, and memory was not refused.
pub(crate) fn flat_object(
    alloc: Global,
    text: &str,
    scratch: &mut Scratch,
) -> Result<Value, Unusual>
    ensures { IfOk result (λ v. read_text text.now ≡ Some (view v)) }
{
    let Ok(mut reader) = Reader::new(text, scratch) else {
        return Err(Unusual);
    };
    let Some(Token::BeginObject) = reader.next() else {
        return Err(Unusual);
    };
    let members = flat_members(alloc, &mut reader)?;
    if reader.next().is_some() {
        return Err(Unusual);
    }
    Ok(Value::Object(members))
}

/// The value of a JSON text in UTF-8, or none where the bytes are no such text, as `value_of` answers it.
///
/// # Errors
///
/// Only where memory was refused. Of no bytes the answer is none.
pub(crate) fn line_value(
    alloc: Global,
    bytes: &[u8],
    scratch: &mut Scratch,
) -> Result<Option<Value>, AllocError>
    ensures value { IfOk result (λ value. option_map view value ≡ value_of_bytes bytes.now) }
    ensures some { IfOk result (λ value. IfSome value (λ read. 0 < length bytes.now)) }
    ensures memory { IfErr result (λ refused. 0 < length bytes.now) }
{
    if let Ok(text) = str::from_utf8(bytes) {
        if let Ok(value) = flat_object(alloc, text, scratch) {
            return Ok(Some(value));
        }
    }
    value_of(alloc, bytes)
}
