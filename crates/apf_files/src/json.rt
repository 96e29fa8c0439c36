//! What the readers of JSON share.

ghost use Rattle.std.specs.Prelude.{◌≡◌, ◌<◌, ◌≤◌, IfOk, IfErr, IfSome, option_map, length};
ghost use Rattle.serde_json.specs.View.{view};
ghost use Rattle.apf_files.specs.JsonFile.{value_in, value_of as value_of_bytes, text_at as text_at_key, whole_in, whole_below};

use serde_json::{Error, Value};
use std::alloc::{AllocError, Global};

/// What the bytes of a file were parsed as.
#[derive(Drop)]
pub enum Parsed {
    /// The value of a JSON text in UTF-8.
    Value(Value),
    /// They are no such text: where they stop to be one, and why.
    Stopped(Error),
}

impl Parsed {
    /// The value, if the bytes are a JSON text in UTF-8.
    pub fn value(&self) -> Option<&Value>
        ensures { option_map (λ value. view value.now) result ≡ value_in self.now }
    {
        match self {
            Parsed::Value(value) => Some(value),
            Parsed::Stopped(_) => None,
        }
    }
}

/// Parses bytes as a JSON text in UTF-8.
///
/// # Errors
///
/// Only where memory was refused.
pub fn parse(alloc: Global, bytes: &[u8]) -> Result<Parsed, AllocError>
    ensures value { IfOk result (λ parsed. value_in parsed ≡ value_of_bytes bytes.now) }
    ensures some { IfOk result (λ parsed. IfSome (value_in parsed) (λ read. 0 < length bytes.now)) }
    ensures memory { IfErr result (λ refused. 0 < length bytes.now) }
{
    match Value::from_slice(alloc, bytes) {
        Ok(value) => Ok(Parsed::Value(value)),
        Err(e) if e.is_memory() => Err(AllocError),
        Err(e) => Ok(Parsed::Stopped(e)),
    }
}

/// The value of a JSON text in UTF-8, or none where the bytes are no such text.
///
/// # Errors
///
/// Only where memory was refused. Of no bytes the answer is none.
pub fn value_of(alloc: Global, bytes: &[u8]) -> Result<Option<Value>, AllocError>
    ensures value { IfOk result (λ value. option_map view value ≡ value_of_bytes bytes.now) }
    ensures some { IfOk result (λ value. IfSome value (λ read. 0 < length bytes.now)) }
    ensures memory { IfErr result (λ refused. 0 < length bytes.now) }
{
    match parse(alloc, bytes)? {
        Parsed::Value(value) => Ok(Some(value)),
        Parsed::Stopped(_) => Ok(None),
    }
}

/// The text at `key`, if there is one.
#[tactic(auto, unfolding(crate::specs::JsonFile::text_at))]
pub fn text_at<'a>(value: &'a Value, key: &str) -> Option<&'a str>
    ensures { option_map (λ text. text.now) result ≡ text_at_key key.now (view value.now) }
{
    value.get(key)?.as_str()
}

/// The whole number that `value` is, if it is one from `low` to `high`.
pub(crate) fn whole_number(value: &Value, low: u32, high: u32) -> Option<u32>
    ensures value { result ≡ whole_in low high (view value.now) }
    ensures within { IfSome result (λ n. (low ≤ n) × (n ≤ high)) }
{
    match value.as_u64() {
        Some(n) if u64::from(low) <= n && n <= u64::from(high) => Some(n as u32),
        _ => None,
    }
}

/// The whole number that `value` is, if it is one below `end`.
pub(crate) fn whole_number_below(value: &Value, end: u32) -> Option<u32>
    ensures value { result ≡ whole_below end (view value.now) }
    ensures within { IfSome result (λ n. n < end) }
{
    match value.as_u64() {
        Some(n) if n < u64::from(end) => Some(n as u32),
        _ => None,
    }
}
