//! What stands at a key of an object.

ghost use Rattle.std.specs.Prelude.{◌≡◌, ◌≢◌, ◌≤◌, IfOk, IfErr, Ok, Err, map, string_bytes};
ghost use Rattle.serde_json.specs.View.{view, items_view};
ghost use Rattle.apf_files.specs.FirstFault.{before};
ghost use Rattle.apf_objects.specs.Values as spec;

use crate::fault::{ObjectFault, Place};
use crate::key::ObjectKey;
use serde_json::Value;
use std::alloc::Global;

/// What stands at a key of a value, if both are there.
#[tactic(auto, unfolding(crate::specs::Values::at))]
pub(crate) fn at<'a>(value: Option<&'a Value>, key: ObjectKey) -> Option<&'a Value>
    ensures { spec.seen result ≡ spec.at key (spec.seen value.entry) }
{
    value?.get(key.word())
}

/// The object at a key, and none where the key is absent.
#[tactic(auto, unfolding(crate::specs::Values::part_at))]
pub(crate) fn part_at<'a>(
    value: Option<&'a Value>,
    place: Place,
    key: ObjectKey,
) -> Result<Option<&'a Value>, ObjectFault>
    ensures ok { IfOk result (λ part. spec.part_at place key (spec.seen value.entry) ≡ Ok (spec.seen part)) }
    ensures err { IfErr result (λ fault. spec.part_at place key (spec.seen value.entry) ≡ Err fault) }
{
    let Some(part) = at(value, key) else {
        return Ok(None);
    };
    if part.as_object().is_none() {
        return Err(ObjectFault::BadValue(place, key));
    }
    Ok(Some(part))
}

/// A copy of a text.
pub(crate) fn owned(alloc: Global, text: &str) -> Result<String, ObjectFault>
    ensures ok { IfOk result (λ copy. string_bytes copy ≡ text.now) }
    ensures err { IfErr result (λ fault. fault ≡ ObjectFault.NoMemory) }
{
    match String::from_str(alloc, text) {
        Ok(copy) => Ok(copy),
        Err(_) => Err(ObjectFault::NoMemory),
    }
}

/// The text that the value is.
pub(crate) fn text_of<'a>(
    value: &'a Value,
    place: Place,
    key: ObjectKey,
) -> Result<&'a str, ObjectFault>
    ensures ok { IfOk result (λ text. spec.text_of place key (view value.now) ≡ Ok text.now) }
    ensures err { IfErr result (λ fault. spec.text_of place key (view value.now) ≡ Err fault) }
{
    value.as_str().ok_or(ObjectFault::BadValue(place, key))
}

/// The text at a key, which must be there.
#[tactic(auto, unfolding(crate::specs::Values::text_at))]
pub(crate) fn text_at<'a>(
    value: Option<&'a Value>,
    place: Place,
    key: ObjectKey,
) -> Result<&'a str, ObjectFault>
    ensures ok { IfOk result (λ text. spec.text_at place key (spec.seen value.entry) ≡ Ok text.now) }
    ensures err { IfErr result (λ fault. spec.text_at place key (spec.seen value.entry) ≡ Err fault) }
{
    match at(value, key) {
        Some(text) => text_of(text, place, key),
        None => Err(ObjectFault::Missing(place, key)),
    }
}

/// The whole number from `low` to `high` at a key, or the default where the key is absent.
#[tactic(auto, unfolding(crate::specs::Values::number_at))]
pub(crate) fn number_at(
    value: Option<&Value>,
    place: Place,
    key: ObjectKey,
    low: u32,
    high: u32,
    default: u32,
) -> Result<u32, ObjectFault>
    requires { (low ≤ default) × (default ≤ high) }
    ensures value { result ≡ spec.number_at place key low high default (spec.seen value.entry) }
    ensures within { IfOk result (λ n. (low ≤ n) × (n ≤ high)) }
{
    let Some(number) = at(value, key) else {
        return Ok(default);
    };
    match number.as_u64() {
        Some(n) if u64::from(low) <= n && n <= u64::from(high) => Ok(n as u32),
        _ => Err(ObjectFault::BadValue(place, key)),
    }
}

/// Whether true stands at a key; false where the key is absent.
#[tactic(auto, unfolding(crate::specs::Values::flag_at))]
pub(crate) fn flag_at(
    value: Option<&Value>,
    place: Place,
    key: ObjectKey,
) -> Result<bool, ObjectFault>
    ensures { result ≡ spec.flag_at place key (spec.seen value.entry) }
{
    let Some(flag) = at(value, key) else {
        return Ok(false);
    };
    flag.as_bool().ok_or(ObjectFault::BadValue(place, key))
}

/// The members of the array at a key; none where the key is absent.
#[tactic(auto, unfolding(crate::specs::Values::items_at))]
pub(crate) fn items_at<'a>(
    value: Option<&'a Value>,
    place: Place,
    key: ObjectKey,
) -> Result<&'a [Value], ObjectFault>
    ensures ok { IfOk result (λ items. spec.items_at place key (spec.seen value.entry) ≡ Ok (items_view items.now)) }
    ensures err { IfErr result (λ fault. spec.items_at place key (spec.seen value.entry) ≡ Err fault) }
{
    let Some(array) = at(value, key) else {
        return Ok(&[]);
    };
    match array.as_array() {
        Some(items) => Ok(items.as_slice()),
        None => Err(ObjectFault::BadValue(place, key)),
    }
}

// The texts that these values are.
fn texts_of(
    alloc: Global,
    items: &[Value],
    place: Place,
    key: ObjectKey,
) -> Result<Vec<String>, ObjectFault>
    ensures ok { IfOk result (λ texts. spec.texts_of place key (items_view items.now) ≡ Ok (map string_bytes texts.items)) }
    ensures err { IfErr result (λ fault. fault ≢ ObjectFault.NoMemory → spec.texts_of place key (items_view items.now) ≡ Err fault) }
{
    let mut texts = Vec::new(alloc);
    for item in items {
        let text = owned(alloc, text_of(item, place, key)?)?;
        if texts.push(text).is_err() {
            return Err(ObjectFault::NoMemory);
        }
    }
    Ok(texts)
}

/// The texts of the array at a key; none where the key is absent.
#[tactic(auto, unfolding(crate::specs::Values::texts_at))]
pub(crate) fn texts_at(
    alloc: Global,
    value: Option<&Value>,
    place: Place,
    key: ObjectKey,
) -> Result<Vec<String>, ObjectFault>
    ensures ok { IfOk result (λ texts. spec.texts_at place key (spec.seen value.entry) ≡ Ok (map string_bytes texts.items)) }
    ensures err { IfErr result (λ fault. fault ≢ ObjectFault.NoMemory → spec.texts_at place key (spec.seen value.entry) ≡ Err fault) }
{
    let items = items_at(value, place, key)?;
    texts_of(alloc, items, place, key)
}
