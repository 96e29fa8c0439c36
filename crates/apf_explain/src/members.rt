//! The line of one request.

ghost use Rattle.std.specs.Prelude.{◌≡◌, ◌-◌, OnOk, IfSome, option_map, option_and_then};
ghost use Rattle.std.specs.Io.KnownBytes.{Appends};
ghost use Rattle.serde_json.specs.Find.{at};
ghost use Rattle.serde_json.specs.View.{view};
ghost use Rattle.apf_explain.specs.Wanted.{request_key_name, request_wanted};
ghost use Rattle.apf_explain.specs.Lines.{last_number, key_of_fault, place_text, request_text};

use crate::flow::write_bad_flow;
use crate::found::Found;
use crate::json::{items_of, value_at, write_unwanted};
use crate::keys::{Keys, write_unknown_key};
use crate::place::Place;
use crate::wanted::Wanted;
use apf_files::{MAX_WORK, RequestFault, every_item_is_counted};
use apf_words::MAX_WIDTH;
use serde_json::Value;
use std::io;
use std::io::Write;

/// A key of a request.
#[derive(Clone, Copy, Debug, PartialEq, Eq)]
pub(crate) enum RequestKey {
    Schema,
    Distinguisher,
    Hash,
    Width,
    Work,
    Cancels,
    Closes,
}

impl RequestKey {
    /// The key's name in a file.
    pub(crate) fn name(self) -> &'static str
        ensures { result.now ≡ request_key_name self }
    {
        match self {
            RequestKey::Schema => "schema",
            RequestKey::Distinguisher => "distinguisher",
            RequestKey::Hash => "hash",
            RequestKey::Width => "width",
            RequestKey::Work => "work",
            RequestKey::Cancels => "cancels",
            RequestKey::Closes => "closes",
        }
    }

    /// What has to stand at the key, where the last request has the number `last`.
    pub(crate) fn wanted(self, last: u64) -> Wanted
        ensures { result ≡ request_wanted last self }
    {
        match self {
            RequestKey::Schema | RequestKey::Distinguisher => Wanted::Text,
            RequestKey::Hash => Wanted::Whole(0, u64::MAX),
            RequestKey::Width => Wanted::Whole(1, u64::from(MAX_WIDTH)),
            RequestKey::Work => Wanted::Whole(0, u64::from(MAX_WORK)),
            RequestKey::Cancels => Wanted::Request(last),
            RequestKey::Closes => Wanted::Flag,
        }
    }
}

// The request of this number.
fn request_at(value: Option<&Value>, number: u32) -> Option<&Value>
    ensures { option_map (λ request. view request.now) result ≡ option_and_then (at number) (option_map (λ whole. view whole.now) value.entry) }
{
    value?.get(number as usize)
}

// The number of the last request, where there is one.
fn last_of(value: Option<&Value>) -> u64
    ensures { result ≡ last_number (option_map (λ whole. view whole.now) value.entry) }
{
    every_item_is_counted();
    match items_of(value) {
        Some(items) => (items.len() as u64).saturating_sub(1),
        None => 0,
    }
}

// The key whose value has the fault, where it is that of one key alone.
fn key_of(fault: RequestFault) -> Option<RequestKey>
    ensures { result ≡ key_of_fault fault }
{
    match fault {
        RequestFault::BadWidth(_) => Some(RequestKey::Width),
        RequestFault::BadWork(_) => Some(RequestKey::Work),
        RequestFault::BadCancels(_) => Some(RequestKey::Cancels),
        RequestFault::BadCloses(_) => Some(RequestKey::Closes),
        _ => None,
    }
}

/// Writes the fault of the request of this number, where `value` is that of the whole file.
pub(crate) fn write_request<W: Write>(
    out: &mut W,
    place: Place<'_>,
    value: Option<&Value>,
    number: u32,
    fault: RequestFault,
) -> io::Result<()>
    ensures { OnOk result (IfSome (request_text (place_text place.entry.name.now place.entry.part) (option_map (λ value. view value.now) value.entry) number fault)
        (Appends (W.contents out.old) (W.contents out.new))) }
{
    let request = request_at(value, number);
    if let Some(key) = key_of(fault) {
        let found = value_at(request, key.name());
        return write_unwanted(out, place, key.name(), found, key.wanted(last_of(value)));
    }
    match fault {
        RequestFault::UnknownKey(_) => write_unknown_key(out, place, Keys::OfRequest, request),
        RequestFault::BadFlow(_) => write_bad_flow(out, place, request),
        _ => {
            let found = Found(request);
            writeln!(
                out,
                "{place}a request is a JSON object, but this is {found}"
            )
        }
    }
}
