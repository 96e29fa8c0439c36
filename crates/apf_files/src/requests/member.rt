//! One member of a requests file.

ghost use Rattle.std.specs.Prelude.{◌≡◌, ◌<◌, ◌≤◌, IfOk, IfSome, codes};
ghost use Rattle.serde_json.specs.Find.{get};
ghost use Rattle.serde_json.specs.View.{view, members_view};
ghost use Rattle.apf_files.specs.JsonFile.{all_known};
ghost use Rattle.apf_files.specs.RequestsFile.{request_of, is_key, flow_of as flow_of_members, number_or as number_or_default, cancels_of as cancels_of_member, closes_of as closes_of_member, IsRequestInRange};

use crate::json::{whole_number, whole_number_below};
use crate::requests::{Request, RequestFault};
use apf_flow::flow_hash;
use apf_words::MAX_WIDTH;
use serde_json::{Map, Value};

const DEFAULT_WIDTH: u32 = 1;

const DEFAULT_WORK: u32 = 0;

/// The most work of a request.
pub const MAX_WORK: u32 = 1_000_000;

/// Whether a request of a requests file may have a key of this name.
#[tactic(auto, unfolding(crate::specs::RequestsFile::is_key))]
pub fn is_request_key(name: &str) -> bool
    ensures { result ≡ is_key name.now }
{
    name == "schema"
        || name == "distinguisher"
        || name == "hash"
        || name == "width"
        || name == "work"
        || name == "cancels"
        || name == "closes"
}

fn has_request_keys(members: &Map<String, Value>) -> bool
    ensures { result ≡ all_known is_key (members_view members.now.entries) }
{
    members.keys().all(|name| is_request_key(name.as_str()))
}

/// The hash of the flow that an object names: by `hash` alone, a whole number of 64 bits, or by both of the texts
/// `schema` and `distinguisher` alone. None for anything else.
pub fn flow_of(value: &Value) -> Option<u64>
    ensures { result ≡ flow_of_members (get (codes "hash") (view value.now))
        (get (codes "schema") (view value.now)) (get (codes "distinguisher") (view value.now)) }
{
    match (
        value.get("hash"),
        value.get("schema"),
        value.get("distinguisher"),
    ) {
        (Some(hash), None, None) => hash.as_u64(),
        (None, Some(schema), Some(distinguisher)) => {
            Some(flow_hash(schema.as_str()?, distinguisher.as_str()?))
        }
        _ => None,
    }
}

/// The whole number from `low` to `high` at `key`, or the default where the key is absent. None for anything else.
pub fn number_or(value: &Value, key: &str, low: u32, high: u32, default: u32) -> Option<u32>
    requires { (low ≤ default) × (default ≤ high) }
    ensures value { result ≡ number_or_default low high default (get key.now (view value.now)) }
    ensures within { IfSome result (λ n. (low ≤ n) × (n ≤ high)) }
{
    match value.get(key) {
        Some(member) => whole_number(member, low, high),
        None => Some(default),
    }
}

// The request that is cancelled, one of `count`, or none where none is named.
fn cancels_of(value: &Value, count: u32) -> Option<Option<u32>>
    ensures value { result ≡ cancels_of_member count (get (codes "cancels") (view value.now)) }
    ensures within { IfSome result (λ cancels. IfSome cancels (λ n. n < count)) }
{
    match value.get("cancels") {
        Some(member) => whole_number_below(member, count).map(Some),
        None => Some(None),
    }
}

fn closes_of(value: &Value) -> Option<bool>
    ensures { result ≡ closes_of_member (get (codes "closes") (view value.now)) }
{
    match value.get("closes") {
        Some(member) => member.as_bool(),
        None => Some(false),
    }
}

/// The request that `value` is, member `i` of `count`.
#[tactic(auto, unfolding(crate::specs::RequestsFile::request_of))]
pub(crate) fn request_of_value(value: &Value, i: u32, count: u32) -> Result<Request, RequestFault>
    ensures value { result ≡ request_of count i (view value.now) }
    ensures ranges { IfOk result (IsRequestInRange count) }
{
    let Some(members) = value.as_object() else {
        return Err(RequestFault::NotObject(i));
    };
    if !has_request_keys(members) {
        return Err(RequestFault::UnknownKey(i));
    }
    let hash = flow_of(value).ok_or(RequestFault::BadFlow(i))?;
    let width = number_or(value, "width", 1, MAX_WIDTH, DEFAULT_WIDTH).ok_or(RequestFault::BadWidth(
        i,
    ))?;
    let work = number_or(value, "work", 0, MAX_WORK, DEFAULT_WORK).ok_or(RequestFault::BadWork(i))?;
    let cancels = cancels_of(value, count).ok_or(RequestFault::BadCancels(i))?;
    let closes = closes_of(value).ok_or(RequestFault::BadCloses(i))?;
    Ok(Request {
        width,
        hash,
        work,
        cancels,
        closes,
    })
}
