//! The requests file: what arrives at a level, as one JSON array.

ghost use Rattle.std.specs.Prelude.{◌≡◌, ◌≢◌, ◌<◌, ◌≤◌, IfOk, IfErr, Ok, Err, All, length, vec_len};
ghost use Rattle.serde_json.specs.View.{view, items_view};
ghost use Rattle.apf_words.specs.Limits.{max_requests};
ghost use Rattle.apf_files.specs.JsonFile.{judged, value_in};
ghost use Rattle.apf_files.specs.RequestsFile.{requests_of, requests_from, request_fault_number, place_of, AreRequestsOf, IsRequestInRange};

mod member;

use crate::json::{Parsed, parse};
use crate::requests::member::request_of_value;
pub use crate::requests::member::{MAX_WORK, flow_of, is_request_key, number_or};
use serde_json::Value;
use std::alloc::{AllocError, Global};
use thiserror::Error;

/// A request of a requests file. Its number is its place in the file, from 0.
#[derive(Clone, Copy, Debug, PartialEq, Eq)]
pub struct Request {
    /// The seats that the request takes while it executes, 1 to 20,000; 1 if absent.
    pub width: u32,
    /// The hash of the request's flow: given itself, or the `flow_hash` of `schema` and `distinguisher`.
    pub hash: u64,
    /// The units of work that the request does while it executes, 0 to 1,000,000; 0 if absent.
    pub work: u32,
    /// The number of the request that this one cancels, if it cancels one.
    pub cancels: Option<u32>,
    /// Whether this request closes the level; false if absent.
    pub closes: bool,
}

/// Why a requests file was refused: the first fault, with the number of its request, counted from 0.
#[derive(Clone, Copy, Debug, PartialEq, Eq, Error)]
pub enum RequestFault {
    /// 1: the bytes are no JSON text in UTF-8.
    #[error("not JSON")]
    NotJson,
    /// 2: the value is no array.
    #[error("not an array")]
    NotArray,
    /// 3: the array has more than 10,000 members.
    #[error("too many requests")]
    TooMany,
    /// 4: the member is no object.
    #[error("not an object")]
    NotObject(u32),
    /// 5: the member has a key that requests do not have.
    #[error("unknown key")]
    UnknownKey(u32),
    /// 6: there is neither `hash` alone, a number of 64 bits, nor both `schema` and `distinguisher` alone, two texts.
    #[error("bad flow")]
    BadFlow(u32),
    /// 7: `width` is not a whole number from 1 to 20,000.
    #[error("bad width")]
    BadWidth(u32),
    /// 8: `work` is not a whole number from 0 to 1,000,000.
    #[error("bad work")]
    BadWork(u32),
    /// 9: `cancels` is not a whole number below the number of requests.
    #[error("bad cancels")]
    BadCancels(u32),
    /// 10: `closes` is neither true nor false.
    #[error("bad closes")]
    BadCloses(u32),
    /// 11: memory was refused.
    #[error("out of memory")]
    NoMemory,
}

const MAX_REQUESTS: usize = apf_words::MAX_REQUESTS as usize;

impl RequestFault {
    /// The fault's number, 1 to 11.
    pub fn number(&self) -> u8
        ensures { result ≡ request_fault_number self.now }
    {
        match self {
            RequestFault::NotJson => 1,
            RequestFault::NotArray => 2,
            RequestFault::TooMany => 3,
            RequestFault::NotObject(_) => 4,
            RequestFault::UnknownKey(_) => 5,
            RequestFault::BadFlow(_) => 6,
            RequestFault::BadWidth(_) => 7,
            RequestFault::BadWork(_) => 8,
            RequestFault::BadCancels(_) => 9,
            RequestFault::BadCloses(_) => 10,
            RequestFault::NoMemory => 11,
        }
    }

    /// The number of the fault's request; a fault of the whole file has none.
    pub fn request(&self) -> Option<u32>
        ensures { result ≡ place_of self.now }
    {
        match *self {
            RequestFault::NotObject(i)
            | RequestFault::UnknownKey(i)
            | RequestFault::BadFlow(i)
            | RequestFault::BadWidth(i)
            | RequestFault::BadWork(i)
            | RequestFault::BadCancels(i)
            | RequestFault::BadCloses(i) => Some(i),
            RequestFault::NotJson
            | RequestFault::NotArray
            | RequestFault::TooMany
            | RequestFault::NoMemory => None,
        }
    }
}

fn requests_of_items(alloc: Global, items: &[Value]) -> Result<Vec<Request>, RequestFault>
    requires { length items.now ≤ max_requests }
    ensures ok { IfOk result (λ requests.
        requests_from (length items.now) 0 (items_view items.now) ≡ Ok requests.items) }
    ensures count { IfOk result (λ requests. vec_len requests ≡ length items.now) }
    ensures ranges { IfOk result (λ requests. All (IsRequestInRange (length items.now)) requests.items) }
    ensures err { IfErr result (λ fault. fault ≢ RequestFault.NoMemory
        → requests_from (length items.now) 0 (items_view items.now) ≡ Err fault) }
{
    let count = items.len() as u32;
    let mut requests = Vec::new(alloc);
    for (i, item) in items.iter().enumerate() {
        let request = request_of_value(item, i as u32, count)?;
        if requests.push(request).is_err() {
            return Err(RequestFault::NoMemory);
        }
    }
    Ok(requests)
}

#[tactic(auto, unfolding(crate::specs::RequestsFile::requests_of))]
fn requests_of_value(alloc: Global, value: &Value) -> Result<Vec<Request>, RequestFault>
    ensures ok { IfOk result (λ requests. requests_of (view value.now) ≡ Ok requests.items) }
    ensures ranges { IfOk result (λ requests. (vec_len requests ≤ max_requests)
        × All (IsRequestInRange (vec_len requests)) requests.items) }
    ensures err { IfErr result (λ fault. fault ≢ RequestFault.NoMemory
        → requests_of (view value.now) ≡ Err fault) }
{
    let Some(items) = value.as_array() else {
        return Err(RequestFault::NotArray);
    };
    if items.len() > MAX_REQUESTS {
        return Err(RequestFault::TooMany);
    }
    requests_of_items(alloc, items.as_slice())
}

/// The requests that a file is, which was parsed as this: one JSON array in UTF-8 with at most 10,000 objects.
///
/// A request has either `hash`, a whole number of 64 bits, or both of the texts `schema` and `distinguisher`, whose
/// `flow_hash` its hash is. It may have `width`, `work`, `cancels` and `closes`, and no other key. Numbers are whole
/// numbers, without fraction or exponent. Of a repeated key the last value counts.
///
/// # Errors
///
/// `NotJson`, `NotArray` and `TooMany` come first. Then the members are judged in order, each by the other faults in
/// the order of `RequestFault`; the first one is answered. `NoMemory` only where memory was refused.
pub fn judge_requests(alloc: Global, parsed: &Parsed) -> Result<Vec<Request>, RequestFault>
    ensures ok { IfOk result (λ requests. judged RequestFault.NotJson requests_of (value_in parsed.now) ≡ Ok requests.items) }
    ensures ranges { IfOk result (λ requests. (vec_len requests ≤ max_requests)
        × All (IsRequestInRange (vec_len requests)) requests.items) }
    ensures err { IfErr result (λ fault. fault ≢ RequestFault.NoMemory
        → judged RequestFault.NotJson requests_of (value_in parsed.now) ≡ Err fault) }
    ensures memory { IfErr result (λ fault. fault ≡ RequestFault.NoMemory → value_in parsed.now ≢ None) }
{
    match parsed {
        Parsed::Value(value) => requests_of_value(alloc, value),
        Parsed::Stopped(_) => Err(RequestFault::NotJson),
    }
}

/// Reads a requests file: parses it, and judges what it was parsed as.
///
/// # Errors
///
/// As for `judge_requests`. `NoMemory` only where memory was refused.
pub fn read_requests(alloc: Global, bytes: &[u8]) -> Result<Vec<Request>, RequestFault>
    ensures ok { IfOk result (λ requests. AreRequestsOf bytes.now (Ok requests.items)) }
    ensures ranges { IfOk result (λ requests. (vec_len requests ≤ max_requests)
        × All (IsRequestInRange (vec_len requests)) requests.items) }
    ensures err { IfErr result (λ fault. fault ≢ RequestFault.NoMemory
        → AreRequestsOf bytes.now (Err fault)) }
    ensures memory { IfErr result (λ fault. fault ≡ RequestFault.NoMemory → 0 < length bytes.now) }
{
    match parse(alloc, bytes) {
        Ok(parsed) => judge_requests(alloc, &parsed),
        Err(AllocError) => Err(RequestFault::NoMemory),
    }
}
