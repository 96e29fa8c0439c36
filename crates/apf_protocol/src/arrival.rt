//! Reads what an arrival's object asks.

ghost use Rattle.std.specs.Prelude.{◌≡◌, ◌≢◌, ◌<◌, ◌≤◌, IfOk, IfErr, Ok, Err, Some, None, codes};
ghost use Rattle.serde_json.specs.Errors.{IsMemory, IsOfText};
ghost use Rattle.serde_json.specs.Read.{read};
ghost use Rattle.serde_json.specs.View.{view, members_view};
ghost use Rattle.apf_files.specs.JsonFile.{all_known};
ghost use Rattle.apf_explain.specs.Keys.{is_arrival_key as is_key};
ghost use Rattle.apf_protocol.specs.Faults.{IsFoundIn};
ghost use Rattle.apf_protocol.specs.Objects.{asked_of, arrival_in, IsArrivalInRange};

use crate::fault::{FaultKind, Found, LineFault};
use apf_explain::{is_arrival_key, line_reason};
use apf_files::{every_key_is_a_member, number_or};
use apf_model::Ask;
use apf_traces::ObjectReader;
use apf_words::{MAX_COST, MAX_WIDTH};
use serde_json::{Error, Map, Value};
use std::alloc::Global;

const DEFAULT_WIDTH: u32 = 1;

/// What a request that arrives asks.
#[derive(Clone, Copy, Debug, PartialEq, Eq)]
pub struct Arrival {
    /// Its seats and the hash of its flow: given itself, or the `flow_hash` of its two names. The width is 1 if absent.
    pub ask: Ask,
    /// What its dispatch is charged, 1 to 4,294,967,295, where that is said.
    pub cost: Option<u32>,
}

fn has_arrival_keys(members: &Map<String, Value>) -> bool
    ensures { result ≡ all_known is_key (members_view members.now.entries) }
{
    every_key_is_a_member();
    members.keys().all(|name| is_arrival_key(name.as_str()))
}

// What the value of an object asks.
#[tactic(auto, unfolding(crate::specs::Objects::asked_of))]
fn asked(objects: &mut ObjectReader, value: &Value) -> Result<Arrival, FaultKind>
    ensures value { result ≡ asked_of (view value.now) }
    ensures ranges { IfOk result IsArrivalInRange }
{
    let Some(members) = value.as_object() else {
        return Err(FaultKind::NotJson);
    };
    if !has_arrival_keys(members) {
        return Err(FaultKind::UnknownKey);
    }
    let hash = objects.flow_of(value).ok_or(FaultKind::BadFlow)?;
    let width = number_or(value, "width", 1, MAX_WIDTH, DEFAULT_WIDTH).ok_or(FaultKind::BadWidth)?;
    let cost = number_or(value, "cost", 1, MAX_COST, 1).ok_or(FaultKind::BadCost)?;
    let ask = Ask { width, hash };
    let cost = value.get("cost").map(|_given| cost);
    Ok(Arrival { ask, cost })
}

// The fault of an object's text that is no JSON, by the error of its reader.
fn not_json(alloc: Global, object: &str, error: &Error) -> LineFault
    ensures kind { result.kind ≢ FaultKind.NoMemory → result.kind ≡ FaultKind.NotJson }
    ensures found { IsFoundIn object.now result.kind result.found }
{
    match line_reason(alloc, object.as_bytes(), error) {
        Ok(why) => LineFault {
            kind: FaultKind::NotJson,
            found: Found::Column(error.column(), why),
        },
        Err(_) => LineFault::from(FaultKind::NoMemory),
    }
}

// The value of a text.
fn value_of(objects: &mut ObjectReader, object: &str) -> Result<Value, Error>
    ensures ok { IfOk result (λ value. read object.now ≡ Some (view value)) }
    ensures err { IfErr result (λ error. ¬ IsMemory error → read object.now ≡ None) }
    ensures kind { IfErr result (λ error. ¬ IsMemory error → IsOfText error) }
{
    match objects.flat(object) {
        Some(value) => Ok(value),
        None => Value::from_str(objects.alloc(), object),
    }
}

/// What the text of an object asks.
#[tactic(auto, unfolding(crate::specs::Objects::arrival_in))]
pub(crate) fn read_arrival(objects: &mut ObjectReader, object: &str) -> Result<Arrival, LineFault>
    ensures ok { IfOk result (λ arrival. arrival_in object.now ≡ Ok arrival) }
    ensures ranges { IfOk result IsArrivalInRange }
    ensures err { IfErr result (λ fault. fault.kind ≢ FaultKind.NoMemory → arrival_in object.now ≡ Err fault.kind) }
    ensures found { IfErr result (λ fault. IsFoundIn object.now fault.kind fault.found) }
{
    match value_of(objects, object) {
        Ok(value) => match asked(objects, &value) {
            Ok(arrival) => Ok(arrival),
            Err(kind) => Err(LineFault {
                kind,
                found: Found::Object(value),
            }),
        },
        Err(e) if e.is_memory() => Err(LineFault::from(FaultKind::NoMemory)),
        Err(e) => Err(not_json(objects.alloc(), object, &e)),
    }
}
