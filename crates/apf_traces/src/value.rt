//! The request that a JSON value is.

ghost use Rattle.std.specs.Prelude.{◌≡◌, ◌≢◌, ◌≤◌, IfOk, IfErr, IfSome, Ok, Err, option_map};
ghost use Rattle.serde_json.specs.View.{view, members_view};
ghost use Rattle.apf_files.specs.JsonFile.{all_known};
ghost use Rattle.apf_traces.specs.TraceValue.{is_key, number_at as number_at_key, names_of as names_of_value, entry_of, entry, texts, IsRequestInRange, IsNamed};

use crate::fault::TraceFault;
use crate::newest::Newest;
use crate::request::{FlowNames, TraceRequest};
use apf_files::{every_key_is_a_member, number_or, text_at};
use apf_times::{MOST_ARRIVES_AT, MOST_RUNS_FOR};
use apf_words::{MAX_COST, MAX_WIDTH};
use serde_json::{Map, Value};
use std::alloc::{AllocError, Global};

const DEFAULT_WIDTH: u32 = 1;

/// Whether the name is that of a key of a trace's requests.
#[tactic(auto, unfolding(crate::specs::TraceValue::is_key))]
pub fn is_trace_key(name: &str) -> bool
    ensures { result ≡ is_key name.now }
{
    name == "arrivesAt"
        || name == "runsFor"
        || name == "schema"
        || name == "distinguisher"
        || name == "hash"
        || name == "width"
        || name == "cost"
}

fn has_trace_keys(members: &Map<String, Value>) -> bool
    ensures { result ≡ all_known is_key (members_view members.now.entries) }
{
    every_key_is_a_member();
    members.keys().all(|name| is_trace_key(name.as_str()))
}

// The whole number from 0 to `high` at `key`, which has to be there.
#[tactic(auto, unfolding(crate::specs::TraceValue::number_at))]
fn number_at(value: &Value, key: &str, high: u64) -> Option<u64>
    ensures value { result ≡ number_at_key key.now high (view value.now) }
    ensures within { IfSome result (λ n. n ≤ high) }
{
    match value.get(key)?.as_u64() {
        Some(n) if n <= high => Some(n),
        _ => None,
    }
}

// The names of the flow, where both are texts.
fn names_of(alloc: Global, value: &Value) -> Result<Option<FlowNames>, AllocError>
    ensures { IfOk result (λ names. option_map texts names ≡ names_of_value (view value.now)) }
{
    match (text_at(value, "schema"), text_at(value, "distinguisher")) {
        (Some(schema), Some(distinguisher)) => Ok(Some(FlowNames {
            schema: String::from_str(alloc, schema)?,
            distinguisher: String::from_str(alloc, distinguisher)?,
        })),
        _ => Ok(None),
    }
}

/// The request that the value of line `line` is.
#[tactic(auto, unfolding(crate::specs::TraceValue::entry_of))]
pub(crate) fn request_of_value(
    alloc: Global,
    newest: &mut Newest,
    value: &Value,
    line: u64,
) -> Result<TraceRequest, TraceFault>
    ensures ok { IfOk result (λ request. entry_of line (view value.now) ≡ Ok (entry request)) }
    ensures ranges { IfOk result IsRequestInRange }
    ensures named { IfOk result IsNamed }
    ensures err { IfErr result (λ fault. fault ≢ TraceFault.NoMemory
        → entry_of line (view value.now) ≡ Err fault) }
{
    let Some(members) = value.as_object() else {
        return Err(TraceFault::NotObject(line));
    };
    if !has_trace_keys(members) {
        return Err(TraceFault::UnknownKey(line));
    }
    let arrives_at = number_at(value, "arrivesAt", MOST_ARRIVES_AT).ok_or(TraceFault::BadArrival(
        line,
    ))?;
    let runs_for = number_at(value, "runsFor", MOST_RUNS_FOR).ok_or(TraceFault::BadRun(line))?;
    let hash = newest.flow_of(value).ok_or(TraceFault::BadFlow(line))?;
    let width = number_or(value, "width", 1, MAX_WIDTH, DEFAULT_WIDTH).ok_or(TraceFault::BadWidth(
        line,
    ))?;
    let cost = number_or(value, "cost", 1, MAX_COST, 1).ok_or(TraceFault::BadCost(line))?;
    let cost = value.get("cost").map(|_given| cost);
    let Ok(names) = names_of(alloc, value) else {
        return Err(TraceFault::NoMemory);
    };
    Ok(TraceRequest {
        arrives_at,
        runs_for,
        hash,
        names,
        width,
        cost,
    })
}
