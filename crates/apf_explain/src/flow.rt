//! What is wrong with the flow of a request.

ghost use Rattle.std.specs.Prelude.{◌≡◌, OnOk, IfSome, None, option_map, option_and_then, codes};
ghost use Rattle.std.specs.Io.KnownBytes.{Appends};
ghost use Rattle.serde_json.specs.Find.{get};
ghost use Rattle.serde_json.specs.View.{view};
ghost use Rattle.apf_explain.specs.FlowFaults.{flow_fault_of, unless_wanted};
ghost use Rattle.apf_explain.specs.Lines.{place_text, fault_in, flow_text, bad_flow_text};

use crate::json::{value_at, write_unwanted};
use crate::members::RequestKey;
use crate::place::Place;
use serde_json::Value;
use std::io;
use std::io::Write;

/// What is wrong with the flow of a request.
#[derive(Clone, Copy, Debug, PartialEq, Eq)]
pub(crate) enum FlowFault {
    /// None of the three keys is there.
    Missing,
    HashBesideSchema,
    HashBesideDistinguisher,
    HashBesideBoth,
    SchemaAlone,
    DistinguisherAlone,
    /// The value at this key is none that may stand there.
    BadValue(RequestKey),
}

// What is wrong with a hash that stands alone.
fn hash_fault(hash: &Value) -> Option<FlowFault>
    ensures { result ≡ unless_wanted RequestKey.Hash (view hash.now) None }
{
    match hash.as_u64() {
        Some(_) => None,
        None => Some(FlowFault::BadValue(RequestKey::Hash)),
    }
}

// What is wrong with a schema and a distinguisher that stand alone.
fn texts_fault(schema: &Value, distinguisher: &Value) -> Option<FlowFault>
    ensures { result ≡ unless_wanted RequestKey.Schema (view schema.now)
        (unless_wanted RequestKey.Distinguisher (view distinguisher.now) None) }
{
    if !schema.is_string() {
        return Some(FlowFault::BadValue(RequestKey::Schema));
    }
    if !distinguisher.is_string() {
        return Some(FlowFault::BadValue(RequestKey::Distinguisher));
    }
    None
}

/// What is wrong with the flow of a request, if something is.
pub(crate) fn flow_fault(value: &Value) -> Option<FlowFault>
    ensures { result ≡ flow_fault_of (get (codes "hash") (view value.now))
        (get (codes "schema") (view value.now)) (get (codes "distinguisher") (view value.now)) }
{
    match (
        value.get("hash"),
        value.get("schema"),
        value.get("distinguisher"),
    ) {
        (None, None, None) => Some(FlowFault::Missing),
        (Some(_), Some(_), Some(_)) => Some(FlowFault::HashBesideBoth),
        (Some(_), Some(_), None) => Some(FlowFault::HashBesideSchema),
        (Some(_), None, Some(_)) => Some(FlowFault::HashBesideDistinguisher),
        (None, Some(_), None) => Some(FlowFault::SchemaAlone),
        (None, None, Some(_)) => Some(FlowFault::DistinguisherAlone),
        (Some(hash), None, None) => hash_fault(hash),
        (None, Some(schema), Some(distinguisher)) => texts_fault(schema, distinguisher),
    }
}

const RULE: &str = "a flow is either hash alone, or both schema and distinguisher";

// What is wrong with the flow of a request, if it is there.
fn fault_of(value: Option<&Value>) -> Option<FlowFault>
    ensures { result ≡ option_and_then fault_in (option_map (λ value. view value.now) value.entry) }
{
    flow_fault(value?)
}

// Writes that this is wrong with the flow of a request.
fn write_fault<W: Write>(
    out: &mut W,
    place: Place<'_>,
    value: Option<&Value>,
    fault: Option<FlowFault>,
) -> io::Result<()>
    ensures { OnOk result (IfSome (flow_text (place_text place.entry.name.now place.entry.part) (option_map (λ value. view value.now) value.entry) fault)
        (Appends (W.contents out.old) (W.contents out.new))) }
{
    match fault {
        Some(FlowFault::BadValue(key)) => {
            let found = value_at(value, key.name());
            write_unwanted(out, place, key.name(), found, key.wanted(0))
        }
        Some(FlowFault::Missing) => writeln!(
            out,
            "{place}the flow is missing: it is either hash alone, or both schema and distinguisher"
        ),
        Some(FlowFault::HashBesideSchema) => writeln!(
            out,
            "{place}hash stands beside schema: {RULE}"
        ),
        Some(FlowFault::HashBesideDistinguisher) => {
            writeln!(out, "{place}hash stands beside distinguisher: {RULE}")
        }
        Some(FlowFault::HashBesideBoth) => {
            writeln!(
                out,
                "{place}hash stands beside schema and distinguisher: {RULE}"
            )
        }
        Some(FlowFault::SchemaAlone) => {
            writeln!(out, "{place}schema stands without distinguisher: {RULE}")
        }
        Some(FlowFault::DistinguisherAlone) => {
            writeln!(out, "{place}distinguisher stands without schema: {RULE}")
        }
        None => writeln!(out, "{place}the flow is bad: {RULE}"),
    }
}

/// Writes what is wrong with the flow of a request.
pub fn write_bad_flow<W: Write>(
    out: &mut W,
    place: Place<'_>,
    value: Option<&Value>,
) -> io::Result<()>
    ensures { OnOk result (IfSome (bad_flow_text (place_text place.entry.name.now place.entry.part) (option_map (λ value. view value.now) value.entry))
        (Appends (W.contents out.old) (W.contents out.new))) }
{
    write_fault(out, place, value, fault_of(value))
}
