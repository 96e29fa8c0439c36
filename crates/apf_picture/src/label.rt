//! What a row is called, and the schema that all flows share.

ghost use Rattle.std.specs.Prelude.{◌≡◌, ◌<◌, ◌≤◌, length, slice_get, slice_index, All, IfOk};
ghost use Rattle.std.specs.Str.{chars};
ghost use Rattle.apf_picture.specs.Labels.{called, called_by, has_schema as the_has_schema, all_have as the_all_have, names_in, shared_of, shown_schema};

use apf_traces::TraceRequest;
use std::alloc::{AllocError, Global};

/// What a row is called. Names are lists of characters.
#[derive(Drop)]
pub(crate) enum Label {
    /// The distinguisher of its flow, where all flows share their schema.
    Name(Vec<char>),
    /// The two names of its flow.
    Names {
        schema: Vec<char>,
        distinguisher: Vec<char>,
    },
    /// The hash of its flow.
    Hash(u64),
    /// This many flows that share the row.
    Others(u32),
}

// The characters of a text.
fn characters(alloc: Global, text: &str) -> Result<Vec<char>, AllocError>
    ensures { IfOk result (λ all. all.items ≡ chars text.now) }
{
    text.chars().collect(alloc)
}

/// The label of the flow whose first request this is.
pub(crate) fn flow_label(
    alloc: Global,
    first: &TraceRequest,
    is_shared: bool,
) -> Result<Label, AllocError>
    ensures { IfOk result (λ label. called label ≡ called_by is_shared first.now.names first.now.hash) }
{
    match &first.names {
        Some(names) => {
            let distinguisher = characters(alloc, names.distinguisher.as_str())?;
            if is_shared {
                return Ok(Label::Name(distinguisher));
            }
            let schema = characters(alloc, names.schema.as_str())?;
            Ok(Label::Names {
                schema,
                distinguisher,
            })
        }
        None => Ok(Label::Hash(first.hash)),
    }
}

// Whether a flow has names, of which this is the schema.
fn has_schema(first: &TraceRequest, schema: &str) -> bool
    ensures { result ≡ the_has_schema schema.now first.now.names }
{
    match &first.names {
        Some(names) => names.schema.as_str() == schema,
        None => false,
    }
}

// The same of the flow whose first request has this number.
fn has_at(trace: &[TraceRequest], first: u32, schema: &str) -> bool
    requires { first < length trace.now }
    ensures { result ≡ the_has_schema schema.now (names_in (slice_get trace.now first)) }
{
    has_schema(&trace[first as usize], schema)
}

// Whether all flows have this schema.
fn all_have(trace: &[TraceRequest], firsts: &[u32], schema: &str) -> bool
    requires { All (λ first. first < length trace.now) firsts.now }
    ensures { result ≡ the_all_have trace.now schema.now firsts.now }
{
    for first in firsts {
        if !has_at(trace, *first, schema) {
            return false;
        }
    }
    true
}

/// The schema of all flows, whose first requests these are, if they share one.
pub(crate) fn shared_schema(
    alloc: Global,
    trace: &[TraceRequest],
    firsts: &[u32],
) -> Result<Option<Vec<char>>, AllocError>
    requires { All (λ first. first < length trace.now) firsts.now }
    ensures { IfOk result (λ shared. shown_schema shared ≡ shared_of trace.now firsts.now) }
{
    let Some(first) = firsts.first() else {
        return Ok(None);
    };
    let Some(names) = &trace[*first as usize].names else {
        return Ok(None);
    };
    if !all_have(trace, firsts, names.schema.as_str()) {
        return Ok(None);
    }
    Ok(Some(characters(alloc, names.schema.as_str())?))
}
