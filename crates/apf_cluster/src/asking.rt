//! The request of an event, and the level that it is of.

ghost use Rattle.std.specs.Prelude.{◌≡◌, ◌<◌, ◌≤◌, IfOk, IfSome, map, length, option_map, slice_get};
ghost use Rattle.apf_audit.specs.AuditEvent.{event};
ghost use Rattle.apf_objects.specs.Levels.{level_view};
ghost use Rattle.apf_objects.specs.Schemas.{schema_view};
ghost use Rattle.apf_times.specs.Limits.{max_arrival, max_run};
ghost use Rattle.apf_traces.specs.TraceValue.{IsRequestInRange};
ghost use Rattle.apf_words.specs.Limits.{max_width};
ghost use Rattle.apf_cluster_tables.specs.Sides.{level_named as named};
ghost use Rattle.apf_cluster.specs.Requests as spec;

use apf_audit::Taken;
use apf_cluster_tables::level_named;
use apf_flow::flow_hash;
use apf_objects::{Cluster, Schema};
use apf_times::{Arrival, Place};
use apf_traces::{FlowNames, TraceRequest};
use std::alloc::{AllocError, Global};

/// The request of an event of the schema of this name, which arrives at this time: as wide as was taken of the event.
pub(crate) fn request_of(
    alloc: Global,
    schema: &str,
    taken: &Taken,
    at: u64,
) -> Result<Arrival<TraceRequest>, AllocError>
    requires time { at ≤ max_arrival }
    requires run { taken.now.runs_for ≤ max_run }
    requires width { (1 ≤ taken.now.width) × (taken.now.width ≤ max_width) }
    ensures is { IfOk result (λ came. spec.said came ≡ spec.asked_for schema.now at (event taken.now)) }
    ensures range { IfOk result (λ came. IsRequestInRange came.item) }
    ensures time { IfOk result (λ came. came.item.arrives_at ≡ at) }
{
    let distinguisher = taken.distinguisher.as_str();
    let hash = flow_hash(schema, distinguisher);
    let names = FlowNames {
        schema: String::from_str(alloc, schema)?,
        distinguisher: String::from_str(alloc, distinguisher)?,
    };
    let item = TraceRequest {
        arrives_at: at,
        runs_for: taken.runs_for,
        hash,
        names: Some(names),
        width: taken.width,
        cost: None,
    };
    let place = Place {
        arrives_at: at,
        line: taken.line,
    };
    Ok(Arrival { place, item })
}

/// The schema at this place of a cluster, if there is one.
pub(crate) fn schema_at(schemas: &[Schema], place: Option<usize>) -> Option<&Schema>
    ensures { option_map (λ schema. schema_view schema.now) result ≡ spec.schema_at (map schema_view schemas.now) place }
{
    schemas.get(place?)
}

/// The place of the level of a schema.
pub(crate) fn level_of(cluster: &Cluster, schema: &Schema) -> Option<usize>
    ensures value { result ≡ named (schema_view schema.now).level (map level_view cluster.now.levels.items) }
    ensures within { IfSome result (λ i. i < length cluster.now.levels.items) }
{
    level_named(cluster.levels.as_slice(), schema.level.as_str())
}
