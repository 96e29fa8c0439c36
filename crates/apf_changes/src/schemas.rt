//! The schemas with a change.

ghost use Rattle.std.specs.Prelude.{◌≡◌, ◌≢◌, ◌<◌, IfSome, IfOk, IfErr, OnOk, Ok, Err, map, length, vec_len, string_bytes};
ghost use Rattle.apf_matching.specs.First.{place_from};
ghost use Rattle.apf_objects.specs.Cluster.{cluster_view};
ghost use Rattle.apf_objects.specs.Levels.{level_view};
ghost use Rattle.apf_objects.specs.Schemas.{schema_view};
ghost use Rattle.apf_changes.specs.Lists.{is_schema};
ghost use Rattle.apf_changes.specs.Schemas as spec;

use crate::amount::judged;
use crate::change::{Amount, SchemaChange};
use crate::fault::{Bounds, ChangeFault};
use crate::levels::level_place;
use crate::order::{in_order, insert};
use apf_objects::{Cluster, Distinguisher, Level, MAX_PRECEDENCE, Schema};
use std::alloc::{AllocError, Global};

/// The place of the schema of this name.
pub(crate) fn schema_place(schemas: &[Schema], name: &str) -> Option<usize>
    ensures value { result ≡ place_from (is_schema name.now) 0 (map schema_view schemas.now) }
    ensures within { IfSome result (λ i. i < length schemas.now) }
{
    for (i, schema) in schemas.iter().enumerate() {
        if schema.name.as_str() == name {
            return Some(i);
        }
    }
    None
}

/// Why a schema of this name is refused that is none of those whose level is there, where these dangle.
pub(crate) fn absent(dangling: &[Schema], name: &str) -> ChangeFault
    ensures { result ≡ spec.absent name.now (map schema_view dangling.now) }
{
    match schema_place(dangling, name) {
        Some(_) => ChangeFault::Dangling,
        None => ChangeFault::NoSchema,
    }
}

// The schemas with another precedence of the one of this name, in their order.
fn with_precedence(
    alloc: Global,
    mut schemas: Vec<Schema>,
    dangling: &[Schema],
    name: &str,
    amount: Amount,
) -> Result<Vec<Schema>, ChangeFault>
    ensures ok { IfOk result (λ after. spec.with_precedence amount name.now (map schema_view dangling.now) (map schema_view schemas.items)
        ≡ Ok (map schema_view after.items)) }
    ensures err { IfErr result (λ fault. fault ≢ ChangeFault.NoMemory
        → spec.with_precedence amount name.now (map schema_view dangling.now) (map schema_view schemas.items) ≡ Err fault) }
{
    let Some(place) = schema_place(schemas.as_slice(), name) else {
        return Err(absent(dangling, name));
    };
    let bounds = Bounds {
        low: 1,
        high: MAX_PRECEDENCE,
    };
    let precedence = judged(amount, Some(schemas[place].precedence), bounds)?;
    schemas[place].precedence = precedence;
    match in_order(alloc, schemas) {
        Ok(ordered) => Ok(ordered),
        Err(AllocError) => Err(ChangeFault::NoMemory),
    }
}

// The schemas with another distinguisher of the one of this name.
fn with_distinguisher(
    mut schemas: Vec<Schema>,
    dangling: &[Schema],
    name: &str,
    distinguisher: Distinguisher,
) -> Result<Vec<Schema>, ChangeFault>
    ensures ok { IfOk result (λ after. spec.with_distinguisher distinguisher name.now (map schema_view dangling.now) (map schema_view schemas.items)
        ≡ Ok (map schema_view after.items)) }
    ensures err { IfErr result (λ fault. spec.with_distinguisher distinguisher name.now (map schema_view dangling.now) (map schema_view schemas.items)
        ≡ Err fault) }
{
    let Some(place) = schema_place(schemas.as_slice(), name) else {
        return Err(absent(dangling, name));
    };
    schemas[place].distinguisher = distinguisher;
    Ok(schemas)
}

/// The cluster with a change of the schema of this name.
///
/// # Errors
///
/// `NoSchema` or `Dangling`, and then `OutOfBounds`. `NoMemory` only where memory was refused.
#[tactic(auto, unfolding(crate::specs::Schemas::with_schema_change))]
pub(crate) fn with_schema_change(
    alloc: Global,
    cluster: Cluster,
    name: &str,
    change: SchemaChange,
) -> Result<Cluster, ChangeFault>
    ensures ok { IfOk result (λ after. spec.with_schema_change change name.now (cluster_view cluster) ≡ Ok (cluster_view after)) }
    ensures err { IfErr result (λ fault. fault ≢ ChangeFault.NoMemory → spec.with_schema_change change name.now (cluster_view cluster) ≡ Err fault) }
    ensures few { IfOk result (λ after. vec_len after.levels ≡ vec_len cluster.levels) }
{
    let Cluster {
        levels,
        schemas,
        dangling,
    } = cluster;
    let schemas = match change {
        SchemaChange::Precedence(amount) => {
            with_precedence(alloc, schemas, dangling.as_slice(), name, amount)?
        }
        SchemaChange::By(distinguisher) => {
            with_distinguisher(schemas, dangling.as_slice(), name, distinguisher)?
        }
    };
    Ok(Cluster {
        levels,
        schemas,
        dangling,
    })
}

// A copy of the name of a level, which has to be there.
fn level_name(alloc: Global, levels: &[Level], name: &str) -> Result<String, ChangeFault>
    ensures ok { IfOk result (λ copy. spec.level_name name.now (map level_view levels.now) ≡ Ok (string_bytes copy)) }
    ensures err { IfErr result (λ fault. fault ≢ ChangeFault.NoMemory → spec.level_name name.now (map level_view levels.now) ≡ Err fault) }
{
    let Some(_) = level_place(levels, name) else {
        return Err(ChangeFault::NoLevel);
    };
    match String::from_str(alloc, name) {
        Ok(copy) => Ok(copy),
        Err(AllocError) => Err(ChangeFault::NoMemory),
    }
}

/// The cluster with another level of the schema of this name. One that dangled is put among the others.
///
/// # Errors
///
/// `NoSchema`, and then `NoLevel`. `NoMemory` only where memory was refused.
pub(crate) fn with_schema_level(
    alloc: Global,
    cluster: Cluster,
    name: &str,
    level: &str,
) -> Result<Cluster, ChangeFault>
    ensures ok { IfOk result (λ after. spec.with_schema_level name.now level.now (cluster_view cluster) ≡ Ok (cluster_view after)) }
    ensures err { IfErr result (λ fault. fault ≢ ChangeFault.NoMemory → spec.with_schema_level name.now level.now (cluster_view cluster) ≡ Err fault) }
    ensures few { IfOk result (λ after. vec_len after.levels ≡ vec_len cluster.levels) }
{
    let Cluster {
        levels,
        mut schemas,
        mut dangling,
    } = cluster;
    if let Some(place) = schema_place(schemas.as_slice(), name) {
        let level = level_name(alloc, levels.as_slice(), level)?;
        schemas[place].level = level;
        return Ok(Cluster {
            levels,
            schemas,
            dangling,
        });
    }
    let Some(place) = schema_place(dangling.as_slice(), name) else {
        return Err(ChangeFault::NoSchema);
    };
    let level = level_name(alloc, levels.as_slice(), level)?;
    let mut schema = dangling.remove(place);
    schema.level = level;
    if insert(&mut schemas, schema).is_err() {
        return Err(ChangeFault::NoMemory);
    }
    Ok(Cluster {
        levels,
        schemas,
        dangling,
    })
}
