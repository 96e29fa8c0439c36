//! The levels of a cluster, and its schemas in their order.

ghost use Rattle.std.specs.Prelude.{◌≡◌, ◌≢◌, ◌≤◌, ◌+◌, IfOk, IfErr, OnOk, Ok, Err, true, map, vec_len, codes};
ghost use Rattle.serde_json.specs.View.{view, items_view};
ghost use Rattle.apf_files.specs.JsonFile.{judged, value_in};
ghost use Rattle.apf_objects.specs.Cluster as spec;
ghost use Rattle.apf_objects.specs.Levels.{level_view};
ghost use Rattle.apf_objects.specs.Objects.{objects_view, max_levels, has_schema as has_schema_named};
ghost use Rattle.apf_objects.specs.Schemas.{schema_view};

use crate::fault::ObjectFault;
use crate::key::ObjectKey;
use crate::level::{Level, Version};
use crate::objects::{
    ObjectKind, Objects, Usual, has_level, has_schema, kind_named, objects_of, one_object,
    version_seen,
};
use crate::order::insert;
use crate::own::{catch_all_level, catch_all_schema, exempt_level, exempt_schema};
use crate::schema::Schema;
use crate::value::at;
use apf_files::{Parsed, parse};
use serde_json::Value;
use std::alloc::{AllocError, Global};

/// The levels of a cluster, and its schemas in their order.
#[derive(Debug, PartialEq, Eq, Drop)]
pub struct Cluster {
    /// The levels of the text in the order of its items, with the server's own behind them where they lacked.
    pub levels: Vec<Level>,
    /// The schemas whose level is there, with the server's own: less precedence first, and of one precedence by name.
    pub schemas: Vec<Schema>,
    /// The schemas whose level is not there, in the order of the text's items.
    pub dangling: Vec<Schema>,
}

// Puts a level behind the others, if none has its name.
fn add_lacking_level(levels: &mut Vec<Level>, level: Level) -> Result<(), AllocError>
    ensures value { OnOk result (map level_view levels.new.items ≡ spec.with_lacking_level (level_view level) (map level_view levels.old.items)) }
    ensures few { OnOk result (vec_len levels.new ≤ vec_len levels.old + 1) }
{
    if !has_level(levels.as_slice(), level.name.as_str()) {
        levels.push(level)?;
    }
    Ok(())
}

// Puts a schema where it belongs, if none has its name.
fn add_lacking_schema(schemas: &mut Vec<Schema>, schema: Schema) -> Result<(), AllocError>
    ensures { OnOk result (map schema_view schemas.new.items ≡ spec.with_lacking_schema (schema_view schema) (map schema_view schemas.old.items)) }
{
    if !has_schema(schemas.as_slice(), schema.name.as_str()) {
        insert(schemas, schema)?;
    }
    Ok(())
}

// The levels, with the server's own where they lack.
#[tactic(auto, unfolding(crate::specs::Cluster::with_own_levels))]
fn add_own_levels(alloc: Global, levels: &mut Vec<Level>) -> Result<(), AllocError>
    ensures value { OnOk result (map level_view levels.new.items ≡ spec.with_own_levels (map level_view levels.old.items)) }
    ensures few { OnOk result (vec_len levels.new ≤ vec_len levels.old + 2) }
{
    add_lacking_level(levels, exempt_level(alloc)?)?;
    add_lacking_level(levels, catch_all_level(alloc)?)
}

// The schemas, with the server's own where they lack.
#[tactic(auto, using(crate::proofs::CatchAll::catch_all), unfolding(crate::specs::Cluster::with_own_schemas))]
fn add_own_schemas(alloc: Global, schemas: &mut Vec<Schema>) -> Result<(), AllocError>
    ensures value { OnOk result (map schema_view schemas.new.items ≡ spec.with_own_schemas (map schema_view schemas.old.items)) }
    ensures catch_all { OnOk result (has_schema_named (map schema_view schemas.new.items) (codes "catch-all") ≡ true) }
{
    add_lacking_schema(schemas, exempt_schema(alloc)?)?;
    add_lacking_schema(schemas, catch_all_schema(alloc)?)
}

// The schemas whose level is there, in their order, and then those whose level is not.
fn split(
    alloc: Global,
    levels: &[Level],
    all: Vec<Schema>,
) -> Result<(Vec<Schema>, Vec<Schema>), AllocError>
    ensures schemas { IfOk result (λ both. map schema_view both.0.items
        ≡ spec.placed (map level_view levels.now) (map schema_view all.items)) }
    ensures dangling { IfOk result (λ both. map schema_view both.1.items
        ≡ spec.dangling (map level_view levels.now) (map schema_view all.items)) }
{
    let mut schemas = Vec::new(alloc);
    let mut dangling = Vec::new(alloc);
    let mut rest = all.into_iter();
    while let Some(schema) = rest.next() {
        if has_level(levels, schema.level.as_str()) {
            insert(&mut schemas, schema)?;
        } else {
            dangling.push(schema)?;
        }
    }
    Ok((schemas, dangling))
}

// The cluster of these objects.
#[tactic(auto, unfolding(crate::specs::Cluster::cluster_of))]
fn cluster_of(alloc: Global, objects: Objects) -> Result<Cluster, AllocError>
    requires few { vec_len objects.levels ≤ max_levels }
    ensures few { IfOk result (λ cluster. vec_len cluster.levels ≤ spec.most_levels) }
    ensures value { IfOk result (λ cluster. spec.cluster_view cluster ≡ spec.cluster_of (objects_view objects)) }
    ensures catch_all { IfOk result spec.HasCatchAll }
{
    let mut levels = objects.levels;
    add_own_levels(alloc, &mut levels)?;
    let (mut schemas, dangling) = split(alloc, levels.as_slice(), objects.schemas)?;
    add_own_schemas(alloc, &mut schemas)?;
    Ok(Cluster {
        levels,
        schemas,
        dangling,
    })
}

// What the items of a list of this kind are where they do not say it; none where no list is of this kind.
fn usual_of(kind: &str, version: Option<Version>) -> Option<Usual>
    ensures { result ≡ spec.usual_of kind.now version }
{
    if kind == "List" {
        Some(Usual {
            kind: None,
            version: None,
        })
    } else if kind == "FlowSchemaList" {
        Some(Usual {
            kind: Some(ObjectKind::Schema),
            version,
        })
    } else if kind == "PriorityLevelConfigurationList" {
        Some(Usual {
            kind: Some(ObjectKind::Level),
            version,
        })
    } else {
        None
    }
}

// The items of a list.
#[tactic(auto, unfolding(crate::specs::Cluster::items_of_list))]
fn items_of_list(list: &Value) -> Result<&[Value], ObjectFault>
    ensures ok { IfOk result (λ items. spec.items_of_list (view list.now) ≡ Ok (items_view items.now)) }
    ensures err { IfErr result (λ fault. spec.items_of_list (view list.now) ≡ Err fault) }
{
    let Some(items) = at(Some(list), ObjectKey::Items) else {
        return Err(ObjectFault::BadItems);
    };
    match items.as_array() {
        Some(items) => Ok(items.as_slice()),
        None => Err(ObjectFault::BadItems),
    }
}

// The objects of a value of this kind: those of a list, or the one object.
#[tactic(auto, unfolding(crate::specs::Cluster::objects_of_kind))]
fn objects_of_kind(alloc: Global, kind: &str, value: &Value) -> Result<Objects, ObjectFault>
    ensures few { IfOk result (λ objects. vec_len objects.levels ≤ max_levels) }
    ensures ok { IfOk result (λ objects. spec.objects_of_kind kind.now (view value.now) ≡ Ok (objects_view objects)) }
    ensures err { IfErr result (λ fault. fault ≢ ObjectFault.NoMemory → spec.objects_of_kind kind.now (view value.now) ≡ Err fault) }
{
    if let Some(usual) = usual_of(kind, version_seen(value)) {
        return objects_of(alloc, items_of_list(value)?, usual);
    }
    if kind_named(kind).is_none() {
        return Err(ObjectFault::NoObjects);
    }
    one_object(alloc, value)
}

// The kind that a text is of.
#[tactic(auto, unfolding(crate::specs::Cluster::kind_of_text))]
fn kind_of_text(value: &Value) -> Result<&str, ObjectFault>
    ensures ok { IfOk result (λ kind. spec.kind_of_text (view value.now) ≡ Ok kind.now) }
    ensures err { IfErr result (λ fault. spec.kind_of_text (view value.now) ≡ Err fault) }
{
    let Some(kind) = at(Some(value), ObjectKey::Kind) else {
        return Err(ObjectFault::NoObjects);
    };
    kind.as_str().ok_or(ObjectFault::NoObjects)
}

// The cluster that a value says.
#[tactic(auto, unfolding(crate::specs::Cluster::cluster_in))]
fn cluster_in(alloc: Global, value: &Value) -> Result<Cluster, ObjectFault>
    ensures ok { IfOk result (λ cluster. spec.cluster_in (view value.now) ≡ Ok (spec.cluster_view cluster)) }
    ensures catch_all { IfOk result spec.HasCatchAll }
    ensures few { IfOk result (λ cluster. vec_len cluster.levels ≤ spec.most_levels) }
    ensures err { IfErr result (λ fault. fault ≢ ObjectFault.NoMemory → spec.cluster_in (view value.now) ≡ Err fault) }
{
    let kind = kind_of_text(value)?;
    let objects = objects_of_kind(alloc, kind, value)?;
    match cluster_of(alloc, objects) {
        Ok(cluster) => Ok(cluster),
        Err(AllocError) => Err(ObjectFault::NoMemory),
    }
}

/// The FlowSchemas and PriorityLevelConfigurations of a cluster, of a text that was parsed as this: one JSON text in UTF-8, as
/// `kubectl get flowschemas,prioritylevelconfigurations -o json` prints it. It is a `List`, a `FlowSchemaList` or a
/// `PriorityLevelConfigurationList` of at most 1,000 objects, 64 of them levels, or one object. The objects are of
/// `flowcontrol.apiserver.k8s.io/v1`, `v1beta3` or `v1beta2`. In the two lists of one kind an item may leave out its
/// `kind` and its `apiVersion`, and then has its list's.
///
/// Keys that are not of `ObjectKey` are passed over. Numbers are whole numbers, without fraction or exponent. Of a
/// repeated key the last value counts.
///
/// The server's own levels and schemas `exempt` and `catch-all` are added where they lack. A schema whose level is not
/// there is dangling. A schema that dangles does not count as the server's own.
///
/// # Errors
///
/// `NotJson`, `NoObjects`, `BadItems` and `TooMany` come first. Then the items are judged in their order, each by the
/// keys in the order of `ObjectKey`; the first fault is answered. `NoMemory` only where memory was refused.
pub fn judge_objects(alloc: Global, parsed: &Parsed) -> Result<Cluster, ObjectFault>
    ensures ok { IfOk result (λ cluster. judged ObjectFault.NotJson spec.cluster_in (value_in parsed.now) ≡ Ok (spec.cluster_view cluster)) }
    ensures catch_all { IfOk result spec.HasCatchAll }
    ensures few { IfOk result (λ cluster. vec_len cluster.levels ≤ spec.most_levels) }
    ensures err { IfErr result (λ fault. fault ≢ ObjectFault.NoMemory
        → judged ObjectFault.NotJson spec.cluster_in (value_in parsed.now) ≡ Err fault) }
{
    match parsed {
        Parsed::Value(value) => cluster_in(alloc, value),
        Parsed::Stopped(_) => Err(ObjectFault::NotJson),
    }
}

/// Reads the objects of a cluster: parses the text, and judges what it was parsed as.
///
/// # Errors
///
/// As for `judge_objects`. `NoMemory` only where memory was refused.
pub fn read_objects(alloc: Global, bytes: &[u8]) -> Result<Cluster, ObjectFault>
    ensures ok { IfOk result (λ cluster. spec.IsClusterOf bytes.now (Ok (spec.cluster_view cluster))) }
    ensures catch_all { IfOk result spec.HasCatchAll }
    ensures few { IfOk result (λ cluster. vec_len cluster.levels ≤ spec.most_levels) }
    ensures err { IfErr result (λ fault. fault ≢ ObjectFault.NoMemory → spec.IsClusterOf bytes.now (Err fault)) }
{
    match parse(alloc, bytes) {
        Ok(parsed) => judge_objects(alloc, &parsed),
        Err(AllocError) => Err(ObjectFault::NoMemory),
    }
}
