//! The objects of a text, in the order of their items.

ghost use Rattle.std.specs.Prelude.{◌≡◌, ◌≢◌, ◌≤◌, IfOk, IfErr, OnOk, OnErr, Ok, Err, map, vec_len};
ghost use Rattle.serde_json.specs.View.{view, items_view};
ghost use Rattle.apf_objects.specs.Levels.{level_view, AreSettingsInRange};
ghost use Rattle.apf_objects.specs.Objects as spec;
ghost use Rattle.apf_objects.specs.Schemas.{schema_view};
ghost use Rattle.apf_objects.specs.Values.{seen};

use crate::fault::{ObjectFault, Place};
use crate::key::ObjectKey;
use crate::level::{Level, Version, level_of};
use crate::schema::{Schema, schema_of};
use crate::value::at;
use serde_json::Value;
use std::alloc::Global;

/// The most objects of a list.
pub const MAX_OBJECTS: usize = 1_000;

/// The most levels of a text.
pub const MAX_LEVELS: usize = 64;

/// The kinds of object that are read.
#[derive(Clone, Copy, Debug, PartialEq, Eq)]
pub enum ObjectKind {
    Level,
    Schema,
}

/// What an item is that does not say it itself, by its list.
#[derive(Clone, Copy)]
pub(crate) struct Usual {
    pub kind: Option<ObjectKind>,
    pub version: Option<Version>,
}

/// The levels and schemas of a text.
#[derive(Debug, PartialEq, Eq, Drop)]
pub(crate) struct Objects {
    pub levels: Vec<Level>,
    pub schemas: Vec<Schema>,
}

/// The kind of this name.
pub(crate) fn kind_named(name: &str) -> Option<ObjectKind>
    ensures { result ≡ spec.kind_named name.now }
{
    if name == "PriorityLevelConfiguration" {
        Some(ObjectKind::Level)
    } else if name == "FlowSchema" {
        Some(ObjectKind::Schema)
    } else {
        None
    }
}

// The version of this name.
fn version_named(name: &str) -> Option<Version>
    ensures { result ≡ spec.version_named name.now }
{
    if name == "flowcontrol.apiserver.k8s.io/v1" {
        Some(Version::V1)
    } else if name == "flowcontrol.apiserver.k8s.io/v1beta3" {
        Some(Version::V1beta3)
    } else if name == "flowcontrol.apiserver.k8s.io/v1beta2" {
        Some(Version::V1beta2)
    } else {
        None
    }
}

// The kind of an item.
#[tactic(auto, unfolding(crate::specs::Objects::kind_at))]
fn kind_at(item: &Value, place: Place, usual: Usual) -> Result<ObjectKind, ObjectFault>
    ensures { result ≡ spec.kind_at place usual.kind (view item.now) }
{
    let key = ObjectKey::Kind;
    let Some(kind) = at(Some(item), key) else {
        return usual.kind.ok_or(ObjectFault::Missing(place, key));
    };
    let Some(name) = kind.as_str() else {
        return Err(ObjectFault::BadValue(place, key));
    };
    kind_named(name).ok_or(ObjectFault::BadValue(place, key))
}

/// The version that stands at a value's `apiVersion`, if one does.
#[tactic(auto, unfolding(crate::specs::Objects::version_seen))]
pub(crate) fn version_seen(value: &Value) -> Option<Version>
    ensures { result ≡ spec.version_seen (view value.now) }
{
    version_named(at(Some(value), ObjectKey::ApiVersion)?.as_str()?)
}

// The version of an item.
#[tactic(auto, unfolding(crate::specs::Objects::version_at))]
fn version_at(item: &Value, place: Place, usual: Usual) -> Result<Version, ObjectFault>
    ensures { result ≡ spec.version_at place usual.version (view item.now) }
{
    let key = ObjectKey::ApiVersion;
    if at(Some(item), key).is_none() {
        return usual.version.ok_or(ObjectFault::Missing(place, key));
    }
    version_seen(item).ok_or(ObjectFault::BadValue(place, key))
}

/// Whether one of the levels has this name.
pub(crate) fn has_level(levels: &[Level], name: &str) -> bool
    ensures { result ≡ spec.has_level (map level_view levels.now) name.now }
{
    for level in levels {
        if level.name.as_str() == name {
            return true;
        }
    }
    false
}

/// Whether one of the schemas has this name.
pub(crate) fn has_schema(schemas: &[Schema], name: &str) -> bool
    ensures { result ≡ spec.has_schema (map schema_view schemas.now) name.now }
{
    for schema in schemas {
        if schema.name.as_str() == name {
            return true;
        }
    }
    false
}

// Puts a level behind the others.
fn add_level(levels: &mut Vec<Level>, level: Level, place: Place) -> Result<(), ObjectFault>
    ensures ok { OnOk result (spec.with_level place (map level_view levels.old.items) (level_view level) ≡ Ok (map level_view levels.new.items)) }
    ensures err { IfErr result (λ fault. fault ≢ ObjectFault.NoMemory
        → spec.with_level place (map level_view levels.old.items) (level_view level) ≡ Err fault) }
    ensures few { OnOk result (vec_len levels.new ≤ spec.max_levels) }
{
    if has_level(levels.as_slice(), level.name.as_str()) {
        return Err(ObjectFault::Repeated(place));
    }
    if levels.len() >= MAX_LEVELS {
        return Err(ObjectFault::TooManyLevels(place));
    }
    if levels.push(level).is_err() {
        return Err(ObjectFault::NoMemory);
    }
    Ok(())
}

// Puts a schema behind the others.
fn add_schema(schemas: &mut Vec<Schema>, schema: Schema, place: Place) -> Result<(), ObjectFault>
    ensures ok { OnOk result (spec.with_schema place (map schema_view schemas.old.items) (schema_view schema) ≡ Ok (map schema_view schemas.new.items)) }
    ensures err { IfErr result (λ fault. fault ≢ ObjectFault.NoMemory
        → spec.with_schema place (map schema_view schemas.old.items) (schema_view schema) ≡ Err fault) }
{
    if has_schema(schemas.as_slice(), schema.name.as_str()) {
        return Err(ObjectFault::Repeated(place));
    }
    if schemas.push(schema).is_err() {
        return Err(ObjectFault::NoMemory);
    }
    Ok(())
}

// Puts the object that an item is behind the others.
#[tactic(auto, unfolding(crate::specs::Objects::with_item))]
fn add_item(
    alloc: Global,
    objects: &mut Objects,
    item: &Value,
    place: Place,
    usual: Usual,
) -> Result<(), ObjectFault>
    requires few { vec_len objects.old.levels ≤ spec.max_levels }
    ensures few { OnOk result (vec_len objects.new.levels ≤ spec.max_levels) }
    ensures ok { OnOk result (spec.with_item usual place (spec.objects_view objects.old) (view item.now) ≡ Ok (spec.objects_view objects.new)) }
    ensures err { IfErr result (λ fault. fault ≢ ObjectFault.NoMemory
        → spec.with_item usual place (spec.objects_view objects.old) (view item.now) ≡ Err fault) }
{
    if item.as_object().is_none() {
        return Err(ObjectFault::NotObject(place));
    }
    let kind = kind_at(item, place, usual)?;
    let version = version_at(item, place, usual)?;
    match kind {
        ObjectKind::Level => {
            let level = level_of(alloc, item, place, version)?;
            add_level(&mut objects.levels, level, place)
        }
        ObjectKind::Schema => {
            let schema = schema_of(alloc, item, place)?;
            add_schema(&mut objects.schemas, schema, place)
        }
    }
}

// The objects that these items are, however many.
fn all_objects(alloc: Global, items: &[Value], usual: Usual) -> Result<Objects, ObjectFault>
    ensures few { IfOk result (λ objects. vec_len objects.levels ≤ spec.max_levels) }
    ensures ok { IfOk result (λ objects. spec.objects_from usual 0 spec.no_objects (items_view items.now) ≡ Ok (spec.objects_view objects)) }
    ensures err { IfErr result (λ fault. fault ≢ ObjectFault.NoMemory
        → spec.objects_from usual 0 spec.no_objects (items_view items.now) ≡ Err fault) }
{
    let mut objects = Objects {
        levels: Vec::new(alloc),
        schemas: Vec::new(alloc),
    };
    for (i, item) in items.iter().enumerate() {
        let place = Place {
            object: i,
            rule: 0,
            member: 0,
        };
        add_item(alloc, &mut objects, item, place, usual)?;
    }
    Ok(objects)
}

/// The objects that these items are.
#[tactic(auto, using(crate::proofs::Counts::few, crate::proofs::Counts::many))]
pub(crate) fn objects_of(
    alloc: Global,
    items: &[Value],
    usual: Usual,
) -> Result<Objects, ObjectFault>
    ensures few { IfOk result (λ objects. vec_len objects.levels ≤ spec.max_levels) }
    ensures ok { IfOk result (λ objects. spec.objects_of usual (items_view items.now) ≡ Ok (spec.objects_view objects)) }
    ensures err { IfErr result (λ fault. fault ≢ ObjectFault.NoMemory → spec.objects_of usual (items_view items.now) ≡ Err fault) }
{
    if items.len() > MAX_OBJECTS {
        return Err(ObjectFault::TooMany);
    }
    all_objects(alloc, items, usual)
}

/// The one object that a value is.
pub(crate) fn one_object(alloc: Global, value: &Value) -> Result<Objects, ObjectFault>
    ensures few { IfOk result (λ objects. vec_len objects.levels ≤ spec.max_levels) }
    ensures ok { IfOk result (λ objects. spec.one_object (view value.now) ≡ Ok (spec.objects_view objects)) }
    ensures err { IfErr result (λ fault. fault ≢ ObjectFault.NoMemory → spec.one_object (view value.now) ≡ Err fault) }
{
    let mut objects = Objects {
        levels: Vec::new(alloc),
        schemas: Vec::new(alloc),
    };
    let usual = Usual {
        kind: None,
        version: None,
    };
    let place = Place {
        object: 0,
        rule: 0,
        member: 0,
    };
    add_item(alloc, &mut objects, value, place, usual)?;
    Ok(objects)
}
