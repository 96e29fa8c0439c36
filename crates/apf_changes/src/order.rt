//! The order of schemas.

ghost use Rattle.std.specs.Prelude.{◌≡◌, ◌≤◌, IfOk, OnOk, length, map};
ghost use Rattle.apf_objects.specs.Order as spec;
ghost use Rattle.apf_objects.specs.Schemas.{schema_view};

use apf_objects::Schema;
use std::alloc::{AllocError, Global};

// Whether the one schema comes before the other.
fn comes_before(one: &Schema, other: &Schema) -> bool
    ensures { result ≡ spec.comes_before (schema_view one.now) (schema_view other.now) }
{
    one.precedence < other.precedence
        || (one.precedence == other.precedence && one.name.as_str() < other.name.as_str())
}

// The place of the first of the schemas that this one comes before.
fn place_for(schemas: &[Schema], schema: &Schema) -> usize
    ensures place { result ≡ spec.place_for (schema_view schema.now) (map schema_view schemas.now) }
    ensures within { result ≤ length schemas.now }
{
    for (i, other) in schemas.iter().enumerate() {
        if comes_before(schema, other) {
            return i;
        }
    }
    schemas.len()
}

/// Puts a schema before the first that it comes before.
///
/// # Errors
///
/// Only where memory was refused.
pub(crate) fn insert(schemas: &mut Vec<Schema>, schema: Schema) -> Result<(), AllocError>
    ensures { OnOk result (map schema_view schemas.new.items ≡ spec.insert (schema_view schema) (map schema_view schemas.old.items)) }
{
    let place = place_for(schemas.as_slice(), &schema);
    schemas.insert(place, schema)?;
    Ok(())
}

/// The schemas in their order.
pub(crate) fn in_order(alloc: Global, schemas: Vec<Schema>) -> Result<Vec<Schema>, AllocError>
    ensures { IfOk result (λ ordered. map schema_view ordered.items ≡ spec.in_order (map schema_view schemas.items)) }
{
    let mut ordered = Vec::new(alloc);
    let mut rest = schemas.into_iter();
    while let Some(schema) = rest.next() {
        insert(&mut ordered, schema)?;
    }
    Ok(ordered)
}
