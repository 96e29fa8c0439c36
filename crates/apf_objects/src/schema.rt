//! A FlowSchema.

ghost use Rattle.std.specs.Prelude.{◌≡◌, ◌≢◌, ◌≤◌, IfOk, IfErr, Some, Ok, Err};
ghost use Rattle.serde_json.specs.View.{view};
ghost use Rattle.apf_objects.specs.Schemas as spec;
ghost use Rattle.apf_objects.specs.Values.{seen};

use crate::fault::{ObjectFault, Place};
use crate::key::ObjectKey;
use crate::level::name_of;
use crate::rule::{Rule, rules_at};
use crate::value::{number_at, owned, part_at, text_at};
use serde_json::Value;
use std::alloc::Global;

/// The largest precedence of a schema.
pub const MAX_PRECEDENCE: u32 = 10_000;

/// What makes a flow within a schema.
#[derive(Clone, Copy, Debug, PartialEq, Eq)]
pub enum Distinguisher {
    /// All requests of the schema are of one flow.
    Nothing,
    User,
    Namespace,
}

/// A FlowSchema.
#[derive(Debug, PartialEq, Eq, Drop)]
pub struct Schema {
    pub name: String,
    /// The name of its level.
    pub level: String,
    /// 1 to 10,000. Less comes first.
    pub precedence: u32,
    pub distinguisher: Distinguisher,
    /// It matches what one of its rules matches.
    pub rules: Vec<Rule>,
}

// What makes a flow within a schema.
#[tactic(auto, unfolding(crate::specs::Schemas::distinguisher_at))]
fn distinguisher_at(body: Option<&Value>, place: Place) -> Result<Distinguisher, ObjectFault>
    ensures { result ≡ spec.distinguisher_at place (seen body.entry) }
{
    let Some(method) = part_at(body, place, ObjectKey::DistinguisherMethod)? else {
        return Ok(Distinguisher::Nothing);
    };
    let name = text_at(Some(method), place, ObjectKey::DistinguisherType)?;
    if name == "ByUser" {
        Ok(Distinguisher::User)
    } else if name == "ByNamespace" {
        Ok(Distinguisher::Namespace)
    } else {
        Err(ObjectFault::BadValue(place, ObjectKey::DistinguisherType))
    }
}

/// The schema that an object is.
#[tactic(auto, unfolding(crate::specs::Schemas::schema_of))]
pub(crate) fn schema_of(alloc: Global, object: &Value, place: Place) -> Result<Schema, ObjectFault>
    ensures ok { IfOk result (λ schema. spec.schema_of place (view object.now) ≡ Ok (spec.schema_view schema)) }
    ensures err { IfErr result (λ fault. fault ≢ ObjectFault.NoMemory → spec.schema_of place (view object.now) ≡ Err fault) }
    ensures range { IfOk result (λ schema. (1 ≤ schema.precedence) × (schema.precedence ≤ spec.max_precedence)) }
{
    let name = name_of(object, place)?;
    let body = part_at(Some(object), place, ObjectKey::Spec)?;
    let reference = part_at(body, place, ObjectKey::LevelReference)?;
    let level = text_at(reference, place, ObjectKey::LevelName)?;
    let key = ObjectKey::MatchingPrecedence;
    let precedence = number_at(body, place, key, 1, MAX_PRECEDENCE, 1_000)?;
    let distinguisher = distinguisher_at(body, place)?;
    let rules = rules_at(alloc, body, place)?;
    Ok(Schema {
        name: owned(alloc, name)?,
        level: owned(alloc, level)?,
        precedence,
        distinguisher,
        rules,
    })
}
