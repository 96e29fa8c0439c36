//! The first schema that a request matches.

ghost use Rattle.std.specs.Prelude.{◌≡◌, ◌≢◌, ◌<◌, IfSome, None, true, map, length, codes, option_map};
ghost use Rattle.apf_matching.specs.First as spec;
ghost use Rattle.apf_matching.specs.Requests.{request_view};
ghost use Rattle.apf_objects.specs.Cluster.{HasCatchAll};
ghost use Rattle.apf_objects.specs.Objects.{has_schema};
ghost use Rattle.apf_objects.specs.Schemas.{schema_view};

use crate::miss::matches;
use crate::request::{Request, Target};
use apf_objects::{Cluster, Distinguisher, Schema};

// The place of the first schema that matches, if one does.
fn first_match(request: &Request<'_>, schemas: &[Schema]) -> Option<usize>
    ensures value { result ≡ spec.first_match (request_view request.now) (map schema_view schemas.now) }
    ensures within { IfSome result (λ i. i < length schemas.now) }
{
    for (i, schema) in schemas.iter().enumerate() {
        if matches(request, schema) {
            return Some(i);
        }
    }
    None
}

// The place of the schema of this name.
fn place_of(name: &str, schemas: &[Schema]) -> Option<usize>
    ensures value { result ≡ spec.place_named name.now (map schema_view schemas.now) }
    ensures within { IfSome result (λ i. i < length schemas.now) }
{
    for (i, schema) in schemas.iter().enumerate() {
        if schema.name.as_str() == name {
            return Some(i);
        }
    }
    None
}

/// The place of the schema that a request is of, among these in their order: the first that matches, and `catch-all` where none
/// does. None if that is not among them.
#[tactic(auto, unfolding(crate::specs::First::schema_of))]
pub fn schema_among(request: &Request<'_>, schemas: &[Schema]) -> Option<usize>
    ensures value { result ≡ spec.schema_of (request_view request.now) (map schema_view schemas.now) }
    ensures within { IfSome result (λ i. i < length schemas.now) }
    ensures some { has_schema (map schema_view schemas.now) (codes "catch-all") ≡ true → result ≢ None }
{
    match first_match(request, schemas) {
        Some(place) => Some(place),
        None => place_of("catch-all", schemas),
    }
}

/// The place of the schema that a request is of, among the cluster's schemas in their order: the first that matches, and
/// `catch-all` where none does.
pub fn schema_for(request: &Request<'_>, cluster: &Cluster) -> usize
    requires { HasCatchAll cluster.now }
    ensures first { spec.IsSchemaFor (request_view request.now) (map schema_view cluster.now.schemas.items) result }
    ensures within { result < length cluster.now.schemas.items }
{
    match schema_among(request, cluster.schemas.as_slice()) {
        Some(place) => place,
        None => unreachable!(),
    }
}

/// What tells the flow of a request from others of its schema: the user, the namespace, or the empty text.
pub fn distinguisher_of<'a>(request: &Request<'a>, schema: &Schema) -> &'a str
    ensures { result.now ≡ spec.distinguisher_of (request_view request.now) schema.now.distinguisher }
{
    match (schema.distinguisher, request.target) {
        (Distinguisher::User, _) => request.user,
        (Distinguisher::Namespace, Target::Resource { namespace, .. }) => namespace,
        (Distinguisher::Namespace, Target::Path(_)) => "",
        (Distinguisher::Nothing, _) => "",
    }
}
