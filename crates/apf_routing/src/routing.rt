//! The place of the schema that an event's request is of.

ghost use Rattle.std.specs.Prelude.{◌≡◌, ◌≢◌, ◌<◌, IfOk, IfSome, None, true, map, length, codes};
ghost use Rattle.apf_objects.specs.Cluster.{HasCatchAll};
ghost use Rattle.apf_objects.specs.Objects.{has_schema};
ghost use Rattle.apf_objects.specs.Schemas.{schema_view};
ghost use Rattle.apf_matching.specs.First.{IsSchemaFor, schema_of};
ghost use Rattle.apf_matching.specs.Requests.{texts_view, of_path};
ghost use Rattle.apf_values.specs.Views.{data_of};
ghost use Rattle.apf_routing.specs.Events as spec;

use crate::said::{groups_of, path_of, resource_of, text_or_empty};
use apf_matching::{Request, Target, schema_among};
use apf_objects::{Cluster, Schema};
use apf_values::Node;
use std::alloc::{AllocError, Global};

// Whose request it is, and what is done: the user, the groups and the verb.
#[derive(Clone, Copy)]
struct Doer<'a> {
    user: &'a str,
    groups: &'a [&'a str],
    verb: &'a str,
}

// The place of the schema of a request for this object.
fn schema_for_object(
    alloc: Global,
    schemas: &[Schema],
    doer: Doer<'_>,
    object: &Node<'_>,
) -> Result<Option<usize>, AllocError>
    ensures value { IfOk result (λ place. place ≡ schema_of (record { user = doer.entry.user.now; groups = texts_view doer.entry.groups.now; verb = doer.entry.verb.now; target = spec.target_of_object (data_of object.now) }) (map schema_view schemas.now)) }
    ensures within { IfOk result (λ place. IfSome place (λ i. i < length schemas.now)) }
    ensures some { IfOk result (λ place. has_schema (map schema_view schemas.now) (codes "catch-all") ≡ true → place ≢ None) }
{
    let resource = resource_of(alloc, object)?;
    let target = Target::Resource {
        api_group: text_or_empty(object, "apiGroup"),
        resource: resource.as_str(),
        namespace: text_or_empty(object, "namespace"),
    };
    let Doer { user, groups, verb } = doer;
    Ok(schema_among(
        &Request {
            user,
            groups,
            verb,
            target,
        },
        schemas,
    ))
}

// The place of the schema of a request for this path.
fn schema_for_path(schemas: &[Schema], doer: Doer<'_>, path: &str) -> Option<usize>
    ensures value { result ≡ schema_of (record { user = doer.entry.user.now; groups = texts_view doer.entry.groups.now; verb = doer.entry.verb.now; target = of_path path.now }) (map schema_view schemas.now) }
    ensures within { IfSome result (λ i. i < length schemas.now) }
    ensures some { has_schema (map schema_view schemas.now) (codes "catch-all") ≡ true → result ≢ None }
{
    let Doer { user, groups, verb } = doer;
    let target = Target::Path(path);
    schema_among(
        &Request {
            user,
            groups,
            verb,
            target,
        },
        schemas,
    )
}

/// The place of the schema that the request of an event of this user is of, among these in their order: the first that matches,
/// and `catch-all` where none does. None if that is not among them.
///
/// The groups are those of `impersonatedUser` where it stands, and else of `user`. A request is for a resource exactly if
/// `objectRef` is there; else its path is `requestURI` before `?`. What is absent, or no text, counts as the empty text.
///
/// # Errors
///
/// `AllocError` if memory was refused.
#[tactic(auto, unfolding(crate::specs::Events::request_of))]
pub fn schema_of_event(
    alloc: Global,
    schemas: &[Schema],
    user: &str,
    event: &Node<'_>,
) -> Result<Option<usize>, AllocError>
    ensures value { IfOk result (λ place. place ≡ schema_of (spec.request_of user.now (data_of event.now)) (map schema_view schemas.now)) }
    ensures within { IfOk result (λ place. IfSome place (λ i. i < length schemas.now)) }
    ensures some { IfOk result (λ place. has_schema (map schema_view schemas.now) (codes "catch-all") ≡ true → place ≢ None) }
{
    let groups = groups_of(alloc, event)?;
    let doer = Doer {
        user,
        groups: groups.as_slice(),
        verb: text_or_empty(event, "verb"),
    };
    match event.get("objectRef") {
        Some(object) => schema_for_object(alloc, schemas, doer, &object),
        None => {
            let path = path_of(text_or_empty(event, "requestURI"));
            Ok(schema_for_path(schemas, doer, path))
        }
    }
}

/// The same among the schemas of a cluster, where there always is one.
///
/// # Errors
///
/// `AllocError` if memory was refused.
pub fn place_in(
    alloc: Global,
    cluster: &Cluster,
    user: &str,
    event: &Node<'_>,
) -> Result<usize, AllocError>
    requires { HasCatchAll cluster.now }
    ensures first { IfOk result (λ place. IsSchemaFor (spec.request_of user.now (data_of event.now)) (map schema_view cluster.now.schemas.items) place) }
    ensures within { IfOk result (λ place. place < length cluster.now.schemas.items) }
{
    let place = schema_of_event(alloc, cluster.schemas.as_slice(), user, event)?;
    match place {
        Some(place) => Ok(place),
        None => unreachable!(),
    }
}
