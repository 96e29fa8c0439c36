//! The texts of an audit event.

ghost use Rattle.std.specs.Prelude.{◌≡◌, ◌++◌, IfOk, codes, string_bytes};
ghost use Rattle.apf_matching.specs.Requests.{texts_view};
ghost use Rattle.apf_values.specs.Views.{data_of};
ghost use Rattle.apf_routing.specs.Events as spec;

use apf_values::{Node, texts_at};
use std::alloc::{AllocError, Global};

/// The text at a key, and the empty text where there is none.
#[tactic(auto, unfolding(crate::specs::Events::text_or_empty))]
pub fn text_or_empty<'a>(node: &Node<'a>, key: &str) -> &'a str
    ensures { result.now ≡ spec.text_or_empty key.now (data_of node.now) }
{
    match node.text_at(key) {
        Some(text) => text,
        None => "",
    }
}

/// The groups of the user of an event: of the one who is impersonated, if there is such a one.
#[tactic(auto, unfolding(crate::specs::Events::groups_of))]
pub(crate) fn groups_of<'a>(alloc: Global, event: &Node<'a>) -> Result<Vec<&'a str>, AllocError>
    ensures { IfOk result (λ groups. texts_view groups.items ≡ spec.groups_of (data_of event.now)) }
{
    match event.get("impersonatedUser") {
        Some(user) => texts_at(alloc, &user, "groups"),
        None => match event.get("user") {
            Some(user) => texts_at(alloc, &user, "groups"),
            None => Ok(Vec::new(alloc)),
        },
    }
}

/// The path of a request: what is in front of `?`.
pub(crate) fn path_of(uri: &str) -> &str
    ensures { result.now ≡ spec.path_of uri.now }
{
    match uri.split_once('?') {
        Some((path, _)) => path,
        None => uri,
    }
}

// A resource with its subresource behind it.
fn joined(alloc: Global, resource: &str, subresource: &str) -> Result<String, AllocError>
    ensures { IfOk result (λ name. string_bytes name ≡ resource.now ++ codes "/" ++ subresource.now) }
{
    format!(in alloc; "{resource}/{subresource}")
}

/// The resource of an object, with its subresource behind it.
#[tactic(auto, unfolding(crate::specs::Events::resource_of))]
pub(crate) fn resource_of(alloc: Global, object: &Node<'_>) -> Result<String, AllocError>
    ensures { IfOk result (λ resource. string_bytes resource ≡ spec.resource_of (data_of object.now)) }
{
    let resource = text_or_empty(object, "resource");
    let subresource = text_or_empty(object, "subresource");
    if subresource == "" {
        String::from_str(alloc, resource)
    } else {
        joined(alloc, resource, subresource)
    }
}
