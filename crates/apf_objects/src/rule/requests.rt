//! Which requests a rule is about.

ghost use Rattle.std.specs.Prelude.{◌≡◌, ◌≢◌, IfOk, IfErr, Some, Ok, Err, map};
ghost use Rattle.serde_json.specs.View.{view, items_view};
ghost use Rattle.apf_objects.specs.Rules as spec;

use crate::fault::{ObjectFault, Place};
use crate::key::ObjectKey;
use crate::value::{flag_at, items_at, texts_at};
use serde_json::Value;
use std::alloc::Global;

/// Which requests for resources a rule is about. In each list `*` stands for everything.
#[derive(Debug, PartialEq, Eq, Drop)]
pub struct ResourceRule {
    pub verbs: Vec<String>,
    /// The API groups; the empty text is the core's.
    pub api_groups: Vec<String>,
    /// Each as `resource`, or `resource/subresource`.
    pub resources: Vec<String>,
    /// Whether requests without a namespace are meant.
    pub cluster_scope: bool,
    /// Of requests with a namespace, which namespaces are meant.
    pub namespaces: Vec<String>,
}

/// Which requests that name no resource a rule is about.
#[derive(Debug, PartialEq, Eq, Drop)]
pub struct PathRule {
    /// `*` stands for every verb.
    pub verbs: Vec<String>,
    /// `*`, a path, or a path with `*` behind it, which stands for each path below it.
    pub paths: Vec<String>,
}

// The resource rule that a value is.
#[tactic(auto, unfolding(crate::specs::Rules::resource_rule_of))]
fn resource_rule_of(alloc: Global, value: &Value, place: Place) -> Result<ResourceRule, ObjectFault>
    ensures ok { IfOk result (λ rule. spec.resource_rule_of place (view value.now) ≡ Ok (spec.resource_rule_view rule)) }
    ensures err { IfErr result (λ fault. fault ≢ ObjectFault.NoMemory → spec.resource_rule_of place (view value.now) ≡ Err fault) }
{
    if value.as_object().is_none() {
        return Err(ObjectFault::BadValue(place, ObjectKey::ResourceRule));
    }
    let verbs = texts_at(alloc, Some(value), place, ObjectKey::Verbs)?;
    let api_groups = texts_at(alloc, Some(value), place, ObjectKey::ApiGroups)?;
    let resources = texts_at(alloc, Some(value), place, ObjectKey::Resources)?;
    let cluster_scope = flag_at(Some(value), place, ObjectKey::ClusterScope)?;
    let namespaces = texts_at(alloc, Some(value), place, ObjectKey::Namespaces)?;
    Ok(ResourceRule {
        verbs,
        api_groups,
        resources,
        cluster_scope,
        namespaces,
    })
}

// The resource rules that these values are.
fn resource_rules_of(
    alloc: Global,
    items: &[Value],
    place: Place,
) -> Result<Vec<ResourceRule>, ObjectFault>
    ensures ok { IfOk result (λ rules. spec.resource_rules_of place (items_view items.now) ≡ Ok (map spec.resource_rule_view rules.items)) }
    ensures err { IfErr result (λ fault. fault ≢ ObjectFault.NoMemory → spec.resource_rules_of place (items_view items.now) ≡ Err fault) }
{
    let mut rules = Vec::new(alloc);
    for (i, item) in items.iter().enumerate() {
        let rule = resource_rule_of(alloc, item, Place { member: i, ..place })?;
        if rules.push(rule).is_err() {
            return Err(ObjectFault::NoMemory);
        }
    }
    Ok(rules)
}

/// The resource rules of a rule; none where the key is absent.
#[tactic(auto, unfolding(crate::specs::Rules::resource_rules_at))]
pub(crate) fn resource_rules_at(
    alloc: Global,
    rule: &Value,
    place: Place,
) -> Result<Vec<ResourceRule>, ObjectFault>
    ensures ok { IfOk result (λ rules. spec.resource_rules_at place (view rule.now) ≡ Ok (map spec.resource_rule_view rules.items)) }
    ensures err { IfErr result (λ fault. fault ≢ ObjectFault.NoMemory → spec.resource_rules_at place (view rule.now) ≡ Err fault) }
{
    let items = items_at(Some(rule), place, ObjectKey::ResourceRules)?;
    resource_rules_of(alloc, items, place)
}

// The non-resource rule that a value is.
#[tactic(auto, unfolding(crate::specs::Rules::path_rule_of))]
fn path_rule_of(alloc: Global, value: &Value, place: Place) -> Result<PathRule, ObjectFault>
    ensures ok { IfOk result (λ rule. spec.path_rule_of place (view value.now) ≡ Ok (spec.path_rule_view rule)) }
    ensures err { IfErr result (λ fault. fault ≢ ObjectFault.NoMemory → spec.path_rule_of place (view value.now) ≡ Err fault) }
{
    if value.as_object().is_none() {
        return Err(ObjectFault::BadValue(place, ObjectKey::PathRule));
    }
    let verbs = texts_at(alloc, Some(value), place, ObjectKey::PathVerbs)?;
    let paths = texts_at(alloc, Some(value), place, ObjectKey::Paths)?;
    Ok(PathRule { verbs, paths })
}

// The non-resource rules that these values are.
fn path_rules_of(alloc: Global, items: &[Value], place: Place) -> Result<Vec<PathRule>, ObjectFault>
    ensures ok { IfOk result (λ rules. spec.path_rules_of place (items_view items.now) ≡ Ok (map spec.path_rule_view rules.items)) }
    ensures err { IfErr result (λ fault. fault ≢ ObjectFault.NoMemory → spec.path_rules_of place (items_view items.now) ≡ Err fault) }
{
    let mut rules = Vec::new(alloc);
    for (i, item) in items.iter().enumerate() {
        let rule = path_rule_of(alloc, item, Place { member: i, ..place })?;
        if rules.push(rule).is_err() {
            return Err(ObjectFault::NoMemory);
        }
    }
    Ok(rules)
}

/// The non-resource rules of a rule; none where the key is absent.
#[tactic(auto, unfolding(crate::specs::Rules::path_rules_at))]
pub(crate) fn path_rules_at(
    alloc: Global,
    rule: &Value,
    place: Place,
) -> Result<Vec<PathRule>, ObjectFault>
    ensures ok { IfOk result (λ rules. spec.path_rules_at place (view rule.now) ≡ Ok (map spec.path_rule_view rules.items)) }
    ensures err { IfErr result (λ fault. fault ≢ ObjectFault.NoMemory → spec.path_rules_at place (view rule.now) ≡ Err fault) }
{
    let items = items_at(Some(rule), place, ObjectKey::PathRules)?;
    path_rules_of(alloc, items, place)
}
