//! The first thing of a schema that a request does not match.

ghost use Rattle.std.specs.Prelude.{◌≡◌, map};
ghost use Rattle.apf_matching.specs.Matches.{schema_matches};
ghost use Rattle.apf_matching.specs.Misses as spec;
ghost use Rattle.apf_matching.specs.Requests.{request_view};
ghost use Rattle.apf_objects.specs.Rules.{resource_rule_view, path_rule_view, rule_view};
ghost use Rattle.apf_objects.specs.Schemas.{schema_view};

use crate::request::{Request, Target};
use crate::subject::has_subject;
use crate::texts::{allows, allows_path};
use apf_objects::{PathRule, ResourceRule, Rule, Schema};

/// The first thing that a request does not match, in the order in which things are judged. Of several rules it is that
/// of the rule that matches furthest.
#[derive(Clone, Copy, Debug, PartialEq, Eq)]
pub enum Miss {
    /// The schema has no rule.
    NoRule,
    /// No subject of a rule is about the request.
    Subject,
    /// The rule has no resource rule, or no non-resource rule, for such a request.
    Rules,
    Verb,
    ApiGroup,
    Resource,
    /// The namespace, or that there is none.
    Namespace,
    Path,
}

impl Miss {
    // How far the request got.
    fn depth(self) -> u8
        ensures { result ≡ spec.depth self }
    {
        match self {
            Miss::NoRule => 0,
            Miss::Subject => 1,
            Miss::Rules => 2,
            Miss::Verb => 3,
            Miss::ApiGroup => 4,
            Miss::Path => 4,
            Miss::Resource => 5,
            Miss::Namespace => 6,
        }
    }
}

// Of two misses the one that is further; none, which is a match, is the furthest.
fn further(one: Option<Miss>, other: Option<Miss>) -> Option<Miss>
    ensures { result ≡ spec.further one other }
{
    match (one, other) {
        (Some(one), Some(other)) if one.depth() < other.depth() => Some(other),
        (Some(one), Some(_)) => Some(one),
        _ => None,
    }
}

// The first thing of a resource rule that such a request does not match.
fn resource_miss(
    verb: &str,
    api_group: &str,
    resource: &str,
    namespace: &str,
    rule: &ResourceRule,
) -> Option<Miss>
    ensures { result ≡ spec.resource_miss verb.now api_group.now resource.now namespace.now (resource_rule_view rule.now) }
{
    if !allows(rule.verbs.as_slice(), verb) {
        return Some(Miss::Verb);
    }
    if !allows(rule.api_groups.as_slice(), api_group) {
        return Some(Miss::ApiGroup);
    }
    if !allows(rule.resources.as_slice(), resource) {
        return Some(Miss::Resource);
    }
    let is_allowed = if namespace == "" {
        rule.cluster_scope
    } else {
        allows(rule.namespaces.as_slice(), namespace)
    };
    if is_allowed {
        None
    } else {
        Some(Miss::Namespace)
    }
}

// The furthest miss of resource rules.
fn resources_miss(
    verb: &str,
    api_group: &str,
    resource: &str,
    namespace: &str,
    rules: &[ResourceRule],
) -> Option<Miss>
    ensures { result ≡ spec.furthest Miss.Rules (spec.resource_miss verb.now api_group.now resource.now namespace.now)
        (map resource_rule_view rules.now) }
{
    let mut miss = Some(Miss::Rules);
    let mut rest = rules;
    while let Some((rule, others)) = rest.split_first() {
        miss = further(
            miss,
            resource_miss(verb, api_group, resource, namespace, rule),
        );
        rest = others;
    }
    miss
}

// The first thing of a non-resource rule that such a request does not match.
fn path_miss(verb: &str, path: &str, rule: &PathRule) -> Option<Miss>
    ensures { result ≡ spec.path_miss verb.now path.now (path_rule_view rule.now) }
{
    if !allows(rule.verbs.as_slice(), verb) {
        return Some(Miss::Verb);
    }
    if allows_path(rule.paths.as_slice(), path) {
        None
    } else {
        Some(Miss::Path)
    }
}

// The furthest miss of non-resource rules.
fn paths_miss(verb: &str, path: &str, rules: &[PathRule]) -> Option<Miss>
    ensures { result ≡ spec.furthest Miss.Rules (spec.path_miss verb.now path.now) (map path_rule_view rules.now) }
{
    let mut miss = Some(Miss::Rules);
    let mut rest = rules;
    while let Some((rule, others)) = rest.split_first() {
        miss = further(miss, path_miss(verb, path, rule));
        rest = others;
    }
    miss
}

// The first thing of a rule that a request does not match.
fn rule_miss(request: &Request<'_>, rule: &Rule) -> Option<Miss>
    ensures { result ≡ spec.rule_miss (request_view request.now) (rule_view rule.now) }
{
    if !has_subject(request, rule.subjects.as_slice()) {
        return Some(Miss::Subject);
    }
    let verb = request.verb;
    match request.target {
        Target::Resource {
            api_group,
            resource,
            namespace,
        } => {
            let rules = rule.resource_rules.as_slice();
            resources_miss(verb, api_group, resource, namespace, rules)
        }
        Target::Path(path) => paths_miss(verb, path, rule.path_rules.as_slice()),
    }
}

/// The first thing of a schema that a request does not match; none where the schema matches it.
#[tactic(auto, unfolding(crate::specs::Misses::schema_miss))]
pub fn miss_of(request: &Request<'_>, schema: &Schema) -> Option<Miss>
    ensures { result ≡ spec.schema_miss (request_view request.now) (schema_view schema.now) }
{
    let mut miss = Some(Miss::NoRule);
    let mut rest = schema.rules.as_slice();
    while let Some((rule, others)) = rest.split_first() {
        miss = further(miss, rule_miss(request, rule));
        rest = others;
    }
    miss
}

/// Whether a schema matches a request.
#[tactic(auto, using(crate::proofs::Agree::none_where_it_matches))]
pub fn matches(request: &Request<'_>, schema: &Schema) -> bool
    ensures { result ≡ schema_matches (request_view request.now) (schema_view schema.now) }
{
    miss_of(request, schema).is_none()
}
