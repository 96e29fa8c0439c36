//! A rule of a schema: whose requests, and which of them.

ghost use Rattle.std.specs.Prelude.{◌≡◌, ◌≢◌, IfOk, IfErr, Ok, Err, map};
ghost use Rattle.serde_json.specs.View.{view, items_view};
ghost use Rattle.apf_objects.specs.Rules as spec;
ghost use Rattle.apf_objects.specs.Values.{seen};

mod requests;
mod subject;

use crate::fault::{ObjectFault, Place};
use crate::key::ObjectKey;
use crate::value::items_at;
pub use requests::{PathRule, ResourceRule};
use requests::{path_rules_at, resource_rules_at};
use serde_json::Value;
use std::alloc::Global;
pub use subject::Subject;
use subject::subjects_at;

/// A rule: it matches a request of one of its subjects that one of its resource rules matches, or where the request
/// names no resource one of its non-resource rules.
#[derive(Debug, PartialEq, Eq, Drop)]
pub struct Rule {
    pub subjects: Vec<Subject>,
    pub resource_rules: Vec<ResourceRule>,
    pub path_rules: Vec<PathRule>,
}

// The rule that a value is.
#[tactic(auto, unfolding(crate::specs::Rules::rule_of))]
fn rule_of(alloc: Global, value: &Value, place: Place) -> Result<Rule, ObjectFault>
    ensures ok { IfOk result (λ rule. spec.rule_of place (view value.now) ≡ Ok (spec.rule_view rule)) }
    ensures err { IfErr result (λ fault. fault ≢ ObjectFault.NoMemory → spec.rule_of place (view value.now) ≡ Err fault) }
{
    if value.as_object().is_none() {
        return Err(ObjectFault::BadValue(place, ObjectKey::Rule));
    }
    let subjects = subjects_at(alloc, value, place)?;
    let resource_rules = resource_rules_at(alloc, value, place)?;
    let path_rules = path_rules_at(alloc, value, place)?;
    Ok(Rule {
        subjects,
        resource_rules,
        path_rules,
    })
}

// The rules that these values are.
fn rules_of(alloc: Global, items: &[Value], place: Place) -> Result<Vec<Rule>, ObjectFault>
    ensures ok { IfOk result (λ rules. spec.rules_of place (items_view items.now) ≡ Ok (map spec.rule_view rules.items)) }
    ensures err { IfErr result (λ fault. fault ≢ ObjectFault.NoMemory → spec.rules_of place (items_view items.now) ≡ Err fault) }
{
    let mut rules = Vec::new(alloc);
    for (i, item) in items.iter().enumerate() {
        let rule = rule_of(alloc, item, Place { rule: i, ..place })?;
        if rules.push(rule).is_err() {
            return Err(ObjectFault::NoMemory);
        }
    }
    Ok(rules)
}

/// The rules of a schema; none where the key is absent.
#[tactic(auto, unfolding(crate::specs::Rules::rules_at))]
pub(crate) fn rules_at(
    alloc: Global,
    body: Option<&Value>,
    place: Place,
) -> Result<Vec<Rule>, ObjectFault>
    ensures ok { IfOk result (λ rules. spec.rules_at place (seen body.entry) ≡ Ok (map spec.rule_view rules.items)) }
    ensures err { IfErr result (λ fault. fault ≢ ObjectFault.NoMemory → spec.rules_at place (seen body.entry) ≡ Err fault) }
{
    let items = items_at(body, place, ObjectKey::Rules)?;
    rules_of(alloc, items, place)
}
