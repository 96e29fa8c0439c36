//! The levels and schemas that a server adds where they lack.

ghost use Rattle.std.specs.Prelude.{◌≡◌, ◌≢◌, [], ◌∷◌, OnOk, IfOk, map, string_bytes};
ghost use Rattle.apf_objects.specs.Own as spec;
ghost use Rattle.apf_objects.specs.Rules.{subject_view, resource_rule_view, path_rule_view, rule_view};
ghost use Rattle.apf_objects.specs.Levels.{level_view};
ghost use Rattle.apf_objects.specs.Schemas.{schema_view};

use crate::level::{Level, LevelSettings};
use crate::rule::{PathRule, ResourceRule, Rule, Subject};
use crate::schema::{Distinguisher, Schema};
use std::alloc::{AllocError, Global};

// One text.
fn one_text(alloc: Global, text: &str) -> Result<Vec<String>, AllocError>
    ensures { IfOk result (λ texts. map string_bytes texts.items ≡ text.now ∷ []) }
{
    let mut texts = Vec::new(alloc);
    texts.push(String::from_str(alloc, text)?)?;
    Ok(texts)
}

// Every request for a resource.
fn all_resources(alloc: Global) -> Result<ResourceRule, AllocError>
    ensures { IfOk result (λ rule. resource_rule_view rule ≡ spec.all_resources) }
{
    Ok(ResourceRule {
        verbs: one_text(alloc, "*")?,
        api_groups: one_text(alloc, "*")?,
        resources: one_text(alloc, "*")?,
        cluster_scope: true,
        namespaces: one_text(alloc, "*")?,
    })
}

// Every request that names no resource.
fn all_paths(alloc: Global) -> Result<PathRule, AllocError>
    ensures { IfOk result (λ rule. path_rule_view rule ≡ spec.all_paths) }
{
    Ok(PathRule {
        verbs: one_text(alloc, "*")?,
        paths: one_text(alloc, "*")?,
    })
}

// Puts the group of this name behind the subjects.
fn add_group(alloc: Global, subjects: &mut Vec<Subject>, name: &str) -> Result<(), AllocError>
    ensures { OnOk result (map subject_view subjects.new.items ≡ spec.with_group name.now (map subject_view subjects.old.items)) }
{
    let name = String::from_str(alloc, name)?;
    subjects.push(Subject::Group(name))?;
    Ok(())
}

// Every request of these subjects.
fn all_of(alloc: Global, subjects: Vec<Subject>) -> Result<Vec<Rule>, AllocError>
    ensures { IfOk result (λ rules. map rule_view rules.items ≡ spec.all_of (map subject_view subjects.items)) }
{
    let mut resource_rules = Vec::new(alloc);
    resource_rules.push(all_resources(alloc)?)?;
    let mut path_rules = Vec::new(alloc);
    path_rules.push(all_paths(alloc)?)?;
    let mut rules = Vec::new(alloc);
    rules.push(Rule {
        subjects,
        resource_rules,
        path_rules,
    })?;
    Ok(rules)
}

/// The server's own schema `exempt`.
pub(crate) fn exempt_schema(alloc: Global) -> Result<Schema, AllocError>
    ensures { IfOk result (λ schema. schema_view schema ≡ spec.exempt_schema) }
{
    let mut subjects = Vec::new(alloc);
    add_group(alloc, &mut subjects, "system:masters")?;
    Ok(Schema {
        name: String::from_str(alloc, "exempt")?,
        level: String::from_str(alloc, "exempt")?,
        precedence: 1,
        distinguisher: Distinguisher::Nothing,
        rules: all_of(alloc, subjects)?,
    })
}

/// The server's own schema `catch-all`.
pub(crate) fn catch_all_schema(alloc: Global) -> Result<Schema, AllocError>
    ensures { IfOk result (λ schema. schema_view schema ≡ spec.catch_all_schema) }
{
    let mut subjects = Vec::new(alloc);
    add_group(alloc, &mut subjects, "system:unauthenticated")?;
    add_group(alloc, &mut subjects, "system:authenticated")?;
    Ok(Schema {
        name: String::from_str(alloc, "catch-all")?,
        level: String::from_str(alloc, "catch-all")?,
        precedence: 10_000,
        distinguisher: Distinguisher::User,
        rules: all_of(alloc, subjects)?,
    })
}

/// The server's own level `exempt`.
pub(crate) fn exempt_level(alloc: Global) -> Result<Level, AllocError>
    ensures { IfOk result (λ level. level_view level ≡ spec.exempt_level) }
{
    Ok(Level {
        name: String::from_str(alloc, "exempt")?,
        settings: LevelSettings {
            is_exempt: true,
            shares: 0,
            lendable_percent: 0,
            borrowing_percent: None,
            queuing: None,
        },
    })
}

/// The server's own level `catch-all`.
pub(crate) fn catch_all_level(alloc: Global) -> Result<Level, AllocError>
    ensures { IfOk result (λ level. level_view level ≡ spec.catch_all_level) }
{
    Ok(Level {
        name: String::from_str(alloc, "catch-all")?,
        settings: LevelSettings {
            is_exempt: false,
            shares: 5,
            lendable_percent: 0,
            borrowing_percent: None,
            queuing: None,
        },
    })
}
