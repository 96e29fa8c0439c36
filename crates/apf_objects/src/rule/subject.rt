//! Whose requests a rule is about.

ghost use Rattle.std.specs.Prelude.{◌≡◌, ◌≢◌, IfOk, IfErr, Some, Ok, Err, map};
ghost use Rattle.serde_json.specs.View.{view, items_view};
ghost use Rattle.apf_objects.specs.Rules as spec;
ghost use Rattle.apf_objects.specs.Values.{seen};

use crate::fault::{ObjectFault, Place};
use crate::key::ObjectKey;
use crate::value::{items_at, owned, part_at, text_at};
use serde_json::Value;
use std::alloc::Global;

/// Whose requests a rule is about.
#[derive(Debug, PartialEq, Eq, Drop)]
pub enum Subject {
    /// The user of this name; `*` is every user.
    User(String),
    /// Who is in the group of this name; `*` is every group.
    Group(String),
    /// The service account of this name in this namespace; `*` is every one of the namespace.
    ServiceAccount { namespace: String, name: String },
}

// The text at a key of the object at another, a copy of it.
#[tactic(auto, unfolding(crate::specs::Rules::name_within))]
fn name_within(
    alloc: Global,
    value: &Value,
    place: Place,
    outer: ObjectKey,
    inner: ObjectKey,
) -> Result<String, ObjectFault>
    ensures ok { IfOk result (λ name. spec.name_within place outer inner (view value.now) ≡ Ok (spec.text_view name)) }
    ensures err { IfErr result (λ fault. fault ≢ ObjectFault.NoMemory → spec.name_within place outer inner (view value.now) ≡ Err fault) }
{
    let part = part_at(Some(value), place, outer)?;
    owned(alloc, text_at(part, place, inner)?)
}

// The user of a subject.
#[tactic(auto, unfolding(crate::specs::Rules::user_of))]
fn user_of(alloc: Global, value: &Value, place: Place) -> Result<Subject, ObjectFault>
    ensures ok { IfOk result (λ subject. spec.user_of place (view value.now) ≡ Ok (spec.subject_view subject)) }
    ensures err { IfErr result (λ fault. fault ≢ ObjectFault.NoMemory → spec.user_of place (view value.now) ≡ Err fault) }
{
    let name = name_within(alloc, value, place, ObjectKey::User, ObjectKey::UserName)?;
    Ok(Subject::User(name))
}

// The group of a subject.
#[tactic(auto, unfolding(crate::specs::Rules::group_of))]
fn group_of(alloc: Global, value: &Value, place: Place) -> Result<Subject, ObjectFault>
    ensures ok { IfOk result (λ subject. spec.group_of place (view value.now) ≡ Ok (spec.subject_view subject)) }
    ensures err { IfErr result (λ fault. fault ≢ ObjectFault.NoMemory → spec.group_of place (view value.now) ≡ Err fault) }
{
    let name = name_within(alloc, value, place, ObjectKey::Group, ObjectKey::GroupName)?;
    Ok(Subject::Group(name))
}

// The service account of a subject.
#[tactic(auto, unfolding(crate::specs::Rules::account_of))]
fn account_of(alloc: Global, value: &Value, place: Place) -> Result<Subject, ObjectFault>
    ensures ok { IfOk result (λ subject. spec.account_of place (view value.now) ≡ Ok (spec.subject_view subject)) }
    ensures err { IfErr result (λ fault. fault ≢ ObjectFault.NoMemory → spec.account_of place (view value.now) ≡ Err fault) }
{
    let account = ObjectKey::ServiceAccount;
    let namespace = name_within(alloc, value, place, account, ObjectKey::AccountNamespace)?;
    let name = name_within(alloc, value, place, account, ObjectKey::AccountName)?;
    Ok(Subject::ServiceAccount { namespace, name })
}

// The subject that a value is.
#[tactic(auto, unfolding(crate::specs::Rules::subject_of))]
fn subject_of(alloc: Global, value: &Value, place: Place) -> Result<Subject, ObjectFault>
    ensures ok { IfOk result (λ subject. spec.subject_of place (view value.now) ≡ Ok (spec.subject_view subject)) }
    ensures err { IfErr result (λ fault. fault ≢ ObjectFault.NoMemory → spec.subject_of place (view value.now) ≡ Err fault) }
{
    if value.as_object().is_none() {
        return Err(ObjectFault::BadValue(place, ObjectKey::Subject));
    }
    let kind = text_at(Some(value), place, ObjectKey::SubjectKind)?;
    if kind == "User" {
        user_of(alloc, value, place)
    } else if kind == "Group" {
        group_of(alloc, value, place)
    } else if kind == "ServiceAccount" {
        account_of(alloc, value, place)
    } else {
        Err(ObjectFault::BadValue(place, ObjectKey::SubjectKind))
    }
}

// The subjects that these values are.
fn subjects_of(alloc: Global, items: &[Value], place: Place) -> Result<Vec<Subject>, ObjectFault>
    ensures ok { IfOk result (λ subjects. spec.subjects_of place (items_view items.now) ≡ Ok (map spec.subject_view subjects.items)) }
    ensures err { IfErr result (λ fault. fault ≢ ObjectFault.NoMemory → spec.subjects_of place (items_view items.now) ≡ Err fault) }
{
    let mut subjects = Vec::new(alloc);
    for (i, item) in items.iter().enumerate() {
        let subject = subject_of(alloc, item, Place { member: i, ..place })?;
        if subjects.push(subject).is_err() {
            return Err(ObjectFault::NoMemory);
        }
    }
    Ok(subjects)
}

/// The subjects of a rule; none where the key is absent.
#[tactic(auto, unfolding(crate::specs::Rules::subjects_at))]
pub(crate) fn subjects_at(
    alloc: Global,
    rule: &Value,
    place: Place,
) -> Result<Vec<Subject>, ObjectFault>
    ensures ok { IfOk result (λ subjects. spec.subjects_at place (view rule.now) ≡ Ok (map spec.subject_view subjects.items)) }
    ensures err { IfErr result (λ fault. fault ≢ ObjectFault.NoMemory → spec.subjects_at place (view rule.now) ≡ Err fault) }
{
    let items = items_at(Some(rule), place, ObjectKey::Subjects)?;
    subjects_of(alloc, items, place)
}
