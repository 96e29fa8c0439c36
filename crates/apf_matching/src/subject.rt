//! Whose requests a subject is about.

ghost use Rattle.std.specs.Prelude.{◌≡◌, map, option_map};
ghost use Rattle.apf_matching.specs.Matches as spec;
ghost use Rattle.apf_matching.specs.Requests.{request_view, texts_view};
ghost use Rattle.apf_objects.specs.Rules.{subject_view};

use crate::request::Request;
use apf_objects::Subject;

/// What stands in front of the name of a user that is a service account.
const ACCOUNT: &str = "system:serviceaccount:";

// The rest of a text behind this beginning, if it begins so.
fn behind<'a>(front: &[u8], text: &'a [u8]) -> Option<&'a [u8]>
    ensures { option_map (λ rest. rest.now) result ≡ spec.behind front.now text.now }
{
    if text.starts_with(front) {
        Some(&text[front.len()..])
    } else {
        None
    }
}

// The name of the service account of this namespace that a user is, if it is one.
fn account_of<'a>(namespace: &str, user: &'a str) -> Option<&'a [u8]>
    ensures { option_map (λ name. name.now) result ≡ spec.account_of namespace.now user.now }
{
    let account = behind(ACCOUNT.as_bytes(), user.as_bytes())?;
    behind(b":", behind(namespace.as_bytes(), account)?)
}

// Whether a user is the service account of this name in this namespace.
fn is_account(namespace: &str, name: &str, user: &str) -> bool
    ensures { result ≡ spec.is_account namespace.now name.now user.now }
{
    match account_of(namespace, user) {
        Some(account) => name == "*" || name.as_bytes() == account,
        None => false,
    }
}

// Whether a group is one of these.
fn has_group(groups: &[&str], name: &str) -> bool
    ensures { result ≡ spec.has_group (texts_view groups.now) name.now }
{
    for group in groups {
        if *group == name {
            return true;
        }
    }
    false
}

// Whether a subject is about this request.
fn is_about(request: &Request<'_>, subject: &Subject) -> bool
    ensures { result ≡ spec.is_about (request_view request.now) (subject_view subject.now) }
{
    match subject {
        Subject::User(name) => name.as_str() == "*" || name.as_str() == request.user,
        Subject::Group(name) => { name.as_str() == "*" || has_group(request.groups, name.as_str()) }
        Subject::ServiceAccount { namespace, name } => {
            is_account(namespace.as_str(), name.as_str(), request.user)
        }
    }
}

/// Whether one of the subjects is about this request.
pub(crate) fn has_subject(request: &Request<'_>, subjects: &[Subject]) -> bool
    ensures { result ≡ spec.has_subject (request_view request.now) (map subject_view subjects.now) }
{
    for subject in subjects {
        if is_about(request, subject) {
            return true;
        }
    }
    false
}
