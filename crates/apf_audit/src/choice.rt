//! Which requests of a log are chosen, and what makes a flow.

ghost use Rattle.std.specs.Prelude.{◌≡◌};
ghost use Rattle.apf_audit.specs.Choice as spec;

use apf_objects::{Cluster, Distinguisher};

/// What makes a flow of the trace.
#[derive(Clone, Copy, Debug, PartialEq, Eq)]
pub enum By<'a> {
    /// The name of the user.
    User,
    /// The namespace of the object.
    Namespace,
    /// The schema of this cluster that the request is of, and what makes a flow within that.
    Schema(&'a Cluster),
    /// As `Schema` of the first cluster, and beside that what the request is by the schemas of the second.
    Schemas(&'a Cluster, &'a Cluster),
}

impl By<'_> {
    /// What makes a flow, by its word: `user` or `namespace`.
    pub fn named(word: &str) -> Option<By<'static>>
        ensures { result ≡ spec.by_named word.now }
    {
        if word == "user" {
            Some(By::User)
        } else if word == "namespace" {
            Some(By::Namespace)
        } else {
            None
        }
    }
}

/// What makes a flow within the schema at this place of a cluster.
pub(crate) fn within(cluster: &Cluster, place: Option<usize>) -> Distinguisher
    ensures { result ≡ spec.within cluster.now.schemas.items place }
{
    let Some(place) = place else {
        return Distinguisher::Nothing;
    };
    match cluster.schemas.get(place) {
        Some(schema) => schema.distinguisher,
        None => Distinguisher::Nothing,
    }
}

impl By<'_> {
    /// What makes a flow within the schema at this place.
    pub(crate) fn distinguisher(self, place: Option<usize>) -> Distinguisher
        ensures { result ≡ spec.distinguisher_by self.entry place }
    {
        match self {
            By::User => Distinguisher::User,
            By::Namespace => Distinguisher::Namespace,
            By::Schema(cluster) | By::Schemas(cluster, _) => within(cluster, place),
        }
    }
}

/// Which requests of a log are chosen, and what makes a flow.
#[derive(Clone, Copy, Debug, PartialEq, Eq)]
pub struct Choice<'a> {
    /// What makes a flow.
    pub by: By<'a>,
    /// The name of the user, or its beginning with `*` behind it; none takes every user.
    pub user: Option<&'a str>,
    /// The requests that were received at this instant or later, in microseconds from 1970 on.
    pub since: Option<u64>,
    /// The requests that were received before this instant, in microseconds from 1970 on.
    pub until: Option<u64>,
}

// Whether the name is the pattern, or begins as it does where it ends with `*`.
fn is_named(pattern: &str, name: &str) -> bool
    ensures { result ≡ spec.is_named pattern.now name.now }
{
    let (pattern, name) = (pattern.as_bytes(), name.as_bytes());
    if pattern.ends_with(b"*") {
        name.starts_with(&pattern[..pattern.len() - 1])
    } else {
        name == pattern
    }
}

impl Choice<'_> {
    // Whether the requests of this user are chosen.
    fn has_user(&self, name: &str) -> bool
        ensures { result ≡ spec.has_user self.now.user name.now }
    {
        match self.user {
            Some(pattern) => is_named(pattern, name),
            None => true,
        }
    }

    // Whether the instant is not before the first.
    fn has_begun(&self, received: u64) -> bool
        ensures { result ≡ spec.has_begun self.now.since received }
    {
        match self.since {
            Some(since) => since <= received,
            None => true,
        }
    }

    // Whether the instant is before the end.
    fn is_open(&self, received: u64) -> bool
        ensures { result ≡ spec.is_open self.now.until received }
    {
        match self.until {
            Some(until) => received < until,
            None => true,
        }
    }

    /// Whether a request of this user is chosen that was received at this instant, in microseconds from 1970 on.
    #[tactic(auto, unfolding(crate::specs::Choice::is_chosen))]
    pub(crate) fn has(&self, user: &str, received: u64) -> bool
        ensures { result ≡ spec.is_chosen self.now user.now received }
    {
        self.has_user(user) && self.has_begun(received) && self.is_open(received)
    }
}
