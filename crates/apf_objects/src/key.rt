//! The keys that are read of an object.

ghost use Rattle.std.specs.Prelude.{◌≡◌};
ghost use Rattle.apf_objects.specs.Keys.{word_of};

use std::fmt;

/// A key of an object of `flowcontrol.apiserver.k8s.io`, by its place.
#[derive(Clone, Copy, Debug, PartialEq, Eq)]
pub enum ObjectKey {
    Kind,
    ApiVersion,
    Items,
    Metadata,
    Name,
    Spec,
    LevelType,
    Limited,
    Exempt,
    /// Of a level that is `Limited`, in `v1` and `v1beta3`.
    NominalShares,
    /// The same in `v1beta2`.
    AssuredShares,
    LendablePercent,
    BorrowingLimitPercent,
    ExemptShares,
    ExemptLendablePercent,
    LimitResponse,
    ResponseType,
    Queuing,
    Queues,
    HandSize,
    QueueLengthLimit,
    LevelReference,
    LevelName,
    MatchingPrecedence,
    DistinguisherMethod,
    DistinguisherType,
    Rules,
    Rule,
    Subjects,
    Subject,
    SubjectKind,
    User,
    UserName,
    Group,
    GroupName,
    ServiceAccount,
    AccountNamespace,
    AccountName,
    ResourceRules,
    ResourceRule,
    Verbs,
    ApiGroups,
    Resources,
    ClusterScope,
    Namespaces,
    PathRules,
    PathRule,
    PathVerbs,
    Paths,
}

impl ObjectKey {
    /// The key itself, the last word of its path. What stands in an array has the array's.
    pub fn word(self) -> &'static str
        ensures { result.now ≡ word_of self }
    {
        match self {
            ObjectKey::Kind | ObjectKey::SubjectKind => "kind",
            ObjectKey::ApiVersion => "apiVersion",
            ObjectKey::Items => "items",
            ObjectKey::Metadata => "metadata",
            ObjectKey::Name
            | ObjectKey::LevelName
            | ObjectKey::UserName
            | ObjectKey::GroupName
            | ObjectKey::AccountName => "name",
            ObjectKey::Spec => "spec",
            ObjectKey::LevelType | ObjectKey::ResponseType | ObjectKey::DistinguisherType => "type",
            ObjectKey::Limited => "limited",
            ObjectKey::Exempt => "exempt",
            ObjectKey::NominalShares | ObjectKey::ExemptShares => "nominalConcurrencyShares",
            ObjectKey::AssuredShares => "assuredConcurrencyShares",
            ObjectKey::LendablePercent | ObjectKey::ExemptLendablePercent => "lendablePercent",
            ObjectKey::BorrowingLimitPercent => "borrowingLimitPercent",
            ObjectKey::LimitResponse => "limitResponse",
            ObjectKey::Queuing => "queuing",
            ObjectKey::Queues => "queues",
            ObjectKey::HandSize => "handSize",
            ObjectKey::QueueLengthLimit => "queueLengthLimit",
            ObjectKey::LevelReference => "priorityLevelConfiguration",
            ObjectKey::MatchingPrecedence => "matchingPrecedence",
            ObjectKey::DistinguisherMethod => "distinguisherMethod",
            ObjectKey::Rules | ObjectKey::Rule => "rules",
            ObjectKey::Subjects | ObjectKey::Subject => "subjects",
            ObjectKey::User => "user",
            ObjectKey::Group => "group",
            ObjectKey::ServiceAccount => "serviceAccount",
            ObjectKey::AccountNamespace => "namespace",
            ObjectKey::ResourceRules | ObjectKey::ResourceRule => "resourceRules",
            ObjectKey::Verbs | ObjectKey::PathVerbs => "verbs",
            ObjectKey::ApiGroups => "apiGroups",
            ObjectKey::Resources => "resources",
            ObjectKey::ClusterScope => "clusterScope",
            ObjectKey::Namespaces => "namespaces",
            ObjectKey::PathRules | ObjectKey::PathRule => "nonResourceRules",
            ObjectKey::Paths => "nonResourceURLs",
        }
    }
}
