//! The path of a key, and what may stand there.

use apf_objects::ObjectKey;

/// The path of a key from its object. `%` stands for the number of the rule, and `#` for that of its member.
pub(crate) fn path_of(key: ObjectKey) -> &'static str {
    match key {
        ObjectKey::Kind => "kind",
        ObjectKey::ApiVersion => "apiVersion",
        ObjectKey::Items => "items",
        ObjectKey::Metadata => "metadata",
        ObjectKey::Name => "metadata.name",
        ObjectKey::Spec => "spec",
        ObjectKey::LevelType => "spec.type",
        ObjectKey::Limited => "spec.limited",
        ObjectKey::Exempt => "spec.exempt",
        ObjectKey::NominalShares => "spec.limited.nominalConcurrencyShares",
        ObjectKey::AssuredShares => "spec.limited.assuredConcurrencyShares",
        ObjectKey::LendablePercent => "spec.limited.lendablePercent",
        ObjectKey::BorrowingLimitPercent => "spec.limited.borrowingLimitPercent",
        ObjectKey::ExemptShares => "spec.exempt.nominalConcurrencyShares",
        ObjectKey::ExemptLendablePercent => "spec.exempt.lendablePercent",
        ObjectKey::LimitResponse => "spec.limited.limitResponse",
        ObjectKey::ResponseType => "spec.limited.limitResponse.type",
        ObjectKey::Queuing => "spec.limited.limitResponse.queuing",
        ObjectKey::Queues => "spec.limited.limitResponse.queuing.queues",
        ObjectKey::HandSize => "spec.limited.limitResponse.queuing.handSize",
        ObjectKey::QueueLengthLimit => "spec.limited.limitResponse.queuing.queueLengthLimit",
        ObjectKey::LevelReference => "spec.priorityLevelConfiguration",
        ObjectKey::LevelName => "spec.priorityLevelConfiguration.name",
        ObjectKey::MatchingPrecedence => "spec.matchingPrecedence",
        ObjectKey::DistinguisherMethod => "spec.distinguisherMethod",
        ObjectKey::DistinguisherType => "spec.distinguisherMethod.type",
        ObjectKey::Rules => "spec.rules",
        ObjectKey::Rule => "spec.rules%",
        ObjectKey::Subjects => "spec.rules%.subjects",
        ObjectKey::Subject => "spec.rules%.subjects#",
        ObjectKey::SubjectKind => "spec.rules%.subjects#.kind",
        ObjectKey::User => "spec.rules%.subjects#.user",
        ObjectKey::UserName => "spec.rules%.subjects#.user.name",
        ObjectKey::Group => "spec.rules%.subjects#.group",
        ObjectKey::GroupName => "spec.rules%.subjects#.group.name",
        ObjectKey::ServiceAccount => "spec.rules%.subjects#.serviceAccount",
        ObjectKey::AccountNamespace => "spec.rules%.subjects#.serviceAccount.namespace",
        ObjectKey::AccountName => "spec.rules%.subjects#.serviceAccount.name",
        ObjectKey::ResourceRules => "spec.rules%.resourceRules",
        ObjectKey::ResourceRule => "spec.rules%.resourceRules#",
        ObjectKey::Verbs => "spec.rules%.resourceRules#.verbs",
        ObjectKey::ApiGroups => "spec.rules%.resourceRules#.apiGroups",
        ObjectKey::Resources => "spec.rules%.resourceRules#.resources",
        ObjectKey::ClusterScope => "spec.rules%.resourceRules#.clusterScope",
        ObjectKey::Namespaces => "spec.rules%.resourceRules#.namespaces",
        ObjectKey::PathRules => "spec.rules%.nonResourceRules",
        ObjectKey::PathRule => "spec.rules%.nonResourceRules#",
        ObjectKey::PathVerbs => "spec.rules%.nonResourceRules#.verbs",
        ObjectKey::Paths => "spec.rules%.nonResourceRules#.nonResourceURLs",
    }
}

/// What may stand at a key.
pub(crate) fn wanted_of(key: ObjectKey) -> &'static str {
    match key {
        ObjectKey::Kind => "FlowSchema or PriorityLevelConfiguration",
        ObjectKey::ApiVersion => {
            "flowcontrol.apiserver.k8s.io/v1, flowcontrol.apiserver.k8s.io/v1beta3 or flowcontrol.apiserver.k8s.io/v1beta2"
        }
        ObjectKey::LevelType => "Limited or Exempt",
        ObjectKey::ResponseType => "Queue or Reject",
        ObjectKey::DistinguisherType => "ByUser or ByNamespace",
        ObjectKey::SubjectKind => "User, Group or ServiceAccount",
        ObjectKey::NominalShares
        | ObjectKey::AssuredShares
        | ObjectKey::ExemptShares
        | ObjectKey::BorrowingLimitPercent => "a whole number from 0 to 2147483647",
        ObjectKey::LendablePercent | ObjectKey::ExemptLendablePercent =>
            "a whole number from 0 to 100",
        ObjectKey::Queues => "a whole number from 1 to 1024",
        ObjectKey::HandSize => "a whole number from 1 to 15",
        ObjectKey::QueueLengthLimit | ObjectKey::MatchingPrecedence => {
            "a whole number from 1 to 10000"
        }
        ObjectKey::ClusterScope => "true or false",
        ObjectKey::Name
        | ObjectKey::LevelName
        | ObjectKey::UserName
        | ObjectKey::GroupName
        | ObjectKey::AccountNamespace
        | ObjectKey::AccountName => "a text",
        ObjectKey::Verbs
        | ObjectKey::ApiGroups
        | ObjectKey::Resources
        | ObjectKey::Namespaces
        | ObjectKey::PathVerbs
        | ObjectKey::Paths => "an array of texts",
        ObjectKey::Items
        | ObjectKey::Rules
        | ObjectKey::Subjects
        | ObjectKey::ResourceRules
        | ObjectKey::PathRules => "an array",
        ObjectKey::Metadata
        | ObjectKey::Spec
        | ObjectKey::Limited
        | ObjectKey::Exempt
        | ObjectKey::LimitResponse
        | ObjectKey::Queuing
        | ObjectKey::LevelReference
        | ObjectKey::DistinguisherMethod
        | ObjectKey::Rule
        | ObjectKey::Subject
        | ObjectKey::User
        | ObjectKey::Group
        | ObjectKey::ServiceAccount
        | ObjectKey::ResourceRule
        | ObjectKey::PathRule => "an object",
    }
}
