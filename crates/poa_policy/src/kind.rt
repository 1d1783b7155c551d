//! The kinds of policy, and a policy set with one policy changed.
ghost use Rattle.std.specs.Prelude.{◌≡◌};
ghost use Rattle.poa_policy.specs.Kinds.{kind_of as the_kind_of, put as the_put};

use poa_base::{Policy, PolicySet};

/// The seven kinds of policy.
#[derive(Clone, Copy, Drop)]
pub enum PolicyKind {
    Thread,
    Lifespan,
    Uniqueness,
    Assignment,
    Implicit,
    Retention,
    Processing,
}

/// The kind of a policy.
pub fn kind_of(policy: Policy) -> PolicyKind
    ensures { result ≡ the_kind_of policy }
{
    match policy {
        Policy::OrbCtrl | Policy::SingleThread | Policy::MainThread => PolicyKind::Thread,
        Policy::Transient | Policy::Persistent => PolicyKind::Lifespan,
        Policy::UniqueId | Policy::MultipleId => PolicyKind::Uniqueness,
        Policy::SystemId | Policy::UserId => PolicyKind::Assignment,
        Policy::NoImplicit | Policy::Implicit => PolicyKind::Implicit,
        Policy::Retain | Policy::NonRetain => PolicyKind::Retention,
        Policy::MapOnly | Policy::DefaultServant | Policy::ServantManager => PolicyKind::Processing,
    }
}

/// The set with this policy in place of its policy of that kind.
pub(crate) fn put(set: PolicySet, policy: Policy) -> PolicySet
    ensures { result ≡ the_put set policy }
{
    match kind_of(policy) {
        PolicyKind::Thread => PolicySet {
            thread: policy,
            ..set
        },
        PolicyKind::Lifespan => PolicySet {
            lifespan: policy,
            ..set
        },
        PolicyKind::Uniqueness => PolicySet {
            uniqueness: policy,
            ..set
        },
        PolicyKind::Assignment => PolicySet {
            assignment: policy,
            ..set
        },
        PolicyKind::Implicit => PolicySet {
            implicit: policy,
            ..set
        },
        PolicyKind::Retention => PolicySet {
            retention: policy,
            ..set
        },
        PolicyKind::Processing => PolicySet {
            processing: policy,
            ..set
        },
    }
}
