//! The rules that the policies of one adapter keep together.
ghost use Rattle.std.specs.Prelude.{◌≡◌};
ghost use Rattle.poa_policy.specs.Rules.{keeps as the_keeps, names as the_names, first_broken as the_first_broken};

use crate::kind::PolicyKind;
use poa_base::PolicySet;

/// A rule on the policies of one adapter, named by its numbers' order in the POA chapter.
#[derive(Clone, Copy, Drop)]
pub enum Rule {
    /// USE_ACTIVE_OBJECT_MAP_ONLY needs RETAIN.
    MapOnlyRetains,
    /// USE_DEFAULT_SERVANT needs MULTIPLE_ID.
    DefaultServantIsShared,
    /// IMPLICIT_ACTIVATION needs SYSTEM_ID and RETAIN.
    ImplicitMakesIds,
}

impl Rule {
    /// Whether the set keeps this rule.
    pub fn keeps(self, set: &PolicySet) -> bool
        ensures { result ≡ the_keeps self set.now }
    {
        match self {
            Rule::MapOnlyRetains => !set.uses_map_only() || set.retains(),
            Rule::DefaultServantIsShared => { !set.uses_default_servant() || set.is_multiple() }
            Rule::ImplicitMakesIds => {
                !set.activates_implicitly() || set.makes_ids() && set.retains()
            }
        }
    }

    /// Whether the rule speaks of policies of this kind.
    pub fn names(self, kind: PolicyKind) -> bool
        ensures { result ≡ the_names self kind }
    {
        match self {
            Rule::MapOnlyRetains => matches!(kind, PolicyKind::Processing | PolicyKind::Retention),
            Rule::DefaultServantIsShared => {
                matches!(kind, PolicyKind::Processing | PolicyKind::Uniqueness)
            }
            Rule::ImplicitMakesIds => matches!(
                kind,
                PolicyKind::Implicit | PolicyKind::Assignment | PolicyKind::Retention
            ),
        }
    }
}

/// The first rule that the set breaks.
pub(crate) fn first_broken(set: &PolicySet) -> Option<Rule>
    ensures { result ≡ the_first_broken set.now }
{
    if !Rule::MapOnlyRetains.keeps(set) {
        return Some(Rule::MapOnlyRetains);
    }
    if !Rule::DefaultServantIsShared.keeps(set) {
        return Some(Rule::DefaultServantIsShared);
    }
    if !Rule::ImplicitMakesIds.keeps(set) {
        return Some(Rule::ImplicitMakesIds);
    }
    None
}
