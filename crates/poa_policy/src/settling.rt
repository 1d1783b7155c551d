//! Settling a list of policies.
ghost use Rattle.std.specs.Prelude.{◌≡◌, ◌≤◌, ◌++◌, ◌∷◌, [], length, if◌then◌else◌, IsTrue};
ghost use Rattle.std.specs.List.{list_any};
ghost use Rattle.poa_policy.specs.Kinds.{kind_of as the_kind_of, same_kind};
ghost use Rattle.poa_policy.specs.Rules.{names, defaults as the_defaults, harmless as the_harmless};
ghost use Rattle.poa_policy.specs.Settled.{settled, Settled, last_place, once, listed_over, completable};

use crate::kind::{kind_of, put};
use crate::rule::{Rule, first_broken};
use poa_base::{Policy, PolicySet};

/// The policy of a list that can't be taken, as in the exception InvalidPolicy of create_POA.
#[derive(Clone, Copy, Drop)]
pub struct InvalidPolicy {
    /// Its index in the list, from 0.
    pub index: u32,
}

/// The policies of an adapter that is created with this list: each listed one, and the default of each
/// kind that isn't listed.
///
/// The index is that of the first policy after which the list so far can't be completed: a kind stands
/// twice, or no policies of the kinds that it lacks meet the rules. Where the list can be completed, but
/// the defaults break a rule, it is that of the last listed policy of a kind that the first such rule names.
pub fn settle(list: &[Policy]) -> Result<PolicySet, InvalidPolicy>
    ensures settled { Settled list.now result }
    ensures same { result ≡ settled list.now }
{
    let mut set = defaults();
    let mut filled = harmless();
    for (i, policy) in list.iter().enumerate() {
        filled = put(filled, *policy);
        if !completes(&list[..i], *policy, &filled) {
            return Err(InvalidPolicy { index: i as u32 });
        }
        set = put(set, *policy);
    }
    match first_broken(&set) {
        None => Ok(set),
        Some(rule) => Err(InvalidPolicy {
            index: last_named(list, rule) as u32,
        }),
    }
}

/// The default of each kind.
pub fn defaults() -> PolicySet
    ensures { result ≡ the_defaults }
{
    PolicySet {
        thread: Policy::OrbCtrl,
        lifespan: Policy::Transient,
        uniqueness: Policy::UniqueId,
        assignment: Policy::SystemId,
        implicit: Policy::NoImplicit,
        retention: Policy::Retain,
        processing: Policy::MapOnly,
    }
}

/// The policies by which no rule can be broken: a list can be completed exactly where it can be with these.
fn harmless() -> PolicySet
    ensures { result ≡ the_harmless }
{
    PolicySet {
        uniqueness: Policy::MultipleId,
        processing: Policy::ServantManager,
        ..defaults()
    }
}

/// Whether a list that can be completed still can be with one more policy. `filled` is the set of both over
/// the harmless policies.
#[tactic(auto, using(crate::proofs::Listing::once_more))]
fn completes(done: &[Policy], policy: Policy, filled: &PolicySet) -> bool
    requires single { IsTrue (once done.now) }
    requires filled { filled.now ≡ listed_over the_harmless (done.now ++ policy ∷ []) }
    ensures { result ≡ completable (done.now ++ policy ∷ []) }
{
    let twice = has_kind(done, policy);
    let broken = first_broken(filled);
    !twice && broken.is_none()
}

/// Whether a policy of the list is of the same kind.
fn has_kind(list: &[Policy], policy: Policy) -> bool
    ensures { result ≡ list_any (λ p. same_kind p policy) list.now }
{
    list.iter().any(|p| kind_of(*p) == kind_of(policy))
}

/// The index of the last policy whose kind the rule names, or 0.
fn last_named(list: &[Policy], rule: Rule) -> usize
    ensures place { result ≡ last_place (λ p. names rule (the_kind_of p)) list.now }
    ensures within { result ≤ length list.now }
{
    let mut last = 0;
    for (i, policy) in list.iter().enumerate() {
        last = later(rule.names(kind_of(*policy)), i, last);
    }
    last
}

/// The place where the test passed, else the one before.
fn later(here: bool, place: usize, before: usize) -> usize
    ensures { result ≡ (if here then place else before) }
{
    if here { place } else { before }
}
