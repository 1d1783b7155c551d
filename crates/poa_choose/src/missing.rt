//! The rows of a missing child.
ghost use Rattle.std.specs.Prelude.{◌≡◌};
ghost use Rattle.poa_choose.specs.Table.{missing_rows, trial_rows};

use crate::refusals::{forward_or, inactive, refuse};
use crate::{Choice, Facts, KeyFact};
use poa_base::minors::{DISCARDED, NO_ADAPTER, OTHER_LIFESPAN};
use poa_base::{Cause, ExcName, ManagerState, Verdict};

/// A child is missing: CORBA 3.3 Part 1, chapter 15, "AdapterActivator Interface".
pub fn missing(facts: Facts) -> Choice
    ensures { result ≡ missing_rows facts }
{
    if let KeyFact::Transient = facts.key {
        return refuse(&facts, ExcName::ObjectNotExist, OTHER_LIFESPAN);
    }
    match facts.state {
        ManagerState::Holding => Choice::Held {
            cause: Some(Cause::Manager(facts.manager)),
        },
        ManagerState::Active => trial(facts),
        ManagerState::Discarding => refuse(&facts, ExcName::Transient, DISCARDED),
        ManagerState::Inactive => inactive(facts),
    }
}

/// The manager of the parent is ACTIVE.
fn trial(facts: Facts) -> Choice
    ensures { result ≡ trial_rows facts }
{
    if facts.trial {
        return Choice::Held {
            cause: Some(Cause::Trial {
                parent: facts.adapter,
            }),
        };
    }
    if facts.tries {
        return Choice::Go(Verdict::Try);
    }
    let refusal = refuse(&facts, ExcName::ObjectNotExist, NO_ADAPTER);
    forward_or(facts.entry, refusal)
}
