//! The rows of the key and of the walk.
ghost use Rattle.std.specs.Prelude.{◌≡◌};
ghost use Rattle.poa_choose.specs.Table.{first_row, walk_rows};

use crate::found::found;
use crate::missing::missing;
use crate::refusals::refuse;
use crate::{Choice, Facts, KeyFact, WalkFact};
use poa_base::minors::{ADAPTER_DYING, BAD_KEY, DISCARDED, OTHER_LIFESPAN};
use poa_base::{ExcName, Verdict};

/// The verdict on a request or a locate for a worker: the first row of the table that applies. What the
/// verdict carries is moved out of the facts. Takes no memory.
#[tactic(auto, unfolding(crate::specs::Table::first_row))]
pub fn choose(facts: Facts, worker: u32) -> Choice
    ensures { result ≡ first_row facts worker }
{
    if facts.crowded {
        return refuse(&facts, ExcName::Transient, DISCARDED);
    }
    match facts.key {
        KeyFact::Absent => Choice::Go(Verdict::Addressing),
        KeyFact::Bad => refuse(&facts, ExcName::ObjectNotExist, BAD_KEY),
        KeyFact::OtherRun => refuse(&facts, ExcName::ObjectNotExist, OTHER_LIFESPAN),
        KeyFact::Transient | KeyFact::Persistent => walked(facts, worker),
    }
}

/// What the walk from the root meets.
fn walked(facts: Facts, worker: u32) -> Choice
    ensures { result ≡ walk_rows facts worker facts.walk }
{
    match facts.walk {
        WalkFact::Dying => refuse(&facts, ExcName::Transient, ADAPTER_DYING),
        WalkFact::Missing => missing(facts),
        WalkFact::Found => found(facts, worker),
    }
}
