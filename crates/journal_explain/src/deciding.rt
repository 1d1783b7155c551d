//! The row of the table of verdicts that decides.
ghost use Rattle.std.specs.Prelude.{◌≡◌, ℕ, true, false};
ghost use Rattle.poa_base.specs.Policies.{is_default_servant, is_retain};
ghost use Rattle.poa_choose.specs.Table as table;
ghost use Rattle.poa_choose.specs.declared.WalkFact.TheVariants.{Missing};
ghost use Rattle.journal_explain.specs.Rows as rows;
ghost use Rattle.journal_explain.specs.Rows.{first_of, gives, row_of as the_row_of};

use crate::row::Row;
use poa_base::{ManagerState, Policy};
use poa_choose::{Facts, KeyFact, Located, MapFact, WalkFact};

/// The first row of the table that applies, by the facts that stand about a request or a locate, for a worker.
#[tactic(auto, unfolding(poa_choose::specs::Table::first_row, crate::specs::Rows::row_of))]
pub fn row_of(facts: &Facts, worker: u32) -> Row
    ensures row { result ≡ the_row_of facts.now worker }
    ensures gives { table.first_row facts.now worker ≡ gives result facts.now }
{
    if facts.crowded {
        return Row::Crowded;
    }
    match facts.key {
        KeyFact::Absent => Row::NoKey,
        KeyFact::Bad => Row::BadKey,
        KeyFact::OtherRun => Row::OtherRun,
        KeyFact::Transient | KeyFact::Persistent => walked(facts, worker),
    }
}

/// What the walk from the root meets.
fn walked(facts: &Facts, worker: u32) -> Row
    ensures row { result ≡ first_of rows.walk_group facts.now worker }
    ensures gives { table.walk_rows facts.now worker facts.now.walk ≡ gives result facts.now }
{
    match facts.walk {
        WalkFact::Dying => Row::AdapterDying,
        WalkFact::Missing => missing(facts, worker),
        WalkFact::Found => found(facts, worker),
    }
}

/// A child is missing.
fn missing(facts: &Facts, worker: u32) -> Row
    requires { facts.now.walk ≡ Missing }
    ensures row { result ≡ first_of rows.child_group facts.now worker }
    ensures gives { table.missing_rows facts.now ≡ gives result facts.now }
{
    if let KeyFact::Transient = facts.key {
        return Row::ChildGone;
    }
    match facts.state {
        ManagerState::Active => tried(facts, worker),
        ManagerState::Holding | ManagerState::Discarding | ManagerState::Inactive => {
            Row::ParentManager
        }
    }
}

/// A child is missing, and its parent's manager is ACTIVE.
fn tried(facts: &Facts, worker: u32) -> Row
    requires missing { facts.now.walk ≡ Missing }
    requires lasting { table.is_transient facts.now.key ≡ false }
    requires active { rows.is_active_state facts.now.state ≡ true }
    ensures row { result ≡ first_of rows.child_group facts.now worker }
    ensures gives { table.trial_rows facts.now ≡ gives result facts.now }
{
    if facts.trial {
        Row::ChildTried
    } else if facts.tries {
        Row::ChildActivator
    } else if facts.entry.is_some() {
        Row::ChildForward
    } else {
        Row::ChildMissing
    }
}

/// The adapter is there.
fn found(facts: &Facts, worker: u32) -> Row
    ensures row { result ≡ first_of rows.adapter_group facts.now worker }
    ensures gives { table.found_rows facts.now worker ≡ gives result facts.now }
{
    if facts.differs {
        return Row::OtherLifespan;
    }
    if facts.other_tag {
        return Row::OtherTag;
    }
    match facts.state {
        ManagerState::Active => threads(facts, worker),
        ManagerState::Holding | ManagerState::Discarding | ManagerState::Inactive => Row::Manager,
    }
}

/// SINGLE_THREAD_MODEL: a request waits for the one that runs.
fn awaits_turn(facts: &Facts) -> bool
    ensures { result ≡ table.awaits_turn facts.now }
{
    !facts.locate && facts.policies.is_single_thread() && facts.running
}

/// MAIN_THREAD_MODEL: a request waits for the first worker.
fn awaits_main(facts: &Facts, worker: u32) -> bool
    ensures { result ≡ table.awaits_main facts.now worker }
{
    !facts.locate && facts.policies.is_main_thread() && worker != 0
}

/// The manager is ACTIVE.
fn threads(facts: &Facts, worker: u32) -> Row
    requires lifespan { facts.now.differs ≡ false }
    requires tag { facts.now.other_tag ≡ false }
    requires active { rows.is_active_state facts.now.state ≡ true }
    ensures row { result ≡ first_of rows.adapter_group facts.now worker }
    ensures gives { table.thread_rows facts.now worker ≡ gives result facts.now }
{
    if awaits_turn(facts) || awaits_main(facts, worker) {
        return Row::Thread;
    }
    object(facts, worker)
}

/// What the active object map has for the id.
fn object(facts: &Facts, worker: u32) -> Row
    ensures row { result ≡ first_of rows.object_group facts.now worker }
    ensures gives { table.object_rows facts.now ≡ gives result facts.now }
{
    if !facts.policies.retains() {
        return processing(facts, worker);
    }
    match facts.slot {
        MapFact::Active(_) => Row::Active,
        MapFact::Busy(_) => Row::Changing,
        MapFact::Free => processing(facts, worker),
    }
}

/// The adapter makes its ids and keeps its objects, and didn't make this one.
fn unmade(facts: &Facts) -> bool
    ensures { result ≡ table.unmade facts.now }
{
    facts.policies.retains() && facts.policies.makes_ids() && facts.bad_id
}

/// No active object has the id.
fn processing(facts: &Facts, worker: u32) -> Row
    ensures row { result ≡ first_of rows.processing_group facts.now worker }
    ensures gives { table.processing_rows facts.now facts.now.policies.processing ≡ gives result facts.now }
{
    match facts.policies.processing {
        Policy::DefaultServant => preset(facts),
        Policy::ServantManager => {
            if unmade(facts) {
                Row::NotActive
            } else {
                managed(facts, worker)
            }
        }
        _ => Row::NotActive,
    }
}

/// USE_DEFAULT_SERVANT.
fn preset(facts: &Facts) -> Row
    requires { is_default_servant facts.now.policies.processing ≡ true }
    ensures row { (worker : ℕ) → result ≡ first_of rows.processing_group facts.now worker }
    ensures gives { table.default_rows facts.now facts.now.preset ≡ gives result facts.now }
{
    if facts.preset.is_some() {
        Row::DefaultServant
    } else {
        Row::NoDefaultServant
    }
}

/// USE_SERVANT_MANAGER.
fn managed(facts: &Facts, worker: u32) -> Row
    ensures row { result ≡ first_of rows.manager_group facts.now worker }
    ensures gives { table.manager_rows facts.now ≡ gives result facts.now }
{
    if !facts.rules {
        return Row::NoServantManager;
    }
    if facts.policies.retains() {
        activator(facts)
    } else {
        locator(facts)
    }
}

/// RETAIN: the servant activator.
fn activator(facts: &Facts) -> Row
    requires { is_retain facts.now.policies.retention ≡ true }
    ensures row { (worker : ℕ) → result ≡ first_of rows.activator_group facts.now worker }
    ensures gives { table.activator_rows facts.now ≡ gives result facts.now }
{
    if facts.locate {
        Row::ActivatorHere
    } else if facts.busy {
        Row::ActivatorBusy
    } else {
        Row::Incarnate
    }
}

/// NON_RETAIN: the servant locator.
fn locator(facts: &Facts) -> Row
    ensures row { (worker : ℕ) → result ≡ first_of rows.locator_group facts.now worker }
    ensures gives { table.locator_rows facts.now ≡ gives result facts.now }
{
    if facts.locate {
        return Row::LocatorHere;
    }
    match facts.located {
        Located::NoRule => Row::NoRule,
        Located::Servant(_) | Located::Forward(_) | Located::Raise(_) => Row::Locator,
    }
}
