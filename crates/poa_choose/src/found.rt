//! The rows of an adapter that was found.
ghost use Rattle.std.specs.Prelude.{◌≡◌};
ghost use Rattle.poa_choose.specs.Table.{found_rows, tag_rows, thread_rows, object_rows, processing_rows, default_rows, manager_rows, activator_rows, locator_rows, awaits_turn as the_awaits_turn, awaits_main as the_awaits_main, unmade as the_unmade};

use crate::refusals::{inactive, refuse, serve};
use crate::{Choice, Facts, Located, MapFact};
use poa_base::minors::{
    DISCARDED, NO_DEFAULT_SERVANT, NO_SERVANT_MANAGER, NOT_ACTIVE, OTHER_LIFESPAN, OTHER_TAG,
};
use poa_base::{Cause, ExcName, ManagerState, Policy, Verdict};

/// The adapter is there.
pub fn found(facts: Facts, worker: u32) -> Choice
    ensures { result ≡ found_rows facts worker }
{
    if facts.differs {
        return refuse(&facts, ExcName::ObjectNotExist, OTHER_LIFESPAN);
    }
    tagged(facts, worker)
}

/// The adapter is there, with the lifespan that the key says.
fn tagged(facts: Facts, worker: u32) -> Choice
    ensures { result ≡ tag_rows facts worker }
{
    if facts.other_tag {
        return refuse(&facts, ExcName::ObjectNotExist, OTHER_TAG);
    }
    match facts.state {
        ManagerState::Holding => Choice::Held {
            cause: Some(Cause::Manager(facts.manager)),
        },
        ManagerState::Active => threads(facts, worker),
        ManagerState::Discarding => refuse(&facts, ExcName::Transient, DISCARDED),
        ManagerState::Inactive => inactive(facts),
    }
}

/// SINGLE_THREAD_MODEL: a request waits for the one that runs.
fn awaits_turn(facts: &Facts) -> bool
    ensures { result ≡ the_awaits_turn facts.now }
{
    !facts.locate && facts.policies.is_single_thread() && facts.running
}

/// MAIN_THREAD_MODEL: a request waits for the first worker.
fn awaits_main(facts: &Facts, worker: u32) -> bool
    ensures { result ≡ the_awaits_main facts.now worker }
{
    !facts.locate && facts.policies.is_main_thread() && worker != 0
}

/// The manager is ACTIVE.
fn threads(facts: Facts, worker: u32) -> Choice
    ensures { result ≡ thread_rows facts worker }
{
    if awaits_turn(&facts) {
        return Choice::Held {
            cause: Some(Cause::Adapter(facts.adapter)),
        };
    }
    if awaits_main(&facts, worker) {
        return Choice::Held { cause: None };
    }
    object(facts)
}

/// What the active object map has for the id.
fn object(facts: Facts) -> Choice
    ensures { result ≡ object_rows facts }
{
    if !facts.policies.retains() {
        return processing(facts);
    }
    match facts.slot {
        MapFact::Active(activation) => serve(&facts, Verdict::Serve(activation)),
        MapFact::Busy(number) => Choice::Held {
            cause: Some(Cause::Id {
                adapter: facts.adapter,
                number,
            }),
        },
        MapFact::Free => processing(facts),
    }
}

/// The adapter makes its ids and keeps its objects, and didn't make this one.
fn unmade(facts: &Facts) -> bool
    ensures { result ≡ the_unmade facts.now }
{
    facts.policies.retains() && facts.policies.makes_ids() && facts.bad_id
}

/// No active object has the id: CORBA 3.3 Part 1, chapter 15, "Request Processing Policy".
fn processing(facts: Facts) -> Choice
    ensures { result ≡ processing_rows facts facts.policies.processing }
{
    match facts.policies.processing {
        Policy::DefaultServant => preset(facts),
        Policy::ServantManager => {
            if unmade(&facts) {
                refuse(&facts, ExcName::ObjectNotExist, NOT_ACTIVE)
            } else {
                managed(facts)
            }
        }
        _ => refuse(&facts, ExcName::ObjectNotExist, NOT_ACTIVE),
    }
}

/// USE_DEFAULT_SERVANT.
fn preset(facts: Facts) -> Choice
    ensures { result ≡ default_rows facts facts.preset }
{
    let refusal = refuse(&facts, ExcName::ObjAdapter, NO_DEFAULT_SERVANT);
    let Facts { locate, preset, .. } = facts;
    match preset {
        None => refusal,
        Some(servant) => {
            if locate {
                Choice::Go(Verdict::Here)
            } else {
                Choice::Go(Verdict::Preset(servant))
            }
        }
    }
}

/// USE_SERVANT_MANAGER.
fn managed(facts: Facts) -> Choice
    ensures { result ≡ manager_rows facts }
{
    if !facts.rules {
        return refuse(&facts, ExcName::ObjAdapter, NO_SERVANT_MANAGER);
    }
    if facts.policies.retains() {
        return activator(&facts);
    }
    locator(facts)
}

/// RETAIN: the servant activator.
fn activator(facts: &Facts) -> Choice
    ensures { result ≡ activator_rows facts.now }
{
    if facts.locate {
        return Choice::Go(Verdict::Here);
    }
    if facts.busy {
        return Choice::Held {
            cause: Some(Cause::Adapter(facts.adapter)),
        };
    }
    Choice::Go(Verdict::Incarnate(facts.next))
}

/// NON_RETAIN: the servant locator's first rule that matches.
fn locator(facts: Facts) -> Choice
    ensures { result ≡ locator_rows facts }
{
    if facts.locate {
        return Choice::Go(Verdict::Here);
    }
    let refusal = refuse(&facts, ExcName::ObjectNotExist, NOT_ACTIVE);
    let Facts { located, .. } = facts;
    match located {
        Located::Servant(servant) => Choice::Go(Verdict::Locator(servant)),
        Located::Forward(endpoint) => Choice::Go(Verdict::Forward(endpoint)),
        Located::Raise(exception) => Choice::Go(Verdict::Refuse(exception)),
        Located::NoRule => refusal,
    }
}
