//! What a look at a request or a locate gives: its verdict, or what holds it.
ghost use Rattle.std.specs.Prelude.{◌≡◌, Option, Some, IfOk};
ghost use Rattle.poa_choose.specs.Table as table;
ghost use Rattle.poa_choose.specs.declared.Facts.{Facts as FactsOf};
ghost use Rattle.history_standing.specs.Situations as situations;
ghost use Rattle.held_queue.specs.Blocks as blocks;
ghost use Rattle.core_standing.specs.Seen.{seen};
ghost use Rattle.core_turns.specs.Looks.{looked};
ghost use Rattle.core_turns.specs.Told.{ArrivalTells};

use crate::facts::facts_of;
use core_settings::Settings;
use core_standing::Standing;
use held_queue::Hold;
use poa_base::{Call, Cause, Config, Verdict, WantMemory};
use poa_choose::{Choice, Facts, choose};
use std::alloc::Global;

/// What a look at a request or a locate gives.
#[derive(Drop)]
pub enum Look {
    /// Its verdict.
    Go(Verdict),
    /// What holds it.
    Held(Hold),
}

/// SINGLE_THREAD_MODEL: a request waits for the one that runs.
fn awaits_turn(facts: &Facts) -> bool
    ensures { result ≡ table.awaits_turn facts.now }
{
    !facts.locate && facts.policies.is_single_thread() && facts.running
}

/// What a cause stands for.
fn hold_for(cause: Option<Cause>, awaits_turn: bool) -> Hold
    ensures { (facts : FactsOf) → awaits_turn ≡ table.awaits_turn facts
        → result ≡ blocks.hold_for facts cause }
{
    match cause {
        None => Hold::Main,
        Some(Cause::Manager(manager)) => Hold::Manager(manager),
        Some(Cause::Adapter(adapter)) => {
            if awaits_turn {
                Hold::Turn(adapter)
            } else {
                Hold::Change(adapter)
            }
        }
        Some(Cause::Id { number, .. }) => Hold::Id(number),
        Some(Cause::Trial { parent }) => Hold::Trial(parent),
    }
}

/// Looks at a request or a locate for a worker, by what stands and what is set after the history in which it arrived:
/// its verdict, or what holds it. It is `crowded` where too many stood unadmitted when it arrived.
pub fn look_at(
    alloc: Global,
    config: &Config,
    run: u32,
    standing: &Standing,
    settings: &Settings,
    crowded: bool,
    call: &Call,
    worker: u32,
) -> Result<Look, WantMemory>
    ensures { ArrivalTells config.now run (seen standing.now) settings.now crowded call.now
        (λ past r. IfOk result
        (λ look. look ≡ looked (situations.facts_of config.now run past r) worker)) }
{
    let facts = facts_of(alloc, config, run, standing, settings, crowded, call)?;
    let turn = awaits_turn(&facts);
    match choose(facts, worker) {
        Choice::Go(verdict) => Ok(Look::Go(verdict)),
        Choice::Held { cause } => Ok(Look::Held(hold_for(cause, turn))),
    }
}
