//! The verdict on an arrival.
ghost use Rattle.std.specs.Prelude.{◌≡◌, ℕ, List, Some, true, IfOk};
ghost use Rattle.poa_base.specs.declared.Entry.{Entry};
ghost use Rattle.history_standing.specs.Arrivals.{call_of, is_message};
ghost use Rattle.history_standing.specs.Situations.{is_crowded};
ghost use Rattle.poa_history.specs.Verdicts as verdicts;
ghost use Rattle.core_standing.specs.Answers.{AnswersAs};
ghost use Rattle.core_standing.specs.Seen.{seen};
ghost use Rattle.core_settings.specs.Told.{SettingsAgree};

use crate::commands::command_verdict;
use crate::facts::facts_of;
use core_settings::Settings;
use core_standing::Standing;
use poa_base::{Call, Config, Verdict, WantMemory};
use poa_choose::{Choice, choose};
use std::alloc::Global;

/// The verdict of a choice; none where it holds the call.
fn chosen(choice: Choice) -> Option<Verdict>
    ensures { result ≡ verdicts.chosen choice }
{
    match choice {
        Choice::Go(verdict) => Some(verdict),
        Choice::Held { .. } => None,
    }
}

/// The verdict on a call for a worker, by what stands and what is set after the history in which it arrived;
/// none where it is held. CORBA 3.3 Part 1, section 15.2.3.
///
/// A request or a locate is `crowded` where too many stood unadmitted when it arrived; a line never is.
#[tactic(auto, unfolding(poa_history::specs::Verdicts::verdict))]
pub fn verdict_on(
    alloc: Global,
    config: &Config,
    run: u32,
    standing: &Standing,
    settings: &Settings,
    crowded: bool,
    call: &Call,
    worker: u32,
) -> Result<Option<Verdict>, WantMemory>
    ensures { (past : List Entry) (r : ℕ) → AnswersAs config.now run past (seen standing.now)
        → SettingsAgree config.now past settings.now
        → (is_message (Some call.now) ≡ true → crowded ≡ is_crowded past r)
        → call_of past r ≡ Some call.now
        → IfOk result (λ verdict. verdict ≡ verdicts.verdict config.now run past r worker) }
{
    match call {
        Call::Line { command, .. } => {
            command_verdict(alloc, config, run, standing, settings, command)
        }
        Call::Request { .. } | Call::Locate { .. } => {
            let facts = facts_of(alloc, config, run, standing, settings, crowded, call)?;
            Ok(chosen(choose(facts, worker)))
        }
    }
}
