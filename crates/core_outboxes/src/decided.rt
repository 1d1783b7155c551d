//! What an entry decides.
ghost use Rattle.std.specs.Prelude.{◌≡◌, true, false, IfOk, IsOk, Ok, None, option_copied};
ghost use Rattle.core_settings.specs.Told.{SettingsTell};
ghost use Rattle.core_outboxes.specs.Fixed as fixed;
ghost use Rattle.core_outboxes.specs.Decided.{DecidesNext};
ghost use Rattle.poa_base.specs.declared.Entry.{Entry};
ghost use Rattle.poa_history.specs.Replies as replies;

use crate::decision::Decision;
use crate::endings::{reply_admitted, reply_incarnated};
use crate::tried::reply_tried;
use core_settings::Settings;
use history_standing::Stage;
use poa_base::{Attempt, Call, Config, Entry, Outcome, Reply, Verdict, WantMemory};
use poa_history::workers::{arrival_in, brings};
use std::alloc::Global;

/// Whether a verdict is the end of a call.
fn is_final(verdict: &Verdict) -> bool
    ensures { result ≡ replies.is_final verdict.now }
{
    match verdict {
        Verdict::Refuse(_)
        | Verdict::Forward(_)
        | Verdict::Addressing
        | Verdict::Here
        | Verdict::Unknown
        | Verdict::Answer(_) => true,
        Verdict::Serve(_)
        | Verdict::Preset(_)
        | Verdict::Locator(_)
        | Verdict::Incarnate(_)
        | Verdict::Try
        | Verdict::Wait => false,
    }
}

/// Whether an entry is the end of the call that it speaks of. It may decide commands that wait in any case.
pub fn may_decide(entry: &Entry) -> bool
    ensures { result ≡ fixed.may_decide entry.now }
{
    match entry {
        Entry::Admit { verdict, .. } => is_final(verdict),
        Entry::Tried { answer, .. } => !matches!(answer, Attempt::Yes { .. }),
        Entry::Incarnated { answer, .. } => !brings(answer),
        Entry::Run { .. } => true,
        _ => false,
    }
}

/// The arrival that an entry speaks of.
fn target_in(stage: Stage, entry: &Entry) -> Option<u64>
    ensures { result ≡ fixed.target_in stage entry.now }
{
    match entry {
        Entry::Admit { arrival, .. } => Some(*arrival),
        _ => arrival_in(stage),
    }
}

/// The reply that an entry fixes for it.
fn reply_in(
    alloc: Global,
    config: &Config,
    entry: &Entry,
    call: Option<&Call>,
    settings: &Settings,
    outcome: Option<Outcome>,
) -> Result<Option<Reply>, WantMemory>
    ensures told { SettingsTell config.now settings.now (λ past. IfOk result (λ reply. reply
        ≡ fixed.reply_in config.now past (option_copied call.entry) outcome entry.now)) }
    ensures ends { fixed.may_decide entry.now ≡ true → fixed.may_want entry.now ≡ false
        → IsOk result }
{
    match entry {
        Entry::Admit { verdict, .. } => reply_admitted(alloc, call, verdict),
        Entry::Tried { answer, .. } => {
            Ok(Some(reply_tried(alloc, config, settings, call, answer)?))
        }
        Entry::Incarnated { answer, .. } => reply_incarnated(alloc, call, answer),
        Entry::Run { .. } => Ok(outcome.map(Reply::Outcome)),
        _ => Ok(None),
    }
}

/// What an entry decides of the arrival that it speaks of; `None` where it goes on with it, or speaks of none. Here
/// `stage` is what its worker had begun, `call` the call of that arrival, `settings` tells what was set, and
/// `outcome` is, at a Run, the one of the servant that runs. A command that waited has its reply `ok` of whatever
/// entry. `WantMemory`: no memory was left for the reply; a Run, and an entry that goes on with its call, never
/// answers it.
pub fn decision_of(
    alloc: Global,
    config: &Config,
    entry: &Entry,
    stage: Stage,
    call: Option<&Call>,
    settings: &Settings,
    outcome: Option<Outcome>,
) -> Result<Option<Decision>, WantMemory>
    ensures decides { DecidesNext config.now entry.now stage (option_copied call.entry)
        settings.now outcome result }
    ensures none { fixed.may_decide entry.now ≡ false → IfOk result (λ it. it ≡ None) }
    ensures ends { fixed.may_want entry.now ≡ false → IsOk result }
{
    if !may_decide(entry) {
        return Ok(None);
    }
    let Some(arrival) = target_in(stage, entry) else {
        return Ok(None);
    };
    let Some(reply) = reply_in(alloc, config, entry, call, settings, outcome)? else {
        return Ok(None);
    };
    Ok(Some(Decision { arrival, reply }))
}
