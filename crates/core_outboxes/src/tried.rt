//! The reply to a call whose adapter was to be created.
ghost use Rattle.std.specs.Prelude.{◌≡◌, option_copied, IfOk};
ghost use Rattle.core_settings.specs.Told.{SettingsTell};
ghost use Rattle.history_standing.specs.Keys.{key_in as key_of_call};
ghost use Rattle.poa_history.specs.Replies as replies;
ghost use Rattle.history_standing.specs.Situations.{key_or_none};
ghost use Rattle.core_outboxes.specs.Unmade.{reply_tried as tried_in, reply_unmade as unmade};

use crate::exceptions::{ACTIVATOR_RAISED, ADAPTER_DYING, NOT_EXIST, raised_to};
use crate::forwards::forwarded_to;
use core_settings::{Settings, forward_of};
use core_standing::keys::key_in;
use poa_base::{Attempt, Call, Config, Name, Path, Reply, WantMemory};
use std::alloc::Global;

/// No child was made: the endpoint of the path is told, and else the object doesn't exist.
fn reply_unmade(
    alloc: Global,
    config: &Config,
    settings: &Settings,
    call: Option<&Call>,
    path: &[Name],
) -> Result<Reply, WantMemory>
    ensures { IfOk result
        (λ reply. reply ≡ unmade config.now settings.now (option_copied call.entry) path.now) }
{
    match forward_of(config, settings, path) {
        Some(endpoint) => forwarded_to(alloc, call, endpoint),
        None => Ok(raised_to(call, NOT_EXIST)),
    }
}

/// The path of the key of a call, copied; the root's where there is none.
fn path_asked(alloc: Global, call: Option<&Call>) -> Result<Path, WantMemory>
    ensures { IfOk result
        (λ path. path ≡ (key_or_none (key_of_call (option_copied call.entry))).path) }
{
    match key_in(call) {
        Some(key) => key.path().to_path(alloc),
        None => Ok(Path::root(alloc)),
    }
}

/// The reply where no child was made, for the key of the call.
fn reply_without_child(
    alloc: Global,
    config: &Config,
    settings: &Settings,
    call: Option<&Call>,
) -> Result<Reply, WantMemory>
    ensures { IfOk result
        (λ reply. reply ≡ unmade config.now settings.now (option_copied call.entry)
        (key_or_none (key_of_call (option_copied call.entry))).path) }
{
    let path = path_asked(alloc, call)?;
    reply_unmade(alloc, config, settings, call, path.as_slice())
}

/// The reply that the adapter activator's answer fixes, as the settings tell it.
fn reply_told(
    alloc: Global,
    config: &Config,
    settings: &Settings,
    call: Option<&Call>,
    answer: &Attempt,
) -> Result<Reply, WantMemory>
    ensures { IfOk result
        (λ reply. reply ≡ tried_in config.now settings.now (option_copied call.entry) answer.now) }
{
    match answer {
        Attempt::Raised => Ok(raised_to(call, ACTIVATOR_RAISED)),
        Attempt::Dying => Ok(raised_to(call, ADAPTER_DYING)),
        Attempt::Yes { .. } | Attempt::No => reply_without_child(alloc, config, settings, call),
    }
}

/// The reply that the adapter activator's answer fixes, where the settings are those after the history: with no
/// child the client is told the endpoint of the key's path, if it has one. `WantMemory`: none was left for it.
pub fn reply_tried(
    alloc: Global,
    config: &Config,
    settings: &Settings,
    call: Option<&Call>,
    answer: &Attempt,
) -> Result<Reply, WantMemory>
    ensures { SettingsTell config.now settings.now (λ past. IfOk result (λ reply. reply
        ≡ replies.reply_tried config.now past (option_copied call.entry) answer.now)) }
{
    reply_told(alloc, config, settings, call, answer)
}
