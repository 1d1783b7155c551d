//! The words of `explain`.
ghost use Rattle.std.specs.Prelude.{◌≡◌, ◌≤◌, IfOk, Err, Some, None, map, string_bytes};
ghost use Rattle.command_words.specs.declared.fault.WordsFault.TheVariants.{BadWords};
ghost use Rattle.command_words.specs.Explaining.{explain_behind, explain_of, seen_explain};
ghost use Rattle.command_words.specs.Settings.{seen_setting};

use crate::asking::calls_asked;
use crate::audit_words::two_of;
use crate::calls_asked::CallsAsked;
use crate::fault::WordsFault;
use crate::optioned::Optioned;
use crate::serving::limit_of;
use crate::setting::Setting;
use crate::settings::read_settings;
use crate::values::{optional, values};
use std::alloc::Global;

/// What words ask of the calls of a journal.
#[derive(Drop)]
pub struct ExplainWords<'a> {
    /// The name of the file with the configuration of the journal's run.
    pub config: &'a str,
    /// The name of the journal's file.
    pub journal: &'a str,
    pub calls: CallsAsked,
    /// How many calls the run takes: 1 to 4,000,000.
    pub limit: u32,
}

/// What the words behind `explain` ask for: `FILE JOURNAL`, at most one of `--arrival A`, `--call C ID`, `--object PATH OID` and
/// `--picture [--from E] [--to E]`, and `[--limit N]`, the options in any place, each at most once.
pub(crate) fn explain_words<'a>(
    alloc: Global,
    words: &'a [String],
) -> Result<ExplainWords<'a>, WordsFault>
    ensures ok { IfOk result (λ asked. explain_behind (map string_bytes words.now)
        ≡ Some (seen_explain asked)) }
    ensures limit { IfOk result (λ asked. (1 ≤ asked.limit) × (asked.limit ≤ 4000000)) }
    ensures bad { result ≡ Err BadWords → explain_behind (map string_bytes words.now) ≡ None }
{
    let settings = read_settings(alloc, Optioned::Explain, words)?;
    explain_by(alloc, settings.as_slice())
}

// The same of the settings that the words give.
fn explain_by<'a>(alloc: Global, settings: &[Setting<'a>]) -> Result<ExplainWords<'a>, WordsFault>
    ensures ok { IfOk result (λ asked. explain_of (map seen_setting settings.now)
        ≡ Some (seen_explain asked)) }
    ensures limit { IfOk result (λ asked. (1 ≤ asked.limit) × (asked.limit ≤ 4000000)) }
    ensures bad { result ≡ Err BadWords → explain_of (map seen_setting settings.now) ≡ None }
{
    let arguments = values(alloc, settings, "")?;
    let (config, journal) = two_of(arguments.as_slice())?;
    let limit = limit_of(optional(settings, "--limit")?)?;
    let calls = calls_asked(alloc, settings)?;
    Ok(ExplainWords {
        config,
        journal,
        calls,
        limit,
    })
}
