//! The words of `audit`.
ghost use Rattle.std.specs.Prelude.{◌≡◌, ◌≤◌, IfOk, Err, Some, None, map, option_map, string_bytes};
ghost use Rattle.command_words.specs.declared.fault.WordsFault.TheVariants.{BadWords};
ghost use Rattle.command_words.specs.Arguments.{exactly_two};
ghost use Rattle.command_words.specs.Auditing as spec;
ghost use Rattle.command_words.specs.Auditing.{audit_behind, audit_of, seen_audit, seen_link};
ghost use Rattle.command_words.specs.Settings.{seen_setting};

use crate::fault::WordsFault;
use crate::link_words::LinkWords;
use crate::numbers::number_in;
use crate::optioned::Optioned;
use crate::serving::limit_of;
use crate::setting::Setting;
use crate::settings::read_settings;
use crate::values::{optional, values};
use std::alloc::Global;

/// The audit of a journal that words ask for.
#[derive(Clone, Copy)]
pub struct AuditWords<'a> {
    /// The name of the file with the configuration of the journal's run.
    pub config: &'a str,
    /// The name of the journal's file.
    pub journal: &'a str,
    /// How many calls the run takes: 1 to 4,000,000.
    pub limit: u32,
    /// The link of it, if one is asked for.
    pub link: Option<LinkWords<'a>>,
}

/// The audit that the words behind `audit` ask for: `FILE JOURNAL [--limit N] [--conn C --in NAME --out NAME]`, the options in
/// any place, each at most once, and of the last three all or none.
pub(crate) fn audit_words<'a>(
    alloc: Global,
    words: &'a [String],
) -> Result<AuditWords<'a>, WordsFault>
    ensures ok { IfOk result (λ audit. audit_behind (map string_bytes words.now)
        ≡ Some (seen_audit audit)) }
    ensures limit { IfOk result (λ audit. (1 ≤ audit.limit) × (audit.limit ≤ 4000000)) }
    ensures bad { result ≡ Err BadWords → audit_behind (map string_bytes words.now) ≡ None }
{
    let settings = read_settings(alloc, Optioned::Audit, words)?;
    audit_by(alloc, settings.as_slice())
}

// The same of the settings that the words give.
fn audit_by<'a>(alloc: Global, settings: &[Setting<'a>]) -> Result<AuditWords<'a>, WordsFault>
    ensures ok { IfOk result (λ audit. audit_of (map seen_setting settings.now)
        ≡ Some (seen_audit audit)) }
    ensures limit { IfOk result (λ audit. (1 ≤ audit.limit) × (audit.limit ≤ 4000000)) }
    ensures bad { result ≡ Err BadWords → audit_of (map seen_setting settings.now) ≡ None }
{
    let arguments = values(alloc, settings, "")?;
    let (config, journal) = two_of(arguments.as_slice())?;
    let limit = limit_of(optional(settings, "--limit")?)?;
    let conn = optional(settings, "--conn")?;
    let input = optional(settings, "--in")?;
    let output = optional(settings, "--out")?;
    let link = link_of(conn, input, output)?;
    Ok(AuditWords {
        config,
        journal,
        limit,
        link,
    })
}

// The link of all three options, or none.
fn link_of<'a>(
    conn: Option<&str>,
    input: Option<&'a str>,
    output: Option<&'a str>,
) -> Result<Option<LinkWords<'a>>, WordsFault>
    ensures ok { IfOk result (λ link.
        spec.link_of (option_map (λ w. w.now) conn.entry) (option_map (λ w. w.now) input.entry)
        (option_map (λ w. w.now) output.entry) ≡ Some (option_map seen_link link)) }
    ensures bad { result ≡ Err BadWords →
        spec.link_of (option_map (λ w. w.now) conn.entry) (option_map (λ w. w.now) input.entry)
        (option_map (λ w. w.now) output.entry) ≡ None }
{
    match (conn, input, output) {
        (None, None, None) => Ok(None),
        (Some(conn), Some(input), Some(output)) => {
            let conn = number_in(conn, 0, u32::MAX)?;
            Ok(Some(LinkWords {
                conn,
                input,
                output,
            }))
        }
        _ => Err(WordsFault::BadWords),
    }
}

/// The arguments, where there are two.
pub(crate) fn two_of<'a>(arguments: &[&'a str]) -> Result<(&'a str, &'a str), WordsFault>
    ensures ok { IfOk result (λ files. exactly_two (Some (map (λ a. a.now) arguments.now))
        ≡ Some (files.0.now, files.1.now)) }
    ensures bad { result ≡ Err BadWords → exactly_two (Some (map (λ a. a.now) arguments.now))
        ≡ None }
{
    match arguments {
        [config, journal] => Ok((*config, *journal)),
        _ => Err(WordsFault::BadWords),
    }
}
