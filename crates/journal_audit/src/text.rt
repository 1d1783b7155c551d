//! A journal's text, audited.
ghost use Rattle.std.specs.Prelude.{◌≡◌, ◌+◌, ◌<◌, ◌≤◌, ◌^◌, [], IfSome, length};
ghost use Rattle.poa_policy.specs.Kept.{KeepsRules};
ghost use Rattle.journal_audit.specs.Auditing.{HasTaken};
ghost use Rattle.journal_audit.specs.Looking.{Watches};
ghost use Rattle.journal_audit.specs.Matching.{IsShort};
ghost use Rattle.journal_audit.specs.Texts.{AuditsFront, AuditsLines, AuditsText, HasRoom, ReadsFront};

use crate::front::Front;
use crate::lines::take_lines;
use crate::link::Link;
use crate::matched::Matched;
use crate::refusal::Refusal;
use crate::report::Report;
use crate::watch::Watch;
use poa_base::Config;
use poa_journal::{JournalFault, read_head, read_rows};
use std::alloc::Global;
use text_words::next_line;

/// Audits the journal of a text, as one of a run of this configuration, which keeps its rules, that takes so many calls. The
/// run's number and what was stored before it are the journal's own. The text is read entry by entry. Where all entries are
/// legal, and a link is asked for, tells whether its bytes are what the journal says of its connection: a session that
/// ended well. `BadLine`: this line is the first that is none of a journal's.
pub fn audit_text(
    alloc: Global,
    config: Config,
    limit: u64,
    text: &[u8],
    link: Option<Link<'_>>,
) -> Result<Report, JournalFault>
    requires rules { KeepsRules config }
    requires limit { limit ≤ 4000000 }
    requires short { IfSome link IsShort }
    ensures { AuditsText config limit text.now link.entry result }
{
    match read_front(alloc, text) {
        Ok(front) => audit_entries(alloc, config, limit, front, link),
        Err(fault) => Err(fault),
    }
}

/// The head of a text, and the rows behind it.
fn read_front(alloc: Global, text: &[u8]) -> Result<Front<'_>, JournalFault>
    ensures { ReadsFront text.now result }
{
    let Some((head, rest)) = next_line(text) else {
        return Err(JournalFault::BadLine { line: 1 });
    };
    let run = read_head(alloc, head)?;
    let opening = read_rows(alloc, rest, 2)?;
    Ok(Front { run, opening })
}

/// Audits the entries behind them.
fn audit_entries(
    alloc: Global,
    config: Config,
    limit: u64,
    front: Front<'_>,
    link: Option<Link<'_>>,
) -> Result<Report, JournalFault>
    requires rules { KeepsRules config }
    requires limit { limit ≤ 4000000 }
    requires room { HasRoom front }
    requires short { IfSome link IsShort }
    ensures { AuditsFront config limit link.entry front.entry result }
{
    let Front { run, opening } = front;
    let first_line = opening.line;
    let mut watch = Watch::new(alloc, config, run, opening.store, limit, link)?;
    let audited = audit_lines(alloc, &mut watch, first_line, opening.rest);
    let refusal = refusal_of(watch);
    let (entries, matched) = audited?;
    Ok(Report {
        entries,
        first_line,
        refusal,
        matched,
    })
}

/// Audits the entries of lines, the first of which has this number. How many there are, and what is found of the link.
fn audit_lines(
    alloc: Global,
    watch: &mut Watch<'_>,
    first: u64,
    text: &[u8],
) -> Result<(u64, Option<Matched>), JournalFault>
    requires room { first + length text.now < 2 ^ 64 }
    requires begins { HasTaken [] watch.old.auditor }
    requires watches { Watches watch.old }
    ensures { AuditsLines first text.now watch.old result watch.new }
{
    let entries = take_lines(alloc, watch, first, text)?;
    watch.auditor.run.keeps_laws();
    let matched = watch.matched()?;
    Ok((entries, matched))
}

/// What an auditor found; all else is let go.
fn refusal_of(watch: Watch<'_>) -> Option<Refusal>
    ensures { result ≡ watch.entry.auditor.refusal }
{
    let Watch { auditor, .. } = watch;
    auditor.refusal
}
