//! What is printed of an audit, and how it ends.
ghost use Rattle.std.specs.Prelude.{◌≡◌, IfOk, option_copied};
ghost use Rattle.poad_audit.specs.Printing.{EndsAudit, EndsLink, IsNumbered, due_line as due_line_of, illegal_line, legal_line, report_line, rule_word, session_line};

use journal_audit::{Matched, Report, Rule};
use poa_base::{Bytes, Entry, WantMemory};
use poa_journal::print_entry;
use poad_files::Status;
use std::alloc::Global;

/// The lines of what was found.
pub(crate) fn line_of(alloc: Global, report: &Report) -> Result<Bytes, WantMemory>
    ensures { IfOk result (λ line. line ≡ report_line report.now) }
{
    match &report.refusal {
        None => legal(alloc, report.entries, report.matched),
        Some(refusal) => illegal(alloc, refusal.entry, refusal.rule),
    }
}

fn legal(alloc: Global, entries: u64, matched: Option<Matched>) -> Result<Bytes, WantMemory>
    ensures { IfOk result (λ line. line ≡ legal_line entries matched) }
{
    let session = session_of(matched);
    let line = format!(in alloc; "legal {entries}\n{session}")?;
    Ok(Bytes::from_vec(line.into_bytes()))
}

fn session_of(matched: Option<Matched>) -> &'static str
    ensures { result.now ≡ session_line matched }
{
    let Some(matched) = matched else {
        return "";
    };
    if matched.is_session {
        "session yes\n"
    } else {
        "session no\n"
    }
}

fn illegal(alloc: Global, entry: u64, rule: Rule) -> Result<Bytes, WantMemory>
    ensures { IfOk result (λ line. line ≡ illegal_line entry rule) }
{
    let rule = word_of(rule);
    let line = format!(in alloc; "illegal {entry} {rule}\n")?;
    Ok(Bytes::from_vec(line.into_bytes()))
}

fn word_of(rule: Rule) -> &'static str
    ensures { result.now ≡ rule_word rule }
{
    match rule {
        Rule::Connection => "Connection",
        Rule::Collecting => "Collecting",
        Rule::Turn => "Turn",
        Rule::Worker => "Worker",
    }
}

/// The status of what was found.
pub(crate) fn status_of(alloc: Global, report: &Report) -> Result<Status, WantMemory>
    requires { IsNumbered report.now }
    ensures { IfOk result (λ status. EndsAudit status report.now) }
{
    match &report.refusal {
        None => Ok(ending_of(report.matched)),
        Some(refusal) => Ok(Status::Illegal {
            entry: refusal.entry,
            line: report.first_line + refusal.entry,
            due: due_line(alloc, refusal.due.as_ref())?,
        }),
    }
}

/// The status of what was found of a link, where all entries are legal.
fn ending_of(matched: Option<Matched>) -> Status
    ensures { EndsLink result matched }
{
    match matched {
        Some(
            Matched {
                conn,
                is_session: false,
            },
        ) => Status::NoMatch { conn },
        _ => Status::Ok,
    }
}

/// The line of the entry that would have been allowed, if there is one.
pub(crate) fn due_line(alloc: Global, due: Option<&Entry>) -> Result<Bytes, WantMemory>
    ensures { IfOk result (λ line. line ≡ due_line_of (option_copied due.entry)) }
{
    match due {
        None => Ok(Bytes::new(alloc)),
        Some(entry) => print_entry(alloc, entry),
    }
}
