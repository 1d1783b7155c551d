//! `audit`: a journal in a file, and the bytes of a link in two.
ghost use Rattle.std.specs.Prelude.{◌≡◌, ◌≤◌, IfSome, option_map};
ghost use Rattle.outside.specs.Cause.{HasCause};
ghost use Rattle.outside.specs.Told.{IfTold};
ghost use Rattle.command_words.specs.Auditing.{seen_audit, seen_link};
ghost use Rattle.journal_audit.specs.Matching.{IsShort};
ghost use Rattle.poa_policy.specs.Kept.{KeepsRules};
ghost use Rattle.poad_files.specs.Taking.{HoldsStill};
ghost use Rattle.poad_audit.specs.Auditing.{AuditsBytes, AuditsFiles, AuditsJournal, Tells};
ghost use Rattle.poad_audit.specs.Linking.{Untaken, refusal_of};
ghost use Rattle.poad_audit.specs.Printing.{IsNumbered};

use crate::linking::take_link;
use crate::printing::{line_of, status_of};
use command_words::{AuditWords, LinkWords};
use journal_audit::{Link, Report, audit_text};
use outside::{Files, Sink};
use poa_base::Config;
use poa_journal::JournalFault;
use poad_files::{Status, deliver, take, take_config};
use std::alloc::Global;

/// The bytes that a journal has at most.
pub(crate) const JOURNAL_LIMIT: u64 = 268_435_456;

/// Audits the journal in one file, as one of a run of the configuration in another that takes so many calls, and writes
/// what is found: `legal N`, N being how many entries it has, or `illegal K RULE`, of the first entry that may not follow
/// the ones before it, counted from 0. Where all are legal and a link is asked for, `session yes` or `session no` stands in
/// a line behind that: whether what was read and written over it, by two files more, is what the journal says.
pub fn audit_files<K: Sink, F: Files>(
    alloc: Global,
    asked: AuditWords<'_>,
    files: &mut F,
    sink: &mut K,
) -> Status
    requires { asked.limit ≤ 4000000 }
    ensures audits { AuditsFiles (seen_audit asked.entry) result (F.contents files.old)
        (F.contents files.new) (K.held sink.old)
        (K.held sink.new) }
    ensures contents { IfTold (F.contents files.old) (F.contents files.new) HoldsStill }
    ensures file_fault { HasCause (F.take_faults files.old) (F.take_faults files.new) (result
        ≡ Status.FileFault) }
    ensures no_file { HasCause (F.absents files.old) (F.absents files.new) (result
        ≡ Status.NoFile) }
    ensures too_long { HasCause (F.long_ones files.old) (F.long_ones files.new) (result
        ≡ Status.FileTooLong) }
    ensures written { HasCause (K.write_faults sink.old) (K.write_faults sink.new) (result
        ≡ Status.WriteFault) }
{
    let config = match take_config(alloc, asked.config, files) {
        Ok(config) => config,
        Err(status) => return status,
    };
    match take(asked.journal, JOURNAL_LIMIT, files) {
        Ok(content) => {
            let text = content.as_slice();
            audit_journal(alloc, config, asked.limit, text, asked.link, files, sink)
        }
        Err(status) => status,
    }
}

// Audits the journal of a text, with the link whose files these are, and writes what is found.
fn audit_journal<K: Sink, F: Files>(
    alloc: Global,
    config: Config,
    limit: u32,
    text: &[u8],
    names: Option<LinkWords<'_>>,
    files: &mut F,
    sink: &mut K,
) -> Status
    requires rules { KeepsRules config }
    requires limit { limit ≤ 4000000 }
    ensures audits { AuditsJournal config limit text.now (option_map seen_link names.entry) result
        (F.contents files.old)
        (F.contents files.new) (K.held sink.old) (K.held sink.new) }
    ensures contents { IfTold (F.contents files.old) (F.contents files.new) HoldsStill }
    ensures file_fault { HasCause (F.take_faults files.old) (F.take_faults files.new) (result
        ≡ Status.FileFault) }
    ensures no_file { HasCause (F.absents files.old) (F.absents files.new) (result
        ≡ Status.NoFile) }
    ensures too_long { HasCause (F.long_ones files.old) (F.long_ones files.new) (result
        ≡ Status.FileTooLong) }
    ensures written { HasCause (K.write_faults sink.old) (K.write_faults sink.new) (result
        ≡ Status.WriteFault) }
{
    let Some(names) = names else {
        return audit(alloc, config, limit, text, None, sink);
    };
    match take_link(names, files) {
        Ok((input, output)) => {
            let link = Link::new(names.conn, input.as_slice(), output.as_slice());
            audit(alloc, config, limit, text, Some(link), sink)
        }
        Err(status) => untaken(alloc, config, limit, text, status),
    }
}

// The status where a file of the link isn't taken: that the text is no journal comes first.
fn untaken(alloc: Global, config: Config, limit: u32, text: &[u8], status: Status) -> Status
    requires rules { KeepsRules config }
    requires limit { limit ≤ 4000000 }
    ensures { Untaken text.now status result }
{
    match audit_text(alloc, config, u64::from(limit), text, None) {
        Ok(_) => status,
        Err(fault) => refusal(fault),
    }
}

// Audits the journal of a text, and writes what is found.
fn audit<K: Sink>(
    alloc: Global,
    config: Config,
    limit: u32,
    text: &[u8],
    link: Option<Link<'_>>,
    sink: &mut K,
) -> Status
    requires rules { KeepsRules config }
    requires limit { limit ≤ 4000000 }
    requires short { IfSome link IsShort }
    ensures audits { AuditsBytes config limit text.now link.entry result (K.held sink.old)
        (K.held sink.new) }
    ensures written { HasCause (K.write_faults sink.old) (K.write_faults sink.new) (result
        ≡ Status.WriteFault) }
{
    match audit_text(alloc, config, u64::from(limit), text, link) {
        Ok(report) => tell(alloc, &report, sink),
        Err(fault) => refusal(fault),
    }
}

// The status of a text that isn't read as a journal.
fn refusal(fault: JournalFault) -> Status
    ensures { result ≡ refusal_of fault }
{
    match fault {
        JournalFault::BadLine { line } => Status::JournalRefused { line },
        JournalFault::WantMemory => Status::WantMemory,
    }
}

// Writes what was found.
fn tell<K: Sink>(alloc: Global, report: &Report, sink: &mut K) -> Status
    requires { IsNumbered report.now }
    ensures tells { Tells report.now result (K.held sink.old) (K.held sink.new) }
    ensures written { HasCause (K.write_faults sink.old) (K.write_faults sink.new) (result
        ≡ Status.WriteFault) }
{
    let Ok(line) = line_of(alloc, report) else {
        return Status::WantMemory;
    };
    let Ok(status) = status_of(alloc, report) else {
        return Status::WantMemory;
    };
    if deliver(sink, line.as_slice()) {
        status
    } else {
        Status::WriteFault
    }
}
