//! `explain`: calls of a journal in a file.
ghost use Rattle.std.specs.Prelude.{◌≡◌, ◌≤◌, IfOk};
ghost use Rattle.outside.specs.Cause.{HasCause};
ghost use Rattle.outside.specs.Told.{IfTold};
ghost use Rattle.poa_policy.specs.Kept.{KeepsRules};
ghost use Rattle.poad_files.specs.Taking.{HoldsStill};
ghost use Rattle.poad_audit.specs.Explaining.{EndsExplain, ExplainsFiles, ExplainsJournal, HasLine, Tells, told_text, watch_text as watch_text_of};

use crate::auditing::JOURNAL_LIMIT;
use crate::object_text::object_text;
use crate::picture::picture_text;
use crate::printing::due_line;
use crate::story::calls_text;
use crate::table::table_text;
use journal_explain::{Explanation, Selection, Watch, explain_text};
use outside::{Files, Sink};
use poa_base::{Bytes, Config, WantMemory};
use poa_journal::JournalFault;
use poad_files::{Status, deliver, take, take_config};
use std::alloc::Global;

/// Explains the calls that are asked for by the journal in one file, which is one of a run of the configuration in another that
/// takes so many calls, and writes what happened to each: a line for the call, and one for each entry that says something of
/// it. Or it writes what came of all: a line for each outcome, with how many calls it has.
///
/// - `Ok`: all entries are legal.
/// - `Illegal`: this entry is the first that isn't. Nothing was written.
/// - `JournalRefused`: this line of the journal is the first that is none of a journal's.
/// - `NoFile`, `FileTooLong`, `FileFault`, `ConfigRefused`: a file wasn't taken, that of the configuration first, or holds no
///   configuration.
/// - `WriteFault`: a write to the sink failed in this call. A front of the lines was written.
/// - `WantMemory`: no memory was left.
///
/// No other status comes. Nothing was written where not said otherwise.
pub fn explain_files<K: Sink, F: Files>(
    alloc: Global,
    file: &str,
    journal: &str,
    asked: Selection,
    limit: u32,
    files: &mut F,
    sink: &mut K,
) -> Status
    requires { limit ≤ 4000000 }
    ensures explains { ExplainsFiles file.now journal.now limit asked result (F.contents files.old) (F.contents files.new)
        (K.held sink.old) (K.held sink.new) }
    ensures contents { IfTold (F.contents files.old) (F.contents files.new) HoldsStill }
    ensures file_fault { HasCause (F.take_faults files.old) (F.take_faults files.new) (result
        ≡ Status.FileFault) }
    ensures no_file { HasCause (F.absents files.old) (F.absents files.new) (result
        ≡ Status.NoFile) }
    ensures too_long { HasCause (F.long_ones files.old) (F.long_ones files.new) (result
        ≡ Status.FileTooLong) }
    ensures written { HasCause (K.write_faults sink.old) (K.write_faults sink.new) (result
        ≡ Status.WriteFault) }
{
    let config = match take_config(alloc, file, files) {
        Ok(config) => config,
        Err(status) => return status,
    };
    match take(journal, JOURNAL_LIMIT, files) {
        Ok(content) => explain(alloc, config, limit, content.as_slice(), asked, sink),
        Err(status) => status,
    }
}

// Explains calls by the journal of a text, and writes what is found.
fn explain<K: Sink>(
    alloc: Global,
    config: Config,
    limit: u32,
    text: &[u8],
    asked: Selection,
    sink: &mut K,
) -> Status
    requires rules { KeepsRules config }
    requires limit { limit ≤ 4000000 }
    ensures explains { ExplainsJournal config limit asked text.now result (K.held sink.old) (K.held sink.new) }
    ensures written { HasCause (K.write_faults sink.old) (K.write_faults sink.new) (result ≡ Status.WriteFault) }
{
    match explain_text(alloc, config, u64::from(limit), text, asked) {
        Ok(found) => tell(alloc, &found, sink),
        Err(JournalFault::BadLine { line }) => Status::JournalRefused { line },
        Err(JournalFault::WantMemory) => Status::WantMemory,
    }
}

// Writes what was found.
fn tell<K: Sink>(alloc: Global, found: &Explanation, sink: &mut K) -> Status
    requires { HasLine found.now }
    ensures tells { Tells found.now result (K.held sink.old) (K.held sink.new) }
    ensures written { HasCause (K.write_faults sink.old) (K.write_faults sink.new) (result ≡ Status.WriteFault) }
{
    let Ok(text) = text_of(alloc, found) else {
        return Status::WantMemory;
    };
    let Ok(status) = status_of(alloc, found) else {
        return Status::WantMemory;
    };
    if deliver(sink, text.as_slice()) {
        status
    } else {
        Status::WriteFault
    }
}

// The status of what was found.
fn status_of(alloc: Global, found: &Explanation) -> Result<Status, WantMemory>
    requires { HasLine found.now }
    ensures { IfOk result (λ status. EndsExplain status found.now) }
{
    match &found.refusal {
        None => Ok(Status::Ok),
        Some(refusal) => Ok(Status::Illegal {
            entry: refusal.entry,
            line: found.first_line + refusal.entry,
            due: due_line(alloc, refusal.due.as_ref())?,
        }),
    }
}

// What is told, where all entries are legal.
fn text_of(alloc: Global, found: &Explanation) -> Result<Bytes, WantMemory>
    ensures { IfOk result (λ text. text ≡ told_text found.now) }
{
    match &found.refusal {
        None => watch_text(alloc, found.first_line, &found.watch),
        Some(_) => Ok(Bytes::new(alloc)),
    }
}

// What is told of calls; the entries of their journal begin at this line.
fn watch_text(alloc: Global, line: u64, watch: &Watch) -> Result<Bytes, WantMemory>
    ensures { IfOk result (λ text. text ≡ watch_text_of line watch.now) }
{
    match &watch.asked {
        Selection::All => table_text(alloc, line, watch.came.as_slice()),
        Selection::Object { path, oid } => { object_text(alloc, line, path, oid, &watch.object) }
        Selection::Picture { from, to } => {
            picture_text(alloc, watch.trails.as_slice(), *from, *to)
        }
        Selection::Arrival(_) | Selection::Call { .. } => {
            calls_text(alloc, line, watch.trails.as_slice())
        }
    }
}
