//! Whole texts read.
ghost use Rattle.std.specs.Prelude.{◌≡◌, ◌+◌, ◌<◌, ◌^◌, IfOk, length, map, take, ℕ};
ghost use Rattle.text_words.specs.Cuts.{lines_of, words_of};
ghost use Rattle.text_words.specs.WordGives.{WordGives};
ghost use Rattle.text_words.specs.Token.{spelled, texts};
ghost use Rattle.poa_journal.specs.Entry.{entry_tokens};
ghost use Rattle.poa_journal.specs.Journal.{head_tokens, journal_lines, journal_text, IsJournal};
ghost use Rattle.poa_journal.specs.Reading.{entry_of};
ghost use Rattle.poa_journal.specs.Whole.{JournalReads, contents, contents_of, entries_of, entry_at as entry_at_of, head_of, run_of};

use crate::entry::read_entry;
use crate::fault::JournalFault;
use crate::rows::read_rows;
use crate::value_words::{Mark, expect};
use poa_base::{Entry, Items, Journal};
use std::alloc::Global;
use text_words::{WordFault, next_line, number32, words};

/// The journal of a text. The last LF may be missing.
pub fn read(alloc: Global, bytes: &[u8]) -> Result<Journal, JournalFault>
    ensures value { JournalReads contents result (contents_of bytes.now) }
    ensures text { IfOk result
        (λ journal. lines_of bytes.now ≡ map spelled (journal_lines journal)) }
    ensures bad { (line : ℕ) → result ≡ Err (JournalFault.BadLine line) → (journal : Journal)
        → IsJournal journal
        → take line (lines_of bytes.now) ≡ take line (map spelled (journal_lines journal)) → ⊥ }
    ensures back { (journal : Journal) → IsJournal journal → bytes.now ≡ journal_text journal
        → JournalReads contents result (Ok (contents journal)) }
{
    read_lines(alloc, bytes)
}

fn read_lines(alloc: Global, bytes: &[u8]) -> Result<Journal, JournalFault>
    ensures value { JournalReads contents result (contents_of bytes.now) }
    ensures text { IfOk result
        (λ journal. lines_of bytes.now ≡ map spelled (journal_lines journal)) }
{
    let Some((head, rest)) = next_line(bytes) else {
        return Err(JournalFault::BadLine { line: 1 });
    };
    let run = read_head(alloc, head)?;
    let front = read_rows(alloc, rest, 2)?;
    let entries = read_entries(alloc, front.rest, front.line)?;
    Ok(Journal {
        run,
        opening: front.store,
        entries,
    })
}

/// The number of the run by a journal's head line, which is line 1.
pub fn read_head(alloc: Global, line: &[u8]) -> Result<u32, JournalFault>
    ensures value { JournalReads (λ run. run) result (head_of (words_of line.now)) }
    ensures text { IfOk result (λ run. line.now ≡ spelled (head_tokens run)) }
{
    let words = words(alloc, line)?;
    match read_run(words.as_slice()) {
        Ok(run) => Ok(run),
        Err(WordFault::OutOfForm) => Err(JournalFault::BadLine { line: 1 }),
        Err(WordFault::WantMemory) => Err(JournalFault::WantMemory),
    }
}

fn read_run(words: &[&[u8]]) -> Result<u32, WordFault>
    ensures value { WordGives result (run_of (map (λ w. w.now) words.now)) }
    ensures text { IfOk result (λ run. map (λ w. w.now) words.now ≡ texts (head_tokens run)) }
{
    let [journal, one, run, number] = words else {
        return Err(WordFault::OutOfForm);
    };
    expect(Mark::Journal, journal)?;
    expect(Mark::One, one)?;
    expect(Mark::Run, run)?;
    number32(number)
}

// The entries from line `first` on.
fn read_entries(alloc: Global, text: &[u8], first: u64) -> Result<Items<Entry>, JournalFault>
    requires { first + length text.now < 2 ^ 64 }
    ensures value { JournalReads (λ entries. entries) result
        (entries_of first (lines_of text.now)) }
    ensures text { IfOk result
        (λ entries. lines_of text.now ≡ map spelled (map entry_tokens entries)) }
{
    let mut entries = Vec::new(alloc);
    let mut line = first;
    let mut rest = text;
    while let Some((front, after)) = next_line(rest) {
        let entry = entry_at(alloc, line, front)?;
        entries.push(entry)?;
        line += 1;
        rest = after;
    }
    Ok(Items::from_vec(entries))
}

/// The entry of the line with this number, which is told where it is out of the grammar.
pub fn entry_at(alloc: Global, number: u64, line: &[u8]) -> Result<Entry, JournalFault>
    ensures value { JournalReads (λ entry. entry) result
        (entry_at_of number (entry_of (words_of line.now))) }
    ensures text { IfOk result (λ entry. line.now ≡ spelled (entry_tokens entry)) }
{
    let words = words(alloc, line)?;
    match read_entry(alloc, words.as_slice()) {
        Ok(entry) => Ok(entry),
        Err(WordFault::OutOfForm) => Err(JournalFault::BadLine { line: number }),
        Err(WordFault::WantMemory) => Err(JournalFault::WantMemory),
    }
}
