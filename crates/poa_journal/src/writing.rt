//! Whole texts printed.
ghost use Rattle.std.specs.Prelude.{◌≡◌, ◌∷◌, ◌++◌, [], IfOk, OnOk, map};
ghost use Rattle.poa_base.specs.Rows.{row_seen};
ghost use Rattle.poa_base.specs.Store.{states};
ghost use Rattle.journal_entries.specs.Rows.{seen};
ghost use Rattle.text_words.specs.Token.{spelled};
ghost use Rattle.poa_journal.specs.Entry.{entry_tokens};
ghost use Rattle.poa_journal.specs.Row.{row_tokens};
ghost use Rattle.poa_journal.specs.Journal.{head_tokens, journal_text, text_of};

use crate::entry::put_entry;
use crate::row::put_row;
use crate::value_words::Mark;
use journal_entries::{Entries, EntryView, Row as KeptRow};
use poa_base::{Bytes, Entry, Journal, Row, Store, WantMemory};
use std::alloc::Global;
use text_words::{Worded, put_number, put_word};

/// The text of a journal.
pub fn print(alloc: Global, journal: &Journal) -> Result<Bytes, WantMemory>
    ensures { IfOk result (λ text. text ≡ journal_text journal.now) }
{
    let mut out = front(alloc, journal.run, &journal.opening)?;
    put_entries(&mut out, journal.entries.as_slice())?;
    Ok(Bytes::from_vec(out))
}

/// The text of the journal that has these parts: the number of the run, what was stored when it began, and the
/// entries, the oldest first.
pub fn print_parts(
    alloc: Global,
    run: u32,
    opening: &Store,
    entries: &Entries,
) -> Result<Bytes, WantMemory>
    ensures { IfOk result
        (λ text. text ≡ journal_text
        (record { run = run; opening = opening.now; entries = entries.now.items })) }
{
    let mut out = front(alloc, run, opening)?;
    put_kept(&mut out, entries)?;
    Ok(Bytes::from_vec(out))
}

/// The head line, and the rows of what was stored when the run began.
fn front(alloc: Global, run: u32, opening: &Store) -> Result<Vec<u8>, WantMemory>
    ensures { IfOk result
        (λ out. out.items ≡ text_of (head_tokens run ∷ map row_tokens (states opening.now))) }
{
    let mut out = head_line(alloc, run)?;
    let rows = opening.rows()?;
    put_rows(&mut out, rows.as_slice())?;
    Ok(out)
}

/// The line of an entry, without its LF.
pub fn print_entry(alloc: Global, entry: &Entry) -> Result<Bytes, WantMemory>
    ensures { IfOk result (λ line. line ≡ spelled (entry_tokens entry.now)) }
{
    let mut out = Vec::new(alloc);
    put_entry(&mut out, entry)?;
    Ok(Bytes::from_vec(out))
}

fn head_line(alloc: Global, run: u32) -> Result<Vec<u8>, WantMemory>
    ensures { IfOk result (λ out. out.items ≡ text_of (head_tokens run ∷ [])) }
{
    let mut out = Vec::from_slice(alloc, Mark::Journal.word())?;
    put_word(&mut out, Mark::One.word())?;
    put_word(&mut out, Mark::Run.word())?;
    put_number(&mut out, u64::from(run))?;
    out.push(b'\n')?;
    Ok(out)
}

pub(crate) fn put_rows(out: &mut Vec<u8>, rows: &[Row]) -> Result<(), WantMemory>
    ensures { OnOk result
        (out.new.items ≡ out.old.items ++ text_of (map row_tokens (map row_seen rows.entry.now))) }
{
    for row in rows {
        put_row(out, *row)?;
        out.push(b'\n')?;
    }
    Ok(())
}

fn put_entries(out: &mut Vec<u8>, entries: &[Entry]) -> Result<(), WantMemory>
    ensures { OnOk result
        (out.new.items ≡ out.old.items ++ text_of (map entry_tokens entries.now)) }
{
    for entry in entries {
        put_entry(out, entry)?;
        out.push(b'\n')?;
    }
    Ok(())
}

fn put_kept(out: &mut Vec<u8>, entries: &Entries) -> Result<(), WantMemory>
    ensures { OnOk result
        (out.new.items ≡ out.old.items ++ text_of (map entry_tokens entries.now.items)) }
{
    for place in 0..entries.len() {
        if let Some(view) = entries.get(place) {
            put_line(out, view)?;
        }
    }
    Ok(())
}

fn put_line(out: &mut Vec<u8>, view: EntryView<'_>) -> Result<(), WantMemory>
    ensures { OnOk result
        (out.new.items ≡ out.old.items ++ text_of (entry_tokens (seen view.entry) ∷ [])) }
{
    match view {
        KeptRow::Whole(entry) => put_entry(out, entry)?,
        _ => put_copy(out, view.to_entry()?)?,
    }
    out.push(b'\n')?;
    Ok(())
}

fn put_copy(out: &mut Vec<u8>, entry: Entry) -> Result<(), WantMemory>
    ensures { OnOk result (out.new.items ≡ out.old.items ++ spelled (entry_tokens entry)) }
{
    put_entry(out, &entry)
}
