//! Stores as text, as state files have them.
ghost use Rattle.std.specs.Prelude.{◌≡◌, IfOk, map, take, ℕ, Result, Ok};
ghost use Rattle.poa_base.specs.Store.{Slots, states};
ghost use Rattle.text_words.specs.Cuts.{lines_of};
ghost use Rattle.text_words.specs.Token.{spelled};
ghost use Rattle.poa_journal.specs.Journal.{IsStore, store_lines, store_text};
ghost use Rattle.poa_journal.specs.Whole.{JournalReads, rows_of};

use crate::fault::JournalFault;
use crate::rows::read_rows;
use crate::writing::put_rows;
use poa_base::{Bytes, Store, WantMemory};
use std::alloc::Global;
use text_words::next_line;

/// The text of a store: a line for each state, by path and then by id.
pub fn print_store(alloc: Global, store: &Store) -> Result<Bytes, WantMemory>
    ensures { IfOk result (λ text. text ≡ store_text store.now) }
{
    let rows = store.rows()?;
    let mut out = Vec::new(alloc);
    put_rows(&mut out, rows.as_slice())?;
    Ok(Bytes::from_vec(out))
}

/// The store of a text, the empty one of an empty text. The last LF may be missing.
pub fn read_store(alloc: Global, bytes: &[u8]) -> Result<Store, JournalFault>
    ensures value { JournalReads states result (rows_of bytes.now) }
    ensures text { IfOk result (λ store. lines_of bytes.now ≡ map spelled (store_lines store)) }
    ensures bad { (line : ℕ) → result ≡ Err (JournalFault.BadLine line) → (store : Slots)
        → IsStore store
        → take line (lines_of bytes.now) ≡ take line (map spelled (store_lines store)) → ⊥ }
    ensures back { (store : Slots) → IsStore store → bytes.now ≡ store_text store
        → JournalReads states result (Ok (states store)) }
{
    read_all(alloc, bytes)
}

fn read_all(alloc: Global, bytes: &[u8]) -> Result<Store, JournalFault>
    ensures value { JournalReads states result (rows_of bytes.now) }
    ensures text { IfOk result (λ store. lines_of bytes.now ≡ map spelled (store_lines store)) }
{
    let front = read_rows(alloc, bytes, 1)?;
    match next_line(front.rest) {
        None => Ok(front.store),
        Some(_) => Err(JournalFault::BadLine { line: front.line }),
    }
}
