//! The rows at the front of a text.
ghost use Rattle.std.specs.Prelude.{◌≡◌, ◌++◌, ◌+◌, ◌<◌, ◌≤◌, ◌^◌, IfErr, IfOk, None, length, map};
ghost use Rattle.poa_base.specs.Store.{states};
ghost use Rattle.text_words.specs.Cuts.{lines_of};
ghost use Rattle.text_words.specs.Token.{spelled};
ghost use Rattle.poa_journal.specs.Row.{row_tokens};
ghost use Rattle.poa_journal.specs.Shelving.{IsShelving, rows_in};
ghost use Rattle.poa_journal.specs.Whole.{JournalReads, front_seen, rows_front};

use crate::fault::JournalFault;
use crate::row::row_words;
use crate::shelving::Shelving;
use poa_base::Store;
use std::alloc::Global;
use text_words::{next_line, words};

/// The store of the rows at the front of a text, with the text behind them.
#[derive(Drop)]
pub struct Opening<'a> {
    /// What the rows store.
    pub store: Store,
    /// The number of the first line behind the rows.
    pub line: u64,
    /// The text from that line on.
    pub rest: &'a [u8],
}

/// The rows at the front of a text, whose first line has the number `first`: what stands in a journal behind its head
/// line. BadLine is the first row that is out of the grammar, or not above the one before it.
pub fn read_rows(alloc: Global, text: &[u8], first: u64) -> Result<Opening<'_>, JournalFault>
    requires { first + length text.now < 2 ^ 64 }
    ensures value { JournalReads front_seen result (rows_front first None (lines_of text.now)) }
    ensures text { IfOk result
        (λ front. lines_of text.now
        ≡ map spelled (map row_tokens (states front.store)) ++ lines_of front.rest.now) }
    ensures bound { IfOk result
        (λ front. front.line + length front.rest.now ≤ first + length text.now) }
{
    let mut rows = Shelving::new(alloc);
    let mut line = first;
    let mut rest = text;
    while let Some((next, after)) = next_line(rest) {
        let words = words(alloc, next)?;
        let Some(more) = row_words(words.as_slice()) else {
            return front_of(rows, line, rest);
        };
        rows.take(alloc, line, more)?;
        line += 1;
        rest = after;
    }
    front_of(rows, line, rest)
}

// The store of rows, with the text behind them.
fn front_of<'a>(rows: Shelving<'a>, line: u64, rest: &'a [u8]) -> Result<Opening<'a>, JournalFault>
    requires { IsShelving rows }
    ensures memory { IfErr result (λ fault. fault ≡ JournalFault.WantMemory) }
    ensures stores { IfOk result (λ front. states front.store ≡ rows_in rows.entry) }
    ensures rest { IfOk result (λ front. (front.line ≡ line) × (front.rest.now ≡ rest.now)) }
{
    let store = rows.into_store()?;
    Ok(Opening { store, line, rest })
}
