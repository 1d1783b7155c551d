//! The lines of a journal's entries, heard one by one.
ghost use Rattle.std.specs.Prelude.{◌≡◌, ◌+◌, ◌<◌, ◌^◌, [], length};
ghost use Rattle.journal_audit.specs.Auditing.{HasTaken};
ghost use Rattle.journal_explain.specs.Explaining.{HearsLines, Sees};

use crate::explainer::Explainer;
use poa_base::Entry;
use poa_journal::{JournalFault, entry_at};
use std::alloc::Global;
use text_words::next_line;

/// Has the entries of a text heard, whose first line has the number `first`, and tells how many there are. Behind an entry
/// that isn't legal the rest is still read, for a line that is none of a journal's comes first.
pub(crate) fn hear_lines(
    alloc: Global,
    explainer: &mut Explainer,
    first: u64,
    text: &[u8],
) -> Result<u64, JournalFault>
    requires room { first + length text.now < 2 ^ 64 }
    requires begins { HasTaken [] explainer.old.auditor }
    requires sees { Sees explainer.old }
    ensures { HearsLines first text.now explainer.old result explainer.new }
{
    let mut line = first;
    let mut rest = text;
    while let Some((front, after)) = next_line(rest) {
        let entry = entry_at(alloc, line, front)?;
        explainer.take(entry)?;
        line += 1;
        rest = after;
    }
    Ok(line - first)
}
