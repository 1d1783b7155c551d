//! The lines of a journal's entries, audited one by one.
ghost use Rattle.std.specs.Prelude.{◌≡◌, ◌+◌, ◌<◌, ◌^◌, [], length};
ghost use Rattle.journal_audit.specs.Auditing.{HasTaken};
ghost use Rattle.journal_audit.specs.Looking.{Watches};
ghost use Rattle.journal_audit.specs.Texts.{TakesLines};

use crate::watch::Watch;
use poa_base::Entry;
use poa_journal::{JournalFault, entry_at};
use std::alloc::Global;
use text_words::next_line;

/// Shows the entries of a text, whose first line has the number `first`, to those who watch, and tells how many there are.
/// Behind an entry that isn't legal the rest is still read, for a line that is none of a journal's comes first.
pub(crate) fn take_lines(
    alloc: Global,
    watch: &mut Watch<'_>,
    first: u64,
    text: &[u8],
) -> Result<u64, JournalFault>
    requires room { first + length text.now < 2 ^ 64 }
    requires begins { HasTaken [] watch.old.auditor }
    requires watches { Watches watch.old }
    ensures { TakesLines first text.now watch.old result watch.new }
{
    let mut line = first;
    let mut rest = text;
    while let Some((front, after)) = next_line(rest) {
        let entry = entry_at(alloc, line, front)?;
        watch.take(entry)?;
        line += 1;
        rest = after;
    }
    Ok(line - first)
}
