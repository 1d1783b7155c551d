//! What is counted of a journal.
ghost use Rattle.std.specs.Prelude.{◌≡◌, length, reverse, option_map};
ghost use Rattle.journal_entries.specs.Rows.{seen};
ghost use Rattle.poa_history.specs.Legal.{IsLegal};
ghost use Rattle.poa_history.specs.Lifetime.{HasLifetime};
ghost use Rattle.poad_load.specs.Counts as counts;

use journal_entries::{Entries, EntryView, Row};
use poa_base::Entry;
use poa_core::Core;
use poa_history::workers::brings;

/// How many entries a run has made, and how many of two kinds.
#[derive(Clone, Copy, Drop)]
pub(crate) struct Tally {
    pub(crate) entries: usize,
    /// Incarnations that brought a servant.
    pub(crate) incarnations: usize,
    pub(crate) etherealized: usize,
}

/// What is counted of the run of a core.
pub(crate) fn tally_of(core: &Core) -> Tally
    ensures legal { IsLegal core.now.config core.now.run core.now.limit core.now.history }
    ensures lifetime { HasLifetime core.now.config core.now.run core.now.history }
    ensures entries { result.entries ≡ length core.now.history }
    ensures incarnations { result.incarnations ≡ counts.count counts.has_brought core.now.history }
    ensures etherealized { result.etherealized
        ≡ counts.count counts.is_etherealized core.now.history }
{
    let entries = core.entries();
    Tally {
        entries: entries.len(),
        incarnations: count_incarnations(entries),
        etherealized: count_etherealized(entries),
    }
}

fn count_incarnations(entries: &Entries) -> usize
    ensures { result ≡ counts.count counts.has_brought (reverse entries.now.items) }
{
    let mut count = 0;
    for place in 0..entries.len() {
        if has_brought(entries.get(place)) {
            count += 1;
        }
    }
    count
}

fn count_etherealized(entries: &Entries) -> usize
    ensures { result ≡ counts.count counts.is_etherealized (reverse entries.now.items) }
{
    let mut count = 0;
    for place in 0..entries.len() {
        if is_etherealized(entries.get(place)) {
            count += 1;
        }
    }
    count
}

fn has_brought(view: Option<EntryView<'_>>) -> bool
    ensures { result ≡ counts.is_such counts.has_brought (option_map seen view.entry) }
{
    match view {
        Some(Row::Whole(Entry::Incarnated { answer, .. })) => brings(answer),
        _ => false,
    }
}

fn is_etherealized(view: Option<EntryView<'_>>) -> bool
    ensures { result ≡ counts.is_such counts.is_etherealized (option_map seen view.entry) }
{
    match view {
        Some(Row::Whole(Entry::Etherealized { .. })) => true,
        Some(Row::Etherealized { .. }) => true,
        _ => false,
    }
}
