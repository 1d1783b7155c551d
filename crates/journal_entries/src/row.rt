//! The rows of the frequent entries.
ghost use Rattle.std.specs.Prelude.{◌≡◌, ℕ, not, List, Some, is_none, length, option_copied, option_map, IfOk, IfSome};
ghost use Rattle.poa_base.specs.declared.Entry.{Entry as EntryOf};
ghost use Rattle.journal_entries.specs.Rows.{IsWithin, call_in, entry_of, is_brief, seen};

use crate::chunks::Chunks;
use poa_base::{Call, Entry, Verdict, WantMemory};

/// A frequent entry, in 16 bytes; any other one stands beside its row, which has the way to it.
#[derive(Clone, Copy, Drop)]
pub enum Row<W> {
    Entered {
        conn: u32,
    },
    Filled {
        conn: u32,
        size: u64,
    },
    Left {
        conn: u32,
    },
    Collect {
        conn: u32,
        arrival: u64,
    },
    /// The Admit of a request that an active servant serves.
    Serve {
        worker: u32,
        arrival: u32,
        activation: u32,
    },
    Run {
        worker: u32,
    },
    Done {
        worker: u32,
    },
    TakeOut {
        worker: u32,
        activation: u32,
        etherealize: bool,
    },
    Etherealized {
        worker: u32,
        cleanup: bool,
        remaining: bool,
    },
    Abandon {
        worker: u32,
    },
    /// Any other entry.
    Whole(W),
}

/// An entry of a journal, lent where it is kept whole.
pub type EntryView<'a> = Row<&'a Entry>;

impl Row<usize> {
    /// The row of an entry; none where it has to be kept whole.
    pub(crate) fn of(entry: &Entry) -> Option<Self>
        ensures entry { IfSome result (λ row. (wholes : List EntryOf) → entry_of wholes row ≡ entry.now) }
        ensures within { IfSome result (λ row. (many : ℕ) → IsWithin many row) }
        ensures whole { is_none result ≡ not (is_brief entry.now) }
    {
        Some(match *entry {
            Entry::Entered { conn } => Row::Entered { conn },
            Entry::Filled { conn, size } => Row::Filled { conn, size },
            Entry::Left { conn } => Row::Left { conn },
            Entry::Collect { conn, arrival } => Row::Collect { conn, arrival },
            Entry::Admit {
                worker,
                arrival,
                verdict: Verdict::Serve(activation),
            } => Row::Serve {
                worker,
                arrival: u32::try_from(arrival).ok()?,
                activation,
            },
            Entry::Run { worker } => Row::Run { worker },
            Entry::Done { worker } => Row::Done { worker },
            Entry::TakeOut {
                worker,
                activation,
                etherealize,
            } => Row::TakeOut {
                worker,
                activation,
                etherealize,
            },
            Entry::Etherealized {
                worker,
                cleanup,
                remaining,
            } => Row::Etherealized {
                worker,
                cleanup,
                remaining,
            },
            Entry::Abandon { worker } => Row::Abandon { worker },
            _ => return None,
        })
    }

    /// The entry of the row, given those that are kept whole.
    pub(crate) fn view(self, wholes: &Chunks<Entry>) -> Option<EntryView<'_>>
        requires { IsWithin (length wholes.now.0) self }
        ensures { option_map seen result ≡ Some (entry_of wholes.now.0 self) }
    {
        Some(match self {
            Row::Entered { conn } => Row::Entered { conn },
            Row::Filled { conn, size } => Row::Filled { conn, size },
            Row::Left { conn } => Row::Left { conn },
            Row::Collect { conn, arrival } => Row::Collect { conn, arrival },
            Row::Serve {
                worker,
                arrival,
                activation,
            } => Row::Serve {
                worker,
                arrival,
                activation,
            },
            Row::Run { worker } => Row::Run { worker },
            Row::Done { worker } => Row::Done { worker },
            Row::TakeOut {
                worker,
                activation,
                etherealize,
            } => Row::TakeOut {
                worker,
                activation,
                etherealize,
            },
            Row::Etherealized {
                worker,
                cleanup,
                remaining,
            } => Row::Etherealized {
                worker,
                cleanup,
                remaining,
            },
            Row::Abandon { worker } => Row::Abandon { worker },
            Row::Whole(place) => Row::Whole(wholes.get(place)?),
        })
    }
}

impl<'a> Row<&'a Entry> {
    /// The call that arrives with the entry, if one does.
    pub fn call(self) -> Option<&'a Call>
        ensures { option_copied result ≡ call_in (seen self.entry) }
    {
        match self {
            Row::Whole(Entry::Arrive { call, .. }) => Some(call),
            _ => None,
        }
    }

    /// The entry; a copy of one that is kept whole. Any other takes no memory.
    pub fn to_entry(self) -> Result<Entry, WantMemory>
        ensures { IfOk result (λ entry. entry ≡ seen self.entry) }
    {
        Ok(match self {
            Row::Entered { conn } => Entry::Entered { conn },
            Row::Filled { conn, size } => Entry::Filled { conn, size },
            Row::Left { conn } => Entry::Left { conn },
            Row::Collect { conn, arrival } => Entry::Collect { conn, arrival },
            Row::Serve {
                worker,
                arrival,
                activation,
            } => Entry::Admit {
                worker,
                arrival: u64::from(arrival),
                verdict: Verdict::Serve(activation),
            },
            Row::Run { worker } => Entry::Run { worker },
            Row::Done { worker } => Entry::Done { worker },
            Row::TakeOut {
                worker,
                activation,
                etherealize,
            } => Entry::TakeOut {
                worker,
                activation,
                etherealize,
            },
            Row::Etherealized {
                worker,
                cleanup,
                remaining,
            } => Entry::Etherealized {
                worker,
                cleanup,
                remaining,
            },
            Row::Abandon { worker } => Entry::Abandon { worker },
            Row::Whole(entry) => entry.clone()?,
        })
    }
}
