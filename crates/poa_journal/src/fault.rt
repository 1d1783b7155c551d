use std::alloc::{AllocError, AllocFailed};

/// Why a text was not read.
#[derive(Clone, Copy, Debug, Drop)]
pub enum JournalFault {
    /// The first line, from 1 on, that is outside the grammar; in an empty journal the head line that is missing.
    BadLine { line: u64 },
    /// There was no memory.
    WantMemory,
}

impl From<AllocError> for JournalFault {
    ghost use Rattle.std.specs.Prelude.{◌≡◌};
    ghost use Rattle.poa_journal.specs.declared.fault.JournalFault.TheVariants.{WantMemory};

    ghost from_gives = { λ e fault. fault ≡ WantMemory };

    fn from(_: AllocError) -> JournalFault {
        JournalFault::WantMemory
    }
}

impl<T: Drop> From<AllocFailed<T>> for JournalFault {
    ghost use Rattle.std.specs.Prelude.{◌≡◌};
    ghost use Rattle.poa_journal.specs.declared.fault.JournalFault.TheVariants.{WantMemory};

    ghost from_gives = { λ e fault. fault ≡ WantMemory };

    fn from(_: AllocFailed<T>) -> JournalFault {
        JournalFault::WantMemory
    }
}
