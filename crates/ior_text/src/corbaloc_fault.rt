//! Why a text is read as no reference.
ghost use Rattle.std.specs.Prelude.{◌≡◌};
ghost use Rattle.ior_text.specs.declared.corbaloc_fault.LocFault.TheVariants.{WantMemory};

use std::alloc::{AllocError, AllocFailed};
use thiserror::Error;

/// Why `read_corbaloc` gives no reference: the first of these that applies.
#[derive(Clone, Copy, Debug, PartialEq, Eq, Error)]
pub enum LocFault {
    /// The text doesn't begin with `corbaloc:`.
    #[error("corbaloc: NoScheme")]
    NoScheme,
    /// The text that begins at the byte `at` is no address, the first that isn't.
    #[error("corbaloc: BadAddress {at}")]
    BadAddress { at: u64 },
    /// The byte `at` is wrong in a key string, the first that is: it doesn't stand for itself, or is a `%` without two
    /// hexadecimal digits behind it.
    #[error("corbaloc: BadKey {at}")]
    BadKey { at: u64 },
    /// No memory was left for the reference.
    #[error("want of memory")]
    WantMemory,
}

impl From<AllocError> for LocFault {
    ghost from_gives = { λ _ e. e ≡ WantMemory };

    fn from(_refused: AllocError) -> LocFault {
        LocFault::WantMemory
    }
}

impl<T: Drop> From<AllocFailed<T>> for LocFault {
    ghost from_gives = { λ _ e. e ≡ WantMemory };

    fn from(_refused: AllocFailed<T>) -> LocFault {
        LocFault::WantMemory
    }
}
