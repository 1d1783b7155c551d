//! Why a text is read as no reference.
ghost use Rattle.std.specs.Prelude.{◌≡◌};
ghost use Rattle.ior_text.specs.declared.fault.IorFault.TheVariants.{WantMemory};

use std::alloc::{AllocError, AllocFailed};
use thiserror::Error;

/// Why `read_ior` gives no reference: the first of these that applies.
#[derive(Clone, Copy, Debug, PartialEq, Eq, Error)]
pub enum IorFault {
    /// The text doesn't begin with `IOR:`, in capital or small letters.
    #[error("ior: NoPrefix")]
    NoPrefix,
    /// The number of digits behind the prefix is odd.
    #[error("ior: OddDigits")]
    OddDigits,
    /// The byte `at` of the text isn't a hexadecimal digit, the first that isn't.
    #[error("ior: BadDigit {at}")]
    BadDigit { at: u64 },
    /// The first field that can't be read begins, with its padding, at the byte `at` of the encapsulation.
    #[error("ior: Malformed {at}")]
    Malformed { at: u64 },
    /// No memory was left for the reference.
    #[error("want of memory")]
    WantMemory,
}

impl From<AllocError> for IorFault {
    ghost from_gives = { λ _ e. e ≡ WantMemory };

    fn from(_refused: AllocError) -> IorFault {
        IorFault::WantMemory
    }
}

impl<T: Drop> From<AllocFailed<T>> for IorFault {
    ghost from_gives = { λ _ e. e ≡ WantMemory };

    fn from(_refused: AllocFailed<T>) -> IorFault {
        IorFault::WantMemory
    }
}
