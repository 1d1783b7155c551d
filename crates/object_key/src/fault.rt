//! Why a key isn't read.
ghost use Rattle.std.specs.Prelude.{◌≡◌};
ghost use Rattle.object_key.specs.declared.fault.KeyFault.TheVariants.{WantMemory};

use std::alloc::{AllocError, AllocFailed};

/// No key has these bytes as its spelling.
#[derive(Clone, Copy)]
pub struct BadKey;

/// Why `read_key` gives no key.
#[derive(Clone, Copy)]
pub enum KeyFault {
    /// No key is spelled so.
    BadKey,
    /// No memory was left for the key.
    WantMemory,
}

impl From<AllocError> for KeyFault {
    ghost from_gives = { λ _ e. e ≡ WantMemory };

    fn from(_refused: AllocError) -> KeyFault {
        KeyFault::WantMemory
    }
}

impl<T: Drop> From<AllocFailed<T>> for KeyFault {
    ghost from_gives = { λ _ e. e ≡ WantMemory };

    fn from(_refused: AllocFailed<T>) -> KeyFault {
        KeyFault::WantMemory
    }
}
