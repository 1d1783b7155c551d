//! Why a script or a load isn't played to its end.
use conf_toml::ConfFault;
use poa_base::WantMemory;
use std::alloc::AllocFailed;
use text_words::WordFault;

/// Why a script or a load isn't played to its end.
#[derive(Clone, Copy, Drop)]
pub enum Fault {
    /// A line or a configuration that is none.
    Script,
    /// What no load comes to: more turns or replies than it has calls for, or a reply that isn't the value of a request.
    Load,
    WantMemory,
}

impl From<WantMemory> for Fault {
    fn from(_: WantMemory) -> Self {
        Fault::WantMemory
    }
}

impl From<WordFault> for Fault {
    fn from(_: WordFault) -> Self {
        Fault::Script
    }
}

impl From<ConfFault> for Fault {
    fn from(_: ConfFault) -> Self {
        Fault::Script
    }
}

impl<T: Drop> From<AllocFailed<T>> for Fault {
    fn from(_: AllocFailed<T>) -> Self {
        Fault::WantMemory
    }
}
