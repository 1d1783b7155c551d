//! Why a configuration is refused.
use poa_base::{Bytes, Path};
use std::alloc::AllocError;
use text_words::WordFault;

/// Why a text is no configuration. A path names a key, as `adapter[0].rule[1].id`.
#[derive(PartialEq, Eq, Drop)]
pub enum ConfFault {
    /// The text isn't a TOML document.
    NotToml,
    /// A key is missing, unknown or not allowed there, or its value is of the wrong type or out of range.
    Field { path: Bytes },
    /// The policies of an adapter settle to no set: the index of the wrong one.
    Policy { adapter: Path, index: u32 },
    /// A name, a path or an object id stands twice, or a servant in two objects of an adapter with UNIQUE_ID.
    Twice { path: Bytes },
    /// A name or a path that stands for no entry.
    NoSuch { path: Bytes },
    /// A table with too many entries, or a path that is too deep.
    Limit { what: Bytes },
    /// There was no memory.
    WantMemory,
}

impl From<AllocError> for ConfFault {
    ghost use Rattle.std.specs.Prelude.{◌≡◌};
    ghost use Rattle.conf_fields.specs.declared.fault.ConfFault.TheVariants.{WantMemory};

    ghost from_gives = { λ e fault. fault ≡ WantMemory };

    fn from(_: AllocError) -> ConfFault {
        ConfFault::WantMemory
    }
}
