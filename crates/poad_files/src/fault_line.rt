//! The line of a fault of a configuration.
use conf_toml::ConfFault;
use poa_base::{Bytes, Path};
use std::fmt;

/// Writes `config: ` and the fault, with the path of the wrong key.
pub(crate) fn write_fault<W: fmt::Write>(
    f: &mut fmt::Formatter<W>,
    fault: &ConfFault,
) -> fmt::Result {
    match fault {
        ConfFault::NotToml => write!(f, "config: NotToml"),
        ConfFault::Field { path } => named(f, "Field", path),
        ConfFault::Policy { adapter, index } => policy(f, adapter, *index),
        ConfFault::Twice { path } => named(f, "Twice", path),
        ConfFault::NoSuch { path } => named(f, "NoSuch", path),
        ConfFault::Limit { what } => named(f, "Limit", what),
        ConfFault::WantMemory => write!(f, "want of memory"),
    }
}

fn named<W: fmt::Write>(f: &mut fmt::Formatter<W>, kind: &str, path: &Bytes) -> fmt::Result {
    let path = text(path.as_slice());
    write!(f, "config: {kind} {path}")
}

fn policy<W: fmt::Write>(f: &mut fmt::Formatter<W>, adapter: &Path, index: u32) -> fmt::Result {
    write!(f, "config: Policy ")?;
    for name in adapter.as_slice() {
        let name = text(name.as_slice());
        write!(f, "/{name}")?;
    }
    write!(f, " {index}")
}

/// Bytes that are text: the path of a key, as the key was; the line of an entry.
pub(crate) fn text(bytes: &[u8]) -> &str {
    std::str::from_utf8(bytes).unwrap_or("")
}
