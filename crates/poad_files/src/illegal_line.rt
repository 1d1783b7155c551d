//! The lines of an entry that isn't legal.
use crate::fault_line::text;
use poa_base::Bytes;
use std::fmt;

/// Writes which entry isn't legal, and in a line below it where it stands and what would have been allowed there.
pub(crate) fn write_illegal<W: fmt::Write>(
    f: &mut fmt::Formatter<W>,
    entry: u64,
    line: u64,
    due: &Bytes,
) -> fmt::Result {
    write!(f, "illegal entry {entry}\npoad: journal: line {line}")?;
    match text(due.as_slice()) {
        "" => Ok(()),
        due => write!(f, ", where this is due: {due}"),
    }
}
