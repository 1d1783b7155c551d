//! The files of a table.
use anyhow::Result;
use outside::MemFiles;
use std::alloc::Global;
use text_words::parts;

/// A name and what is under it, the last one of a name counting.
pub type File = (String, Vec<u8>);

/// These files in memory, of which these takes and puts fail, counted from 0.
pub fn in_memory(alloc: Global, takes: &[u64], puts: &[u64], files: &[File]) -> Result<MemFiles> {
    let takes = Vec::from_slice(alloc, takes)?;
    let puts = Vec::from_slice(alloc, puts)?;
    let mut held = MemFiles::new(alloc, takes, puts);
    for (name, content) in files {
        held.hold(name, content)?;
    }
    Ok(held)
}

/// The journal among what a script printed: from the line that begins it up to the first reply or answer behind it.
pub fn printed_journal(alloc: Global, printed: &[u8]) -> Result<Vec<u8>> {
    let mut journal = Vec::new(alloc);
    let mut is_in = false;
    for line in parts(alloc, printed, b'\n')? {
        is_in = line.starts_with(b"journal ") || (is_in && !is_delivery(line));
        if is_in {
            journal.extend_from_slice(line)?;
            journal.push(b'\n')?;
        }
    }
    Ok(journal)
}

/// Whether a line tells a reply or an answer, or is behind the last one.
fn is_delivery(line: &[u8]) -> bool {
    line.is_empty() || line.starts_with(b"reply ") || line.starts_with(b"answer ")
}
