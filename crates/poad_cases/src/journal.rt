//! What is printed of a journal.
use crate::auditing::is_legal;
use crate::case::Case;
use crate::memory_door::MemDoor;
use crate::report::Report;
use anyhow::{Context, Result};
use command_words::serve_words;
use outside::MemFiles;
use poa_core::Core;
use poa_journal::{print_parts, print_store, read};
use poa_model::{Run, first_illegal};
use poad_cmd::Doors;
use std::alloc::Global;

/// How many entries a journal may have that is looked over plainly; to do that with some hundreds takes minutes.
const LOOKED_OVER: usize = 250;

impl Report {
    /// Prints whether the journal reads back, whether it was put into its file, whether it is legal, of which links it says
    /// another thing than their sessions, and what else the case asks of it.
    pub fn put_journal(
        &mut self,
        case: &Case,
        core: &Core,
        doors: &Doors<MemDoor>,
        files: &MemFiles,
    ) -> Result<()> {
        let text = print_parts(self.alloc, core.run(), core.opening(), core.entries())?;
        self.put_judged(case, core, files, text.as_slice())?;
        if core.entries().len() <= LOOKED_OVER {
            self.put_unmatched(case, doors, files, text.as_slice())?;
        }
        self.put_kinds(case, text.as_slice())?;
        if case.has_store {
            self.put(print_store(self.alloc, core.store())?.as_slice())?;
        }
        Ok(())
    }

    /// Prints what is said of a journal with this text.
    fn put_judged(
        &mut self,
        case: &Case,
        core: &Core,
        files: &MemFiles,
        text: &[u8],
    ) -> Result<()> {
        let read = if is_read(self.alloc, core, text)? {
            "read"
        } else {
            "unread"
        };
        let is_put = files.content("journal") == Some(text);
        let put = if is_put { "put" } else { "unput" };
        let limit = limit_of(self.alloc, &case.words)?;
        let judged = if is_legal(self.alloc, case, files, text)? {
            judgement(self.alloc, core, limit)?
        } else {
            String::from_str(self.alloc, "refused")?
        };
        let line = format!(in self.alloc; "journal {read} {put} {judged}")?;
        self.put_line(line.as_bytes())
    }
}

/// Whether the text of a core's journal reads as that journal.
fn is_read(alloc: Global, core: &Core, text: &[u8]) -> Result<bool> {
    let entries = core.entries().to_vec(alloc)?;
    Ok(match read(alloc, text) {
        Ok(journal) => {
            journal.run == core.run() && journal.entries.as_slice() == entries.as_slice()
        }
        Err(_) => false,
    })
}

/// How many calls a run by these words takes.
fn limit_of(alloc: Global, words: &[String]) -> Result<u64> {
    let serve = serve_words(alloc, words).ok().context("no run")?;
    Ok(u64::from(serve.limit))
}

/// What is said of a journal of a run that takes so many calls, and that is legal by an audit: where it isn't too long for
/// that, it is looked over plainly, too.
fn judgement(alloc: Global, core: &Core, limit: u64) -> Result<String> {
    if core.entries().len() > LOOKED_OVER {
        return Ok(String::from_str(alloc, "legal")?);
    }
    let entries = core.entries().to_vec(alloc)?;
    let run = Run {
        alloc,
        config: core.config(),
        number: core.run(),
    };
    match first_illegal(&run, limit, &entries)? {
        Some(place) => Ok(format!(in alloc; "illegal {place}")?),
        None => Ok(String::from_str(alloc, "legal")?),
    }
}
