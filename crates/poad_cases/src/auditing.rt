//! The journals of runs of the server, audited by the command.
use crate::case::Case;
use crate::door_case::DoorCase;
use crate::host::MemHost;
use crate::memory_door::MemDoor;
use crate::report::Report;
use crate::words::texts;
use anyhow::{Context, Result};
use command_words::serve_words;
use outside::{MemFiles, MemSink, MemSource};
use poa_base::SessionEnd;
use poad_cmd::{Doors, run_words};
use poad_files::Host;
use std::alloc::Global;
use text_words::parts;

/// What was read and written over a connection.
#[derive(Clone, Copy)]
struct Exchange<'a> {
    conn: u32,
    input: &'a [u8],
    output: &'a [u8],
}

impl Report {
    /// Prints each link whose session ended well and isn't one by the journal with this text, as `audit` tells; or is one also
    /// without the last byte that was written to it.
    pub fn put_unmatched(
        &mut self,
        case: &Case,
        doors: &Doors<MemDoor>,
        files: &MemFiles,
        text: &[u8],
    ) -> Result<()> {
        for (asked, door) in case.lanes.iter().zip(doors.lanes.iter()) {
            self.put_unmatched_at(case, asked, door, files, text)?;
        }
        self.put_unmatched_at(case, &case.administrators, &doors.admin, files, text)
    }

    /// The same of the links of a door.
    fn put_unmatched_at(
        &mut self,
        case: &Case,
        asked: &DoorCase,
        door: &MemDoor,
        files: &MemFiles,
        text: &[u8],
    ) -> Result<()> {
        for (link, (given, session)) in asked.links.iter().zip(door.returned().iter()) {
            let (Some(conn), SessionEnd::Ended) = (session.conn, session.end) else {
                continue;
            };
            let input = link.input()?;
            let whole = Exchange {
                conn,
                input: input.as_slice(),
                output: given.held(),
            };
            if !is_matched(self.alloc, case, files, text, whole)? {
                let line = format!(in self.alloc; "unmatched {conn}")?;
                self.put_line(line.as_bytes())?;
            }
        }
        Ok(())
    }
}

/// Whether the bytes are a session of the journal with this text, and aren't one without the last that was written.
fn is_matched(
    alloc: Global,
    case: &Case,
    files: &MemFiles,
    text: &[u8],
    whole: Exchange<'_>,
) -> Result<bool> {
    let is_session = audit(alloc, case, files, text, Some(whole))?.ends_with(b"session yes\n");
    let [front @ .., _] = whole.output else {
        return Ok(is_session);
    };
    let cut = Exchange {
        output: front,
        ..whole
    };
    let is_cut = audit(alloc, case, files, text, Some(cut))?.ends_with(b"session yes\n");
    Ok(is_session && !is_cut)
}

/// Whether `audit` says that the journal with this text is legal.
pub fn is_legal(alloc: Global, case: &Case, files: &MemFiles, text: &[u8]) -> Result<bool> {
    Ok(audit(alloc, case, files, text, None)?.starts_with(b"legal "))
}

/// What `audit` writes of a journal with this text, as one of the run of a case.
fn audit(
    alloc: Global,
    case: &Case,
    files: &MemFiles,
    text: &[u8],
    link: Option<Exchange<'_>>,
) -> Result<Vec<u8>> {
    let serve = serve_words(alloc, &case.words).ok().context("no run")?;
    let config = files.content(serve.file).context("no configuration")?;
    let limit = serve.limit;
    let mut host = host_of(alloc, config, text)?;
    let mut line = format!(in alloc; "audit config journal --limit {limit}")?;
    if let Some(
        Exchange {
            conn,
            input,
            output,
        },
    ) = link
    {
        line = format!(in alloc; "{line} --conn {conn} --in input --out output")?;
        host.files.hold("input", input)?;
        host.files.hold("output", output)?;
    }
    let words = texts(alloc, &parts(alloc, line.as_bytes(), b' ')?)?;
    run_words(alloc, &words, &mut host);
    Ok(Vec::from_slice(alloc, host.sink.held())?)
}

/// A host whose files are a configuration and a journal.
fn host_of(alloc: Global, config: &[u8], journal: &[u8]) -> Result<MemHost> {
    let mut files = MemFiles::new(alloc, Vec::new(alloc), Vec::new(alloc));
    files.hold("config", config)?;
    files.hold("journal", journal)?;
    Ok(Host {
        source: MemSource::new(Vec::new(alloc), Vec::new(alloc), Vec::new(alloc)),
        sink: MemSink::new(alloc, Vec::new(alloc)),
        files,
    })
}
