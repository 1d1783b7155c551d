//! What is asked of a link, or of standard input and output.
use crate::memory_link::MemLink;
use crate::signal::Signal;
use anyhow::Result;
use outside::{MemSink, MemSource};
use poa_base::SessionEnd;
use std::alloc::Global;

/// How many bytes a read of standard input gives at most where the case doesn't say.
const PIECE: usize = 4096;

/// What the peer of a link sends, which of the link's calls fail, and what may be written to it.
#[derive(Drop)]
pub struct LinkCase {
    pub alloc: Global,
    input: Vec<u8>,
    /// How many bytes the reads give at most, in turn.
    pub pieces: Vec<usize>,
    pub failing_reads: Vec<u64>,
    pub failing_writes: Vec<u64>,
    /// Which reads find nothing for now.
    pub quiet_reads: Vec<u64>,
    /// One of these is to be written. Where there is none, what was written is printed.
    pub due: Vec<Vec<u8>>,
    /// Whether it isn't determined how the session ends.
    pub is_loose: bool,
}

impl LinkCase {
    /// A link whose peer sends nothing, and of which no call fails.
    pub fn new(alloc: Global) -> Self {
        LinkCase {
            alloc,
            input: Vec::new(alloc),
            pieces: Vec::new(alloc),
            failing_reads: Vec::new(alloc),
            failing_writes: Vec::new(alloc),
            quiet_reads: Vec::new(alloc),
            due: Vec::new(alloc),
            is_loose: false,
        }
    }

    /// Its peer sends these bytes, too.
    pub fn send(&mut self, bytes: &[u8]) -> Result<()> {
        self.input.extend_from_slice(bytes)?;
        Ok(())
    }

    /// What its peer sends.
    pub fn input(&self) -> Result<Vec<u8>> {
        Ok(self.input.clone()?)
    }

    /// The link. It raises the signal, if there is one, when so many bytes were written to it.
    pub fn link(&self, hold: Option<(&Signal, usize)>) -> Result<MemLink> {
        let Some((signal, length)) = hold else {
            return self.free_link();
        };
        let signal = signal.try_clone()?;
        Ok(self.free_link()?.raising(signal, length))
    }

    /// The link, which raises no signal.
    fn free_link(&self) -> Result<MemLink> {
        let (reads, writes) = (self.failing_reads.clone()?, self.failing_writes.clone()?);
        let quiet = self.quiet_reads.clone()?;
        let link = MemLink::new(self.alloc, self.input.clone()?, self.pieces.clone()?);
        Ok(link.failing(reads, writes).quiet(quiet))
    }

    /// Standard input that gives what was sent.
    pub fn source(&self) -> Result<MemSource> {
        let pieces = if self.pieces.is_empty() {
            vec![in self.alloc; PIECE]?
        } else {
            self.pieces.clone()?
        };
        Ok(MemSource::new(self.input.clone()?, pieces, self.failing_reads.clone()?))
    }

    /// Standard output, which keeps what is written.
    pub fn sink(&self) -> Result<MemSink> {
        Ok(MemSink::new(self.alloc, self.failing_writes.clone()?))
    }

    /// Whether these bytes may be all that was written, in a session that ended so.
    pub fn is_due(&self, written: &[u8], end: SessionEnd) -> bool {
        let is_cut = matches!(end, SessionEnd::ReadFault | SessionEnd::WriteFault);
        self.due.iter().any(|due| due.as_slice() == written || is_cut && due.starts_with(written))
    }
}
