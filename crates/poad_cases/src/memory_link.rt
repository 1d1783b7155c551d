//! A link in memory.
ghost use Rattle.std.specs.Prelude.{◌≡◌, ◌<◌, [], Some, length};

use crate::signal::Signal;
use outside::{Alarm, Link, Source, SteadySource, Took, Wrote};
use poa_base::WantMemory;
use std::alloc::Global;
use std::marker::Model;

/// Bytes in memory to be read, given in pieces, and what is written, with lists of the reads that fail, of those
/// that find nothing for now, and of the writes that fail. A write for which there is no memory counts as a fault.
/// Its reads never wait, so its alarm is silent.
#[derive(Drop)]
pub struct MemLink {
    source: SteadySource,
    failing_reads: Vec<u64>,
    quiet_reads: Vec<u64>,
    reads: u64,
    read_faults: u64,
    quiets: u64,
    written: Vec<u8>,
    failing_writes: Vec<u64>,
    writes: u64,
    write_faults: u64,
    signal: Option<Signal>,
    reply: usize,
}

/// What a link counted.
#[derive(Clone, Copy)]
pub struct LinkCounts {
    pub read_faults: u64,
    pub write_faults: u64,
    pub quiets: u64,
}

impl Model for MemLink {
    ghost use Rattle.std.specs.Prelude.{Some};
    ghost use Rattle.outside.specs.Link.{Shown};

    ghost Value = { Shown };

    ghost view = { λ l. record {
      left = Some l.source;
      held = Some l.written.items;
      read_faults = l.read_faults;
      write_faults = l.write_faults;
      quiets = l.quiets;
    } };
}

impl MemLink {
    /// A link that gives these bytes in pieces of at most these sizes, as `SteadySource` has them, and fails at no
    /// read and no write.
    pub fn new(alloc: Global, bytes: Vec<u8>, pieces: Vec<usize>) -> Self
        ensures left { result.left ≡ Some bytes.items }
        ensures held { result.held ≡ Some [] }
        ensures faults { (result.read_faults ≡ 0) × (result.write_faults ≡ 0) }
        ensures quiets { result.quiets ≡ 0 }
    {
        MemLink {
            source: SteadySource::new(bytes, pieces),
            failing_reads: Vec::new(alloc),
            quiet_reads: Vec::new(alloc),
            reads: 0,
            read_faults: 0,
            quiets: 0,
            written: Vec::new(alloc),
            failing_writes: Vec::new(alloc),
            writes: 0,
            write_faults: 0,
            signal: None,
            reply: 0,
        }
    }

    /// The same link, where these reads and these writes fail, each counted from 0.
    pub fn failing(mut self, reads: Vec<u64>, writes: Vec<u64>) -> Self
        ensures { result ≡ self }
    {
        self.failing_reads = reads;
        self.failing_writes = writes;
        self
    }

    /// The same link, where these reads find nothing for now, counted from 0. A read that is to fail fails.
    pub fn quiet(mut self, reads: Vec<u64>) -> Self
        ensures { result ≡ self }
    {
        self.quiet_reads = reads;
        self
    }

    /// The same link, which raises the signal when a whole reply of this length was written to it.
    pub fn raising(mut self, signal: Signal, reply: usize) -> Self
        ensures { result ≡ self }
    {
        self.signal = Some(signal);
        self.reply = reply;
        self
    }

    /// The bytes written so far.
    pub fn held(&self) -> &[u8]
        ensures { Some result.now ≡ self.now.held }
    {
        self.written.as_slice()
    }

    /// How many reads failed, how many writes, and how many reads found nothing.
    pub fn counts(&self) -> LinkCounts
        ensures read_faults { result.read_faults ≡ self.now.read_faults }
        ensures write_faults { result.write_faults ≡ self.now.write_faults }
        ensures quiets { result.quiets ≡ self.now.quiets }
    {
        LinkCounts {
            read_faults: self.read_faults,
            write_faults: self.write_faults,
            quiets: self.quiets,
        }
    }

    // Tells that the reply was written, once it was.
    fn tell(&self) {
        if let Some(signal) = &self.signal {
            if self.written.len() >= self.reply {
                signal.raise();
            }
        }
    }
}

impl Link for MemLink {
    ghost shown = { λ l. l };

    fn read(&mut self, buf: &mut [u8], _is_owed: bool) -> Took {
        let call = self.reads;
        self.reads = call.saturating_add(1);
        if self.failing_reads.contains(&call) {
            self.read_faults = self.read_faults.saturating_add(1);
            return Took::Failed;
        }
        if self.quiet_reads.contains(&call) {
            self.quiets = self.quiets.saturating_add(1);
            return Took::Quiet;
        }
        self.source.read(buf)
    }

    fn write(&mut self, piece: &[u8]) -> Wrote {
        let call = self.writes;
        self.writes = call.saturating_add(1);
        if self.failing_writes.contains(&call) || self.written.extend_from_slice(piece).is_err() {
            self.write_faults = self.write_faults.saturating_add(1);
            return Wrote::Failed;
        }
        self.tell();
        Wrote::Wrote(piece.len())
    }

    fn alarm(&self) -> Result<Alarm, WantMemory> {
        Ok(Alarm::silent())
    }
}
