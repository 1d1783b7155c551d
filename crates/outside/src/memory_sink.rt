//! A sink in memory.
ghost use Rattle.std.specs.Prelude.{◌≡◌, ℕ, ◌<◌, List, Option, Some, [], length};

use crate::writing::{Sink, Wrote};
use std::alloc::Global;
use std::marker::Model;

/// Keeps what is written, with a list of the writes that fail. A write for which there is no memory
/// counts as a fault.
#[derive(Drop)]
pub struct MemSink {
    bytes: Vec<u8>,
    failing: Vec<u64>,
    writes: u64,
    faults: u64,
}

impl Model for MemSink {
    ghost use Rattle.outside.specs.Memory.{Basin};

    ghost Value = { Basin };

    ghost view = { λ s. record { held = s.bytes.items; write_faults = s.faults } };
}

impl MemSink {
    /// A sink that holds nothing. `failing` lists the writes that fail, counted from 0.
    pub fn new(alloc: Global, failing: Vec<u64>) -> Self
        ensures held { result.held ≡ [] }
        ensures faults { result.write_faults ≡ 0 }
    {
        MemSink {
            bytes: Vec::new(alloc),
            failing,
            writes: 0,
            faults: 0,
        }
    }

    /// The bytes written so far.
    pub fn held(&self) -> &[u8]
        ensures { result.now ≡ self.now.held }
    {
        self.bytes.as_slice()
    }
}

impl Sink for MemSink {
    ghost held = { λ s. Some s.held };

    ghost write_faults = { λ s. s.write_faults };

    fn write(&mut self, piece: &[u8]) -> Wrote {
        let call = self.writes;
        self.writes = call.saturating_add(1);
        if self.failing.contains(&call) || self.bytes.extend_from_slice(piece).is_err() {
            self.faults = self.faults.saturating_add(1);
            return Wrote::Failed;
        }
        Wrote::Wrote(piece.len())
    }
}
