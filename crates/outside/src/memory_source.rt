//! A source in memory.
ghost use Rattle.std.specs.Prelude.{◌≡◌, ℕ, ◌<◌, List, Bool, true, false, Option, Some, length};

use crate::reading::{Source, Took};
use crate::steady_source::SteadySource;
use std::marker::Model;

/// Bytes in memory, given in pieces, with a list of the reads that fail. It isn't a waiting source.
#[derive(Drop)]
pub struct MemSource {
    steady: SteadySource,
    failing: Vec<u64>,
    reads: u64,
    faults: u64,
}

impl Model for MemSource {
    ghost use Rattle.outside.specs.Memory.{Spring};

    ghost Value = { Spring };

    ghost view = { λ s. record { left = s.steady; read_faults = s.faults } };
}

impl MemSource {
    /// A source of these bytes in pieces of at most these sizes, as `SteadySource` has them. `failing`
    /// lists the reads that fail, counted from 0.
    pub fn new(bytes: Vec<u8>, pieces: Vec<usize>, failing: Vec<u64>) -> Self
        ensures left { result.left ≡ bytes.items }
        ensures faults { result.read_faults ≡ 0 }
    {
        MemSource {
            steady: SteadySource::new(bytes, pieces),
            failing,
            reads: 0,
            faults: 0,
        }
    }
}

impl Source for MemSource {
    ghost left = { λ s. Some s.left };

    ghost is_waiting = { λ _. false };

    ghost read_faults = { λ s. s.read_faults };

    ghost quiets = { λ _. 0 };

    fn read(&mut self, buf: &mut [u8]) -> Took {
        let call = self.reads;
        self.reads = call.saturating_add(1);
        if self.failing.contains(&call) {
            self.faults = self.faults.saturating_add(1);
            return Took::Failed;
        }
        self.steady.read(buf)
    }
}
