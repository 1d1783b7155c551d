//! Standard output.
ghost use Rattle.std.specs.Prelude.{◌≡◌, ℕ, Option, None};

use crate::writing::{Sink, Wrote};
use std::io::Write;

/// Standard output, or any other writer, as a sink. It tells no content. A write that takes nothing
/// counts as a fault.
#[derive(Drop)]
pub struct StandardOutput<W: Write + Drop> {
    writer: W,
    faults: u64,
}

impl<W: Write + Drop> StandardOutput<W> {
    /// A sink over this writer, with no fault so far.
    pub fn new(writer: W) -> Self {
        StandardOutput { writer, faults: 0 }
    }
}

impl<W: Write + Drop> Sink for StandardOutput<W> {
    ghost held = { λ _. None };

    ghost write_faults = { λ s. s.faults };

    fn write(&mut self, piece: &[u8]) -> Wrote {
        match self.writer.write(piece) {
            Ok(0) | Err(_) => {
                self.faults = self.faults.saturating_add(1);
                Wrote::Failed
            }
            Ok(count) => Wrote::Wrote(count),
        }
    }
}
