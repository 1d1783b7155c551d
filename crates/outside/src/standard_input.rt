//! Standard input.
ghost use Rattle.std.specs.Prelude.{◌≡◌, ℕ, Bool, false, Option, None};

use crate::reading::{Source, Took};
use std::io::Read;

/// Standard input, or any other reader, as a source. It tells no content, and isn't a waiting one: a
/// read waits until something is there.
#[derive(Drop)]
pub struct StandardInput<R: Read + Drop> {
    reader: R,
    faults: u64,
}

impl<R: Read + Drop> StandardInput<R> {
    /// A source over this reader, with no fault so far.
    pub fn new(reader: R) -> Self {
        StandardInput { reader, faults: 0 }
    }
}

impl<R: Read + Drop> Source for StandardInput<R> {
    ghost left = { λ _. None };

    ghost is_waiting = { λ _. false };

    ghost read_faults = { λ s. s.faults };

    ghost quiets = { λ _. 0 };

    fn read(&mut self, buf: &mut [u8]) -> Took {
        match self.reader.read(buf) {
            Ok(0) => Took::End,
            Ok(count) => Took::Got(count),
            Err(_) => {
                self.faults = self.faults.saturating_add(1);
                Took::Failed
            }
        }
    }
}
