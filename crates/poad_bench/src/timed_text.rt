//! The texts whose reading and printing is timed.

use crate::journal_text::of_requests;
use crate::store_text::of_rows;
use std::alloc::{AllocError, Global};

/// The texts whose reading and printing is timed.
#[derive(Clone, Copy)]
pub enum TimedText {
    /// That of a journal, of entries.
    Journal,
    /// That of a store, of rows.
    Store,
}

impl TimedText {
    /// One with at least so many entries or rows.
    pub fn with(self, alloc: Global, lines: u64) -> Result<Vec<u8>, AllocError> {
        match self {
            TimedText::Journal => of_requests(alloc, lines),
            TimedText::Store => of_rows(alloc, lines),
        }
    }

    /// What its lines are.
    pub fn lines(self) -> &'static str {
        match self {
            TimedText::Journal => "entries",
            TimedText::Store => "rows",
        }
    }
}
