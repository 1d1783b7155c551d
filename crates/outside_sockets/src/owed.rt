//! The answers that an administrator is owed.

// The byte that ends a line.
const END: u8 = b'\n';

/// How many answers an administrator is owed, told by the lines that he wrote and those that were written to him: each line
/// is answered by one, but for empty lines and notes.
#[derive(Clone, Copy, Drop)]
pub(crate) struct Owed {
    answers: u64,
    line: Line,
}

// What is known of the line that isn't at its end.
#[derive(Clone, Copy, PartialEq, Eq, Drop)]
enum Line {
    Empty,
    Note,
    Command,
}

impl Owed {
    /// No answer, at the beginning of a line.
    pub(crate) fn none() -> Self {
        Owed {
            answers: 0,
            line: Line::Empty,
        }
    }

    /// These bytes were read.
    pub(crate) fn heard(&mut self, bytes: &[u8]) {
        for byte in bytes {
            if *byte == END {
                self.answers = self
                    .answers
                    .saturating_add((self.line == Line::Command) as u64);
                self.line = Line::Empty;
            } else if self.line == Line::Empty {
                self.line = begun(*byte);
            }
        }
    }

    /// These bytes were written.
    pub(crate) fn said(&mut self, bytes: &[u8]) {
        for byte in bytes {
            self.answers = self.answers.saturating_sub((*byte == END) as u64);
        }
    }

    /// Whether an answer is owed.
    pub(crate) fn is_any(self) -> bool {
        self.answers > 0
    }
}

// What a line is that begins with this byte.
fn begun(byte: u8) -> Line {
    match byte {
        b'#' => Line::Note,
        b'\r' => Line::Empty,
        _ => Line::Command,
    }
}
