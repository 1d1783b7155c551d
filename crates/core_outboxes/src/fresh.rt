//! Whom the last entry gave replies.
use crate::filed::Filed;
use poa_base::Reply;

/// To which connections the last entry gave replies. It says whom to wake, and no contract rests on it.
#[derive(Clone, Copy, Drop)]
pub struct Fresh {
    /// The connection of the first of them.
    pub first: Option<u32>,
    /// A bit for each connection of a further one, by its number modulo 64.
    pub others: u64,
    /// Whether one answers an administrator's line.
    pub has_answer: bool,
}

impl Fresh {
    /// To none.
    pub fn none() -> Fresh {
        Fresh {
            first: None,
            others: 0,
            has_answer: false,
        }
    }

    /// To the connection of this reply, too.
    pub(crate) fn note(&mut self, filed: &Filed) {
        if self.first.is_some() {
            self.others |= 1 << (filed.conn % 64);
        } else {
            self.first = Some(filed.conn);
        }
        if let Reply::Answer { .. } = filed.reply {
            self.has_answer = true;
        }
    }
}
