//! What is asked of a session.
use crate::session_messages::{CALLS, REPLIES};
use crate::session_playing::Played;
use journal_entries::{Entries, Row};
use poa_base::{Call, Entry, SessionEnd};

/// What a session is, by how it ended.
#[derive(Clone, Copy, Debug, Drop)]
pub enum Judgement {
    /// Its calls arrived, and their replies were written.
    Whole,
    /// Memory was wanting, in the session or to its link: the first of its calls arrived, and the front of the replies that
    /// were given was written.
    Beginning,
    /// It isn't what such an end says.
    Wrong,
}

/// Judges a session. That takes no memory.
pub fn judge(played: &Played) -> Judgement {
    let (arrived, given, written) = (played.arrived(), played.given(), played.written());
    if !are_first_calls(played.core.entries()) || given > arrived {
        return Judgement::Wrong;
    }
    match played.session.end {
        SessionEnd::Ended if arrived == CALLS.len() && is_whole(written, CALLS.len()) => {
            Judgement::Whole
        }
        SessionEnd::WantMemory | SessionEnd::WriteFault if is_front(written, given) => {
            Judgement::Beginning
        }
        SessionEnd::Abandoned { worker: 0 } if has_given_up(played) && is_whole(written, given) => {
            Judgement::Beginning
        }
        _ => Judgement::Wrong,
    }
}

/// Whether the calls that arrived are the first of the client's, which are numbered from 1.
fn are_first_calls(entries: &Entries) -> bool {
    let mut number: u32 = 0;
    for place in 0..entries.len() {
        if let Some(Row::Whole(Entry::Arrive { call, .. })) = entries.get(place) {
            number = number.saturating_add(1);
            if !matches!(call, Call::Request { head, .. } if head.id == number) {
                return false;
            }
        }
    }
    number as usize <= CALLS.len()
}

/// Whether the worker gave the run up.
fn has_given_up(played: &Played) -> bool {
    let entries = played.core.entries();
    (0..entries.len()).any(|place| matches!(entries.get(place), Some(Row::Abandon { worker: 0 })))
}

/// Whether these bytes are so many replies.
fn is_whole(written: &[u8], replies: usize) -> bool {
    rest_of(written, replies).is_some_and(|rest| rest.is_empty())
}

/// Whether these bytes are the front of so many replies.
fn is_front(written: &[u8], replies: usize) -> bool {
    (0..=replies).any(|whole| {
        rest_of(written, whole).is_some_and(|rest| {
            rest.is_empty()
                || whole < replies
                    && REPLIES
                        .get(whole)
                        .is_some_and(|next| next.starts_with(rest))
        })
    })
}

/// What stands behind so many replies, where these stand.
fn rest_of(written: &[u8], replies: usize) -> Option<&[u8]> {
    let mut rest = written;
    for reply in REPLIES.iter().take(replies) {
        rest = rest.strip_prefix(*reply)?;
    }
    Some(rest)
}
