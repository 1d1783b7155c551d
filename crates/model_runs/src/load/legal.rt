//! Whether the history is legal.
use crate::fault::Fault;
use crate::load::play::Play;
use poa_base::Entry;
use poa_base::limits::CALLS;
use poa_model::may_follow;

/// Says whether the history is legal, or the place of an entry that isn't.
///
/// A Collect isn't asked: it is legal where `slow_next_reply` gives it, which takes too long here for each.
pub fn put_legal(play: &Play, out: &mut Vec<u8>) -> Result<(), Fault> {
    match first_illegal(play)? {
        Some(place) => {
            let line = format!(in play.alloc; "illegal {place}\n")?;
            out.extend_from_slice(line.as_bytes())?;
        }
        None => out.extend_from_slice(b"legal\n")?,
    }
    Ok(())
}

/// The place of the first entry, but for the Collects, that may not follow the ones before it.
fn first_illegal(play: &Play) -> Result<Option<usize>, Fault> {
    for (place, entry) in play.history.iter().enumerate() {
        if !is_collect(entry) && !follows(play, &play.history[..place], entry)? {
            return Ok(Some(place));
        }
    }
    Ok(None)
}

fn is_collect(entry: &Entry) -> bool {
    match entry {
        Entry::Collect { .. } => true,
        _ => false,
    }
}

/// Whether an entry may follow these.
fn follows(play: &Play, past: &[Entry], entry: &Entry) -> Result<bool, Fault> {
    Ok(may_follow(&play.given(), CALLS, past, entry)?)
}
