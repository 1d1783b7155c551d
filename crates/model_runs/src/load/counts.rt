//! What is counted of a load.
use crate::fault::Fault;
use crate::load::calls::{object_id, path};
use crate::load::play::Play;
use crate::load::replies::reply_bytes;
use poa_base::{Entry, State};
use poa_history::workers::brings;
use poa_model::{Kept, kept_of, stored_in};
use std::alloc::Global;

/// How many objects there are.
const OBJECTS: u64 = 16;

/// What five of the six lines say.
#[derive(Clone, Copy, Drop)]
pub struct Counts {
    entries: usize,
    /// Incarnations that brought a servant.
    incarnations: usize,
    etherealized: usize,
    reply_bytes: usize,
    stored_sum: i64,
}

impl Counts {
    /// What is counted of a load that was played to its end.
    pub fn of(play: &Play) -> Result<Counts, Fault> {
        let history = &play.history;
        let kept = kept_of(&play.given(), &play.store, history)?;
        Ok(Counts {
            entries: history.len(),
            incarnations: history.iter().filter(|entry| has_brought(entry)).count(),
            etherealized: history
                .iter()
                .filter(|entry| is_etherealized(entry))
                .count(),
            reply_bytes: reply_bytes(play, &kept)?,
            stored_sum: stored_sum(play, &kept)?,
        })
    }

    /// The six lines.
    pub fn lines(self, alloc: Global, calls: u32) -> Result<String, Fault> {
        let Counts {
            entries,
            incarnations,
            etherealized,
            reply_bytes,
            stored_sum,
        } = self;
        let run = format!(in alloc; "calls {calls}\nentries {entries}\n")?;
        let servants = format!(in alloc;
            "incarnations {incarnations}\netherealized {etherealized}\n"
        )?;
        let ends = format!(in alloc; "reply bytes {reply_bytes}\nstored sum {stored_sum}\n")?;
        Ok(format!(in alloc; "{run}{servants}{ends}")?)
    }
}

fn has_brought(entry: &Entry) -> bool {
    match entry {
        Entry::Incarnated { answer, .. } => brings(answer),
        _ => false,
    }
}

fn is_etherealized(entry: &Entry) -> bool {
    match entry {
        Entry::Etherealized { .. } => true,
        _ => false,
    }
}

/// The sum of the registers that the entries left in the store.
fn stored_sum(play: &Play, kept: &Kept) -> Result<i64, Fault> {
    let mut sum: i64 = 0;
    for object in 0..OBJECTS {
        let number = register(play, kept, object)?;
        sum = sum.checked_add(number).ok_or(Fault::Load)?;
    }
    Ok(sum)
}

/// The number in the stored register of an object, or 0 where none is stored.
fn register(play: &Play, kept: &Kept, object: u64) -> Result<i64, Fault> {
    let path = path(play.alloc)?;
    let id = object_id(play.alloc, object)?;
    match stored_in(&play.store, &kept.places, &path, &id) {
        Some(State::Register(number)) => Ok(*number),
        Some(_) => Err(Fault::Load),
        None => Ok(0),
    }
}
