//! The messages of the replies to requests.
//!
//! A register answers `add` with the number that it is left with, so the states that the entries leave tell the replies.
//! `slow_reply` goes over all of them anew for each reply, so it is asked for some alone.
use crate::fault::Fault;
use crate::load::calls::head;
use crate::load::play::Play;
use giop_answer::write_reply;
use poa_base::{Bytes, Call, Datum, Entry, Incarnation, Outcome, Reply, State};
use poa_history::calls::call_of;
use poa_history::workers::{arrival_in, stage};
use poa_model::{Kept, ServantState, slow_reply};
use std::alloc::Global;

/// Of so many requests the reply to one is compared with `slow_reply`.
const SAMPLE: u32 = 64;

/// How many bytes the messages of all replies to requests have.
pub fn reply_bytes(play: &Play, kept: &Kept) -> Result<usize, Fault> {
    let mut states = kept.servants.iter();
    let mut bytes: usize = 0;
    for (place, entry) in play.history.iter().enumerate() {
        if leaves_state(entry) {
            let left = states.next().ok_or(Fault::Load)?;
            let more = bytes_of(play, place, entry, left)?;
            bytes = bytes.checked_add(more).ok_or(Fault::Load)?;
        }
    }
    Ok(bytes)
}

/// Whether an entry leaves a servant in a state: where it acts, and where a fresh one opens.
fn leaves_state(entry: &Entry) -> bool {
    match entry {
        Entry::Run { .. } => true,
        Entry::Incarnated {
            answer: Incarnation::Fresh(_),
            ..
        } => true,
        _ => false,
    }
}

/// How many bytes the reply has that the entry at this place fixes.
fn bytes_of(play: &Play, place: usize, entry: &Entry, left: &ServantState) -> Result<usize, Fault> {
    let Entry::Run { worker } = entry else {
        return Ok(0);
    };
    let past = play.history.get(..place).ok_or(Fault::Load)?;
    let arrival = arrival_in(stage(past, *worker)).ok_or(Fault::Load)?;
    let id = request_id(past, arrival)?;
    let message = told_message(play.alloc, id, left)?;
    if id % SAMPLE == 0 {
        let whole = play.history.get(..=place).ok_or(Fault::Load)?;
        compare(play, whole, arrival, id, &message)?;
    }
    Ok(message.len())
}

/// The id of a request that arrived.
fn request_id(past: &[Entry], arrival: u64) -> Result<u32, Fault> {
    match call_of(past, arrival) {
        Some(Call::Request { head, .. }) => Ok(head.id),
        _ => Err(Fault::Load),
    }
}

/// The message of the reply to the request with this id that leaves a register in this state.
fn told_message(alloc: Global, id: u32, left: &ServantState) -> Result<Bytes, Fault> {
    let told = told_by(left)?;
    message(alloc, id, &told)
}

/// What a register answers `add` that it leaves in this state.
fn told_by(left: &ServantState) -> Result<Reply, Fault> {
    match &left.state {
        State::Register(number) => Ok(Reply::Outcome(Outcome::Value(Some(Datum::Long(*number))))),
        _ => Err(Fault::Load),
    }
}

/// The message of the reply to the request with this id.
fn message(alloc: Global, id: u32, reply: &Reply) -> Result<Bytes, Fault> {
    match reply {
        Reply::Outcome(_) => Ok(write_reply(alloc, &head(id), reply)?),
        _ => Err(Fault::Load),
    }
}

/// Refuses a message that isn't that of the reply which `slow_reply` gives after these entries.
fn compare(play: &Play, whole: &[Entry], arrival: u64, id: u32, said: &Bytes) -> Result<(), Fault> {
    let slow = slow_message(play, whole, arrival, id)?;
    if slow.as_slice() == said.as_slice() {
        Ok(())
    } else {
        Err(Fault::Load)
    }
}

/// The message of the reply which `slow_reply` gives after these entries.
fn slow_message(play: &Play, whole: &[Entry], arrival: u64, id: u32) -> Result<Bytes, Fault> {
    let reply = slow_reply(&play.given(), &play.store, whole, arrival)?;
    let reply = reply.ok_or(Fault::Load)?;
    message(play.alloc, id, &reply)
}
