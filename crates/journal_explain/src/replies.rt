//! The replies that are collected.
ghost use Rattle.std.specs.Prelude.{◌≡◌, IfOk, None, if◌then◌else◌, is_some};
ghost use Rattle.journal_explain.specs.Watching as watching;

use crate::event::Event;
use core_outboxes::Filed;
use poa_base::{Entry, Outcome, Reply, TryClone, WantMemory};

/// Whether an entry collects a reply.
pub(crate) fn is_collect(entry: &Entry) -> bool
    ensures { result ≡ watching.is_collect entry.now }
{
    matches!(entry, Entry::Collect { .. })
}

/// What an entry gave, where it collects a reply.
pub(crate) fn given_by(collects: bool, given: Option<Filed>) -> Option<Filed>
    ensures { result ≡ (if collects then given else None) }
{
    if collects { given } else { None }
}

/// Whether a reply was collected that is one to the call of this arrival.
pub(crate) fn is_to(given: &Option<Filed>, arrival: u64) -> bool
    ensures { result ≡ is_some (watching.handed_to given.now arrival) }
{
    match given {
        Some(filed) => filed.arrival == arrival,
        None => false,
    }
}

/// The reply that was collected, where it is one to the call of this arrival.
pub(crate) fn handed_to(given: &Option<Filed>, arrival: u64) -> Result<Option<Event>, WantMemory>
    ensures { IfOk result (λ told. told ≡ watching.handed_to given.now arrival) }
{
    match given {
        Some(filed) if filed.arrival == arrival => {
            let reply = copy_of(&filed.reply)?;
            Ok(Some(Event::Collected(reply)))
        }
        _ => Ok(None),
    }
}

/// An equal reply.
fn copy_of(reply: &Reply) -> Result<Reply, WantMemory>
    ensures { IfOk result (λ copy. copy ≡ reply.now) }
{
    match reply {
        Reply::Outcome(outcome) => Ok(Reply::Outcome(copy_of_outcome(outcome)?)),
        Reply::Forward { endpoint, key } => {
            let endpoint = endpoint.try_clone()?;
            let key = key.try_clone()?;
            Ok(Reply::Forward { endpoint, key })
        }
        Reply::Addressing => Ok(Reply::Addressing),
        Reply::Here => Ok(Reply::Here),
        Reply::UnknownObject => Ok(Reply::UnknownObject),
        Reply::Answer { number, answer } => {
            let number = *number;
            let answer = answer.try_clone()?;
            Ok(Reply::Answer { number, answer })
        }
    }
}

fn copy_of_outcome(outcome: &Outcome) -> Result<Outcome, WantMemory>
    ensures { IfOk result (λ copy. copy ≡ outcome.now) }
{
    match outcome {
        Outcome::Value(None) => Ok(Outcome::Value(None)),
        Outcome::Value(Some(value)) => Ok(Outcome::Value(Some(value.try_clone()?))),
        Outcome::User(id) => Ok(Outcome::User(id.try_clone()?)),
        Outcome::System(exception) => Ok(Outcome::System(*exception)),
    }
}
