//! Which arrivals wait to be admitted, and which came when too many waited.
ghost use Rattle.std.specs.Prelude.{◌≡◌, [], true, option_copied, IfOk, OnOk};
ghost use Rattle.poa_base.specs.declared.Entry.{Entry};
ghost use Rattle.poa_base.specs.declared.Entry.TheVariants as entry_kinds;
ghost use Rattle.history_standing.specs.Arrivals.{arrivals as arrivals_in};
ghost use Rattle.history_standing.specs.Searches.{count_below};
ghost use Rattle.history_standing.specs.Situations as situations;
ghost use Rattle.history_standing.specs.Stages as begun;
ghost use Rattle.core_arrivals.specs.Queued as queued;
ghost use Rattle.core_arrivals.specs.Queued.{QueueAgrees, HasPlace, QueueStays, QueueTells};
ghost use Rattle.poa_history.specs.Waiting.{is_waiting, may_queue};

use crate::ordered::{has, insert, insert_if, push_if, remove};
use history_standing::Stage;
use poa_base::limits::UNADMITTED;
use poa_base::{Attempt, Call, Entry, WantMemory};
use poa_history::calls::is_message;
use poa_history::workers::arrival_in;
use std::alloc::Global;
use std::collections::VecDeque;

/// The arrivals that aren't admitted, in order; those of them that are requests or locates, and those that are lines;
/// and the arrivals that came when too many requests and locates waited.
#[derive(Drop)]
pub struct Queue {
    pub unadmitted: VecDeque<u64>,
    pub messages: VecDeque<u64>,
    pub lines: VecDeque<u64>,
    pub crowded: VecDeque<u64>,
}

/// The queue before the first arrival.
pub fn empty(alloc: Global) -> Queue
    ensures { QueueAgrees [] result }
{
    Queue {
        unadmitted: VecDeque::new(alloc),
        messages: VecDeque::new(alloc),
        lines: VecDeque::new(alloc),
        crowded: VecDeque::new(alloc),
    }
}

/// How many arrivals wait to be admitted.
pub fn count(queue: &Queue) -> u64
    ensures { QueueTells queue.now
        (λ h. result ≡ count_below (begun.is_unadmitted h) (arrivals_in h)) }
{
    queue.unadmitted.len() as u64
}

/// Whether too many waited when it arrived.
pub fn is_crowded(queue: &Queue, arrival: u64) -> bool
    ensures { QueueTells queue.now (λ h. result ≡ situations.is_crowded h arrival) }
{
    has(&queue.crowded, arrival)
}

/// Whether a request or a locate waits to be admitted.
pub fn waits(queue: &Queue, arrival: u64) -> bool
    ensures { QueueTells queue.now (λ h. result ≡ is_waiting h arrival) }
{
    has(&queue.messages, arrival)
}

/// Makes room for one call more.
pub fn reserve(queue: &mut Queue) -> Result<(), WantMemory>
    ensures unadmitted { queue.new.unadmitted.items ≡ queue.old.unadmitted.items }
    ensures messages { queue.new.messages.items ≡ queue.old.messages.items }
    ensures lines { queue.new.lines.items ≡ queue.old.lines.items }
    ensures crowded { queue.new.crowded.items ≡ queue.old.crowded.items }
    ensures kept { QueueStays queue.old queue.new }
    ensures room { OnOk result (HasPlace queue.new) }
{
    queue.unadmitted.reserve(1)?;
    queue.messages.reserve(1)?;
    queue.lines.reserve(1)?;
    queue.crowded.reserve(1)?;
    Ok(())
}

/// A call arrives. It is crowded where too many wait.
fn arrive(call: &Call, arrival: u64, queue: &mut Queue)
    requires { HasPlace queue.old }
    ensures { queued.QueueArrives arrival call.now queue.old queue.new }
{
    let crowded = queue.messages.len() as u64 >= UNADMITTED;
    queue.unadmitted.push_back_reserved(arrival);
    let message = is_message(Some(call));
    push_if(message, &mut queue.messages, arrival);
    push_if(!message, &mut queue.lines, arrival);
    push_if(crowded, &mut queue.crowded, arrival);
}

/// An arrival is admitted.
fn admit(arrival: u64, queue: &mut Queue)
    ensures { queued.QueueAdmits arrival queue.old queue.new }
{
    remove(&mut queue.unadmitted, arrival);
    remove(&mut queue.messages, arrival);
    remove(&mut queue.lines, arrival);
}

/// An arrival for which a child was made goes back to its place.
fn put_back(call: Option<&Call>, arrival: u64, queue: &mut Queue)
    requires { HasPlace queue.old }
    ensures { queued.QueueTakesBack arrival (option_copied call.entry) queue.old queue.new }
{
    insert(&mut queue.unadmitted, arrival);
    let message = is_message(call);
    insert_if(message, &mut queue.messages, arrival);
    insert_if(!message, &mut queue.lines, arrival);
}

/// A trial made the child.
fn child_made(call: Option<&Call>, arrival: Option<u64>, queue: &mut Queue)
    requires { HasPlace queue.old }
    ensures { queued.QueueMakesChild arrival (option_copied call.entry) queue.old queue.new }
{
    if let Some(arrival) = arrival {
        put_back(call, arrival, queue);
    }
}

/// A trial ends.
fn tried(answer: Attempt, call: Option<&Call>, arrival: Option<u64>, queue: &mut Queue)
    requires { may_queue (entry_kinds.Tried 0 answer) ≡ true → HasPlace queue.old }
    ensures { queued.QueueTries answer arrival (option_copied call.entry) queue.old queue.new }
{
    match answer {
        Attempt::Yes { .. } => child_made(call, arrival, queue),
        Attempt::No | Attempt::Raised | Attempt::Dying => {}
    }
}

/// Takes in an entry of the journal: it is given how many calls arrived before, what the entry's worker had
/// begun, and the call that goes back to the queue where the entry says that a child was made. Takes no memory.
pub fn advance(entry: &Entry, arrivals: u64, stage: Stage, call: Option<&Call>, queue: &mut Queue)
    requires { may_queue entry.now ≡ true → HasPlace queue.old }
    ensures { queued.QueueFollows entry.now arrivals stage (option_copied call.entry)
        queue.old queue.new }
{
    match entry {
        Entry::Arrive { call, .. } => arrive(call, arrivals, queue),
        Entry::Admit { arrival, .. } => admit(*arrival, queue),
        Entry::Tried { answer, .. } => tried(*answer, call, arrival_in(stage), queue),
        _ => {}
    }
}
