//! The requests and locates that wait.
ghost use Rattle.std.specs.Prelude.{◌≡◌, ◌<◌, ◌≤◌, [], ℕ, true, false, List, map, IfSome, IfNone, OnOk};
ghost use Rattle.poa_base.specs.declared.Config.{Config};
ghost use Rattle.poa_base.specs.declared.Entry.{Entry as EntryOf};
ghost use Rattle.history_standing.specs.Arrivals.{arrivals as arrivals_in};
ghost use Rattle.history_standing.specs.Changes.{standing};
ghost use Rattle.held_queue.specs.Held.{HeldAgrees, IsSettled, HeldStays, HeldStaysWhere, HeldPuts, HeldFollows};
ghost use Rattle.held_queue.specs.Numbers.{has, HasRoom};
ghost use Rattle.held_queue.specs.Rows.{freed_row};
ghost use Rattle.poa_history.specs.Waiting.{is_waiting, may_queue, received as the_received};
ghost use Rattle.poa_history.specs.Entries.{stage_at};

use crate::freed::Freed;
use crate::hold::Hold;
use crate::numbers::Numbers;
use crate::row::Row;
use crate::rows;
use history_standing::{Flight, Stage};
use poa_base::{Attempt, Entry, WantMemory};
use poa_history::calls::is_message;
use poa_history::workers::arrival_in;
use std::alloc::Global;

/// The requests and locates that wait: those that are ready to be asked, and the others in rows by what holds them.
#[derive(Drop)]
pub struct HeldQueue {
    pub ready: Numbers,
    pub rows: Vec<Row>,
}

/// The request or locate that comes into the queue with an entry, where one does.
fn received(entry: &Entry, arrivals: u64, stage: Stage) -> Option<u64>
    ensures received { (past : List EntryOf) → arrivals ≡ arrivals_in past
        → stage ≡ stage_at past entry.now
        → result ≡ the_received past entry.now }
    ensures queues { IfSome result (λ _. may_queue entry.now ≡ true) }
{
    match entry {
        Entry::Arrive { call, .. } => {
            if is_message(Some(call)) {
                Some(arrivals)
            } else {
                None
            }
        }
        Entry::Tried {
            answer: Attempt::Yes { .. },
            ..
        } => arrival_in(stage),
        _ => None,
    }
}

impl HeldQueue {
    /// The queue before the first arrival.
    pub fn empty(alloc: Global) -> HeldQueue
        ensures { (c : Config) (run : ℕ) → HeldAgrees c run [] result }
    {
        HeldQueue {
            ready: Numbers::new(alloc),
            rows: Vec::new(alloc),
        }
    }

    /// Makes room for one call more.
    pub fn reserve(&mut self) -> Result<(), WantMemory>
        ensures kept { HeldStays self.old self.new }
        ensures room { OnOk result (HasRoom self.new.ready.heap) }
    {
        self.ready.reserve()
    }

    /// Makes those ready that a worker is to ask next: of each row that was freed the first call, and of the requests
    /// that take their turn in an adapter the first one, where nobody has the turn.
    pub fn settle(&mut self, flights: &[Flight], worker: u32) -> Result<(), WantMemory>
        ensures kept { HeldStaysWhere (λ c run h. flights.now ≡ (standing c run h).flights)
            self.old self.new }
        ensures settled { OnOk result (IsSettled worker self.new) }
    {
        rows::settle(&mut self.rows, &mut self.ready, flights, worker)
    }

    /// The least of those that are ready.
    pub fn least(&self) -> Option<u64>
        ensures there { IfSome result (λ x. has self.now.ready.heap x ≡ true) }
        ensures least { IfSome result (λ x. (r : ℕ) → has self.now.ready.heap r ≡ true → x ≤ r) }
        ensures none { IfNone result ((r : ℕ) → has self.now.ready.heap r ≡ false) }
    {
        self.ready.least()
    }

    /// The least of those that are ready is held by this.
    pub fn put(&mut self, alloc: Global, arrival: u64, hold: Hold) -> Result<(), WantMemory>
        requires there { has self.old.ready.heap arrival ≡ true }
        requires least { (r : ℕ) → has self.old.ready.heap r ≡ true → arrival ≤ r }
        ensures { HeldPuts arrival hold self.old self.new }
    {
        rows::put(alloc, hold, &mut self.rows, &mut self.ready)
    }

    /// The least of those that are ready waits no longer.
    pub fn drop_least(&mut self, arrival: u64)
        requires there { has self.old.ready.heap arrival ≡ true }
        requires least { (r : ℕ) → has self.old.ready.heap r ≡ true → arrival ≤ r }
        ensures { HeldStaysWhere (λ c run h. is_waiting h arrival ≡ false) self.old self.new }
    {
        let _ = self.ready.pop();
    }

    /// Takes in an entry of the journal: it is given how many calls arrived before, what the entry's worker had begun,
    /// and what the entry frees. Takes no memory.
    pub fn advance(&mut self, entry: &Entry, arrivals: u64, stage: Stage, freed: Freed)
        requires { may_queue entry.now ≡ true → HasRoom self.old.ready.heap }
        ensures held { HeldFollows entry.now arrivals stage freed self.old self.new }
        ensures rows { self.new.rows.items ≡ map (freed_row freed) self.old.rows.items }
    {
        rows::free(&mut self.rows, freed);
        if let Some(arrival) = received(entry, arrivals, stage) {
            self.ready.push_reserved(arrival);
        }
    }
}
