//! What is kept of the entries, so that nobody has to look for it in the journal.
ghost use Rattle.std.specs.Prelude.{◌≡◌, ◌<◌, ◌∷◌, ℕ, true, [], reverse, vec_len, vec_capacity, IfOk, OnOk};
ghost use Rattle.poa_base.specs.declared.Config.{Config};
ghost use Rattle.poa_history.specs.Runs.{IsRun};
ghost use Rattle.poa_history.specs.Entries.{stage_at};
ghost use Rattle.core_arrivals.specs.Placed.{arrives};
ghost use Rattle.core_arrivals.specs.Queued.{HasPlace};
ghost use Rattle.held_queue.specs.Frees.{freed_by};
ghost use Rattle.held_queue.specs.Numbers.{HasRoom};
ghost use Rattle.poa_history.specs.Waiting.{may_queue};
ghost use Rattle.core_arrivals.specs.Tallies.{HasRoomFor, HasRoomForOne};
ghost use Rattle.core_run.specs.Known.{TablesAgree, TablesFollow, TablesStay};
ghost use Rattle.core_run.specs.Service.{is_service};

use core_arrivals::{Calls, Queue, Tally, Workers, calls, queue, workers};
use held_queue::{Freed, HeldQueue};
use history_standing::Stage;
use journal_entries::Entries;
use poa_base::{Entry, WantMemory};
use std::alloc::Global;

/// Where each call arrived, which calls wait and what holds them, what each worker has begun, and what was counted.
#[derive(Drop)]
pub struct Tables {
    pub calls: Calls,
    pub queue: Queue,
    pub held: HeldQueue,
    pub workers: Workers,
    pub tally: Tally,
}

impl Tables {
    /// The tables of a run that hasn't begun.
    pub fn new(alloc: Global) -> Result<Tables, WantMemory>
        ensures { (c : Config) (run : ℕ) → IfOk result (λ tables. TablesAgree c run [] tables) }
    {
        Ok(Tables {
            calls: calls::none(alloc),
            queue: queue::empty(alloc),
            held: HeldQueue::empty(alloc),
            workers: workers::all_free(alloc)?,
            tally: core_arrivals::none(alloc),
        })
    }

    /// Makes room for a connection or a call; all else is as it was.
    pub fn reserve(&mut self) -> Result<(), WantMemory>
        ensures same { TablesStay self.old self.new }
        ensures calls { OnOk result
            (vec_len self.new.calls.places < vec_capacity self.new.calls.places) }
        ensures queue { OnOk result (HasPlace self.new.queue) }
        ensures held { OnOk result (HasRoom self.new.held.ready.heap) }
        ensures tally { OnOk result (HasRoomForOne self.new.tally) }
    {
        calls::reserve(&mut self.calls)?;
        queue::reserve(&mut self.queue)?;
        self.held.reserve()?;
        core_arrivals::reserve(&mut self.tally)
    }

    /// A request runs or ends. They are given what its worker had begun, and what the entry frees. Takes no memory.
    pub fn serve(&mut self, entry: &Entry, stage: Stage, freed: Freed)
        requires { is_service entry.now ≡ true }
        ensures { TablesFollow entry.now stage freed self.old self.new }
    {
        let arrivals = self.tally.arrivals;
        self.held.advance(entry, arrivals, stage, freed);
        workers::advance(entry, &mut self.workers);
    }

    /// An entry comes behind the journal's, for which there is room. It is given what the entry's worker had begun, and
    /// what the entry frees. Takes no memory.
    pub fn advance(&mut self, entry: &Entry, entries: &Entries, stage: Stage, freed: Freed)
        requires calls { arrives entry.now ≡ true
            → vec_len self.old.calls.places < vec_capacity self.old.calls.places }
        requires queue { may_queue entry.now ≡ true → HasPlace self.old.queue }
        requires held { may_queue entry.now ≡ true → HasRoom self.old.held.ready.heap }
        requires tally { HasRoomFor entry.now self.old.tally }
        ensures { (c : Config) (run limit : ℕ)
            → IsRun c run limit (entry.now ∷ reverse entries.now.items)
            → stage ≡ stage_at (reverse entries.now.items) entry.now
            → freed ≡ freed_by c run (reverse entries.now.items) entry.now
            → TablesAgree c run (reverse entries.now.items) self.old
            → TablesAgree c run (entry.now ∷ reverse entries.now.items) self.new }
    {
        let arrivals = self.tally.arrivals;
        let admitted = calls::call_admitted(entries, &self.calls, entry);
        core_arrivals::advance(entry, admitted, &mut self.tally);
        let tried = calls::call_tried(entries, &self.calls, entry, stage);
        queue::advance(entry, arrivals, stage, tried, &mut self.queue);
        self.held.advance(entry, arrivals, stage, freed);
        workers::advance(entry, &mut self.workers);
        calls::advance(entry, entries.len(), &mut self.calls);
    }
}
