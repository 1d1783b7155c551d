//! A run.
ghost use Rattle.std.specs.Prelude.{◌≡◌, ◌+◌, ◌≤◌, ◌<◌, ℕ, ◌&&◌, ◌==◌, true, false, if◌then◌else◌, nat_lt, List, Some, None, is_none, not, option_map, reverse, IfOk, IsOk, OnOk, OnErr};
ghost use Rattle.poa_base.specs.Store.{stored as stored_in};
ghost use Rattle.poa_base.specs.declared.Entry.TheVariants.{Entered, Arrive, Filled, Left, Abandon};
ghost use Rattle.poa_policy.specs.Kept.{KeepsRules};
ghost use Rattle.history_standing.specs.Arrivals.{arrivals, arrived_bytes, connections};
ghost use Rattle.history_standing.specs.Nodes.{node_at};
ghost use Rattle.history_standing.specs.Searches.{count_below};
ghost use Rattle.history_standing.specs.Stages as begun;
ghost use Rattle.history_standing.specs.Changes.{standing};
ghost use Rattle.poa_history.specs.Leaving.{is_shut, are_gone};
ghost use Rattle.poa_history.specs.Legal.{IsLegal, IsOpen, MayArrive, MayFill, MayFollow, is_filled};
ghost use Rattle.poa_history.specs.Life as lives;
ghost use Rattle.poa_history.specs.Life.{opened, with_entry};
ghost use Rattle.poa_history.specs.Lifetime.{HasLifetime};
ghost use Rattle.poa_history.specs.Limits as limits;
ghost use Rattle.poa_history.specs.Phases.{phase_of};
ghost use Rattle.poa_history.specs.Replies as replies;
ghost use Rattle.poa_history.specs.Runs.{IsRun};
ghost use Rattle.poa_history.specs.States.{stored};
ghost use Rattle.poa_history.specs.Turns.{turn};
ghost use Rattle.history_laws.specs.Lasting.{KeepsUpdates, LeavesNothing};
ghost use Rattle.core_arrivals.specs.Begun.{only_ends};
ghost use Rattle.core_outboxes.specs.Owed.{AreOwed};
ghost use Rattle.core_state.specs.State.{StateAgrees};
ghost use Rattle.poa_history.specs.Entries.{is_turn};
ghost use Rattle.core_run.specs.Agreeing.{CountsAgree, QueuesAgree, RemovalsAgree};
ghost use Rattle.core_run.specs.Gives.{Gives};
ghost use Rattle.core_run.specs.Known.{TablesAgree};
ghost use Rattle.core_run.specs.Proceeds.{Proceeds};
ghost use Rattle.core_run.specs.ToCome.{is_ending};

use crate::inside::Inside;
use crate::tables::Tables;
use crate::{abandoning, arriving, beginning, collecting, connecting, stepping, taking};
use core_arrivals::{queue, workers};
use core_outboxes::{Desk, Filed, Fresh};
use core_state::State;
use history_laws::opening_laws::{lifetimes_are_kept, runs_last};
use history_standing::{Stage, nodes};
use journal_entries::Entries;
use poa_base::{Call, Config, Entry, Path, Store, WantMemory};
use poa_history::{Full, Phase};
use std::alloc::Global;
use std::marker::Model;

/// A run: what it was given, its journal, and what stands after it. It takes each entry that may follow, and says which
/// may. Contracts see the givens and the history; what is kept beside the journal agrees with it.
#[derive(Drop)]
pub struct Run {
    inside: Inside,
}

impl Model for Run {
    ghost use Rattle.std.specs.Coded.{codes};
    ghost use Rattle.poa_base.specs.contracts.store.Store as store;
    ghost use Rattle.poa_history.specs.Life.{Life};
    ghost use Rattle.core_run.specs.Kept.{IsKept, life};

    ghost Value = { Life };

    ghost coded = { Prim.hlevel (codes, store.the_row.coded) };

    ghost view = { λ r. life r.inside };

    ghost invariant = { λ r. IsKept r.inside };
}

impl Run {
    /// A run of a configuration that keeps its rules, with what was stored before it. It takes so many arrivals.
    pub fn new(
        alloc: Global,
        config: Config,
        run: u32,
        opening: Store,
        limit: u64,
    ) -> Result<Run, WantMemory>
        requires rules { KeepsRules config }
        requires limit { limit ≤ 4000000 }
        ensures { IfOk result (λ made. made ≡ lives.begun config run limit opening) }
    {
        let inside = beginning::begin(alloc, config, run, opening, limit)?;
        Ok(Run { inside })
    }

    /// A connection enters with the next number; or nothing changes.
    pub fn enter(&mut self, conn: u32) -> Result<(), WantMemory>
        requires { (conn ≡ connections self.old.history) × (conn < 4000000) }
        ensures ok { OnOk result (self.new ≡ with_entry (Entered conn) self.old) }
        ensures err { OnErr result (self.new ≡ self.old) }
    {
        connecting::enter(&mut self.inside, conn)
    }

    /// A call of so many bytes arrives on a connection; or nothing changes.
    pub fn arrive(&mut self, conn: u32, call: Call, size: u64) -> Result<(), WantMemory>
        requires { MayArrive self.old.limit self.old.history conn size call }
        ensures ok { OnOk result (self.new ≡ with_entry (Arrive conn size call) self.old) }
        ensures err { OnErr result (self.new ≡ self.old) }
    {
        arriving::arrive(&mut self.inside, conn, call, size)
    }

    /// The first call that isn't taken fills the run. Takes no memory.
    pub fn fill(&mut self, conn: u32, size: u64)
        requires { MayFill self.old.limit self.old.history conn size }
        ensures { self.new ≡ with_entry (Filled conn size) self.old }
    {
        arriving::fill(&mut self.inside, conn, size);
    }

    /// A connection is given its next reply, if it has one. Takes no memory.
    pub fn collect(&mut self, conn: u32) -> Option<Filed>
        ensures { Gives conn self.old result self.new }
    {
        collecting::collect(&mut self.inside, conn)
    }

    /// A connection leaves; its undecided calls go on. Takes no memory.
    pub fn leave(&mut self, conn: u32)
        requires { IsOpen self.old.history conn }
        ensures { self.new ≡ with_entry (Left conn) self.old }
    {
        connecting::leave(&mut self.inside, conn);
    }

    /// A worker below 16 that hasn't given the run up does so. Takes no memory.
    pub fn abandon(&mut self, worker: u32)
        requires worker { worker < 16 }
        requires going { begun.is_abandoned self.old.history worker ≡ false }
        ensures { self.new ≡ with_entry (Abandon worker) self.old }
    {
        abandoning::abandon(&mut self.inside, worker);
    }

    /// A worker's turn is taken: all of it takes effect, or nothing changes. One that only ends what was begun is
    /// always taken.
    pub fn turn(&mut self, entry: Entry) -> Result<(), WantMemory>
        requires turn { is_turn entry ≡ true }
        requires may { MayFollow self.old.config self.old.run self.old.limit self.old.history
            entry }
        ensures ok { OnOk result (self.new ≡ with_entry entry self.old) }
        ensures err { OnErr result (self.new ≡ self.old) }
        ensures ends { is_ending entry ≡ true → IsOk result }
    {
        taking::take(&mut self.inside, entry)
    }

    /// The next turn of a worker below 16, if it has one. That it has only to end what it began can always be told.
    pub fn next_turn(&mut self, worker: u32) -> Result<Option<Entry>, WantMemory>
        requires { worker < 16 }
        ensures next { IfOk result
            (λ entry. entry ≡ turn self.old.config self.old.run self.old.history worker) }
        ensures ends { only_ends (begun.stage self.old.history worker) ≡ true → IsOk result }
        ensures same { self.new ≡ self.old }
    {
        stepping::next(&mut self.inside, worker)
    }

    /// A worker below 16 that hasn't given the run up makes its next entry, if it has one: all of it takes effect, or nothing
    /// changes. What was begun can always be ended.
    pub fn proceed(&mut self, worker: u32) -> Result<bool, WantMemory>
        requires worker { worker < 16 }
        requires going { begun.is_abandoned self.old.history worker ≡ false }
        ensures made { IfOk result (λ made. Proceeds worker made self.old self.new) }
        ensures err { OnErr result (self.new ≡ self.old) }
        ensures ends { only_ends (begun.stage self.old.history worker) ≡ true → IsOk result }
    {
        stepping::proceed(&mut self.inside, worker)
    }

    /// Whether it is seen at a glance that a worker below 16 makes no entry next.
    pub fn is_surely_idle(&self, worker: u32) -> bool
        requires { worker < 16 }
        ensures { result ≡ true → turn self.now.config self.now.run self.now.history worker ≡ None }
    {
        stepping::is_surely_idle(&self.inside, worker)
    }

    /// The number of the next connection; none where 4,000,000 entered.
    pub fn next_connection(&self) -> Option<u32>
        ensures { result ≡ (if nat_lt (connections self.now.history) 4000000 then Some
            (connections self.now.history) else None) }
    {
        connecting::next_number(&self.tables().tally)
    }

    /// How many connections entered.
    pub fn connections(&self) -> u64
        ensures { result ≡ connections self.now.history }
    {
        core_arrivals::connections(&self.tables().tally)
    }

    /// How many calls arrived.
    pub fn arrivals(&self) -> u64
        ensures { result ≡ arrivals self.now.history }
    {
        self.tables().tally.arrivals
    }

    /// How many bytes the calls that arrived had.
    pub fn bytes(&self) -> u64
        ensures { result ≡ arrived_bytes self.now.history }
    {
        self.tables().tally.bytes
    }

    /// Whether a call of so many bytes is taken: the run has room for it, or it is the first `shutdown`.
    pub fn is_taken(&self, call: &Call, size: u64) -> bool
        ensures { result ≡ limits.is_taken self.now.limit self.now.history size call.now }
    {
        core_arrivals::is_taken(self.inside.limit, call, size, &self.tables().tally)
    }

    /// Whether a worker below 16 gave the run up.
    pub fn is_abandoned(&self, worker: u32) -> bool
        requires { worker < 16 }
        ensures { result ≡ begun.is_abandoned self.now.history worker }
    {
        workers::is_abandoned(&self.tables().workers, worker)
    }

    /// What a worker below 16 has begun and not ended.
    pub fn stage(&self, worker: u32) -> Stage
        requires { worker < 16 }
        ensures { result ≡ begun.stage self.now.history worker }
    {
        workers::stage(&self.tables().workers, worker)
    }

    /// How many undecided calls of a connection ask a reply.
    pub fn owed(&self, conn: u32) -> u64
        ensures { result ≡ replies.owed self.now.config self.now.run self.now.history conn }
    {
        self.desk().owed(conn)
    }

    /// How many arrivals are unadmitted.
    pub fn unadmitted(&self) -> u64
        ensures { result ≡ count_below (begun.is_unadmitted self.now.history)
            (arrivals self.now.history) }
    {
        queue::count(&self.tables().queue)
    }

    /// Whether nothing more can come: a `shutdown` was admitted, every connection but the first has left, and every
    /// call is admitted.
    pub fn is_over(&self) -> bool
        ensures { result ≡ (is_shut self.now.history
            && (are_gone self.now.history (connections self.now.history)
            && (count_below (begun.is_unadmitted self.now.history) (arrivals self.now.history)
            == 0))) }
    {
        core_arrivals::is_run_over(&self.tables().tally, self.unadmitted())
    }

    /// How far the run has come.
    pub fn phase(&self) -> Phase
        ensures { result ≡ phase_of self.now.history }
    {
        core_arrivals::phase_of(&self.tables().tally)
    }

    /// How many calls, and bytes of calls, stood when the run took no more, if it came to that.
    pub fn filled(&self) -> Option<Full>
        ensures counts { option_map (λ f. (f.arrivals, f.bytes)) result
            ≡ limits.filled_at self.now.history }
        ensures unfilled { is_none result ≡ not (is_filled self.now.history) }
    {
        core_arrivals::filled(&self.tables().tally)
    }

    /// To whom the last entry gave replies: whom to wake.
    pub fn fresh(&self) -> Fresh {
        self.desk().outboxes.fresh
    }

    /// For proofs: the history is legal, keeps the lifetime of every activation, leaves nothing undone, and keeps the
    /// updates of each object that a servant activator brings.
    pub fn keeps_laws(&self)
        ensures legal { IsLegal self.now.config self.now.run self.now.limit self.now.history }
        ensures runs { IsRun self.now.config self.now.run self.now.limit self.now.history }
        ensures lifetime { HasLifetime self.now.config self.now.run self.now.history }
        ensures undone { LeavesNothing self.now.config self.now.run self.now.history }
        ensures updates { KeepsUpdates self.now.config self.now.run (opened self.now)
            self.now.history }
    {
        lifetimes_are_kept();
        runs_last();
        let _inside = &self.inside;
    }

    /// The journal's entries, the oldest first.
    pub fn entries(&self) -> &Entries
        ensures { result.now.items ≡ reverse self.now.history }
    {
        &self.inside.entries
    }

    /// What stands, what is set and the servants, as they are kept beside the journal. The requests and trials in
    /// flight, and so each count of them, are those that stand after the history; so are the activations that aren't
    /// over, which of them are ending, and the removal that each worker finds due.
    pub fn state(&self) -> &State
        ensures counts { CountsAgree self.now result.now }
        ensures removals { RemovalsAgree self.now result.now }
        ensures state { StateAgrees self.now.config self.now.run (opened self.now) self.now.history
            result.now }
    {
        &self.inside.state
    }

    /// The tables that are kept beside the journal: where each call arrived, which wait, what each worker has begun,
    /// and what was counted. The calls that wait are those of the history, in its order, each ready to be asked or with
    /// those that the same holds.
    pub fn tables(&self) -> &Tables
        ensures queues { QueuesAgree self.now result.now }
        ensures tables { TablesAgree self.now.config self.now.run self.now.history result.now }
    {
        &self.inside.tables
    }

    /// The desk of replies, as it is kept beside the journal. It has a row for each call that is owed a reply: one that
    /// asks it, and that no entry has decided.
    pub fn desk(&self) -> &Desk
        ensures { AreOwed self.now.config self.now.run self.now.history result.now.owing.items }
    {
        &self.inside.desk
    }

    /// The number of the run.
    pub fn run(&self) -> u32
        ensures { result ≡ self.now.run }
    {
        self.inside.run
    }

    /// The configuration.
    pub fn config(&self) -> &Config
        ensures { result.now ≡ self.now.config }
    {
        &self.inside.config
    }

    /// What was stored when the run began.
    pub fn opening(&self) -> &Store
        ensures { result.now ≡ self.now.opening }
    {
        &self.inside.opening
    }

    /// What is stored.
    pub fn store(&self) -> &Store
        ensures { (path : List (List ℕ)) (oid : List ℕ)
            → stored_in result.now path oid
            ≡ stored self.now.config self.now.run (opened self.now) self.now.history path oid }
    {
        &self.state().servants.store
    }

    /// The number of the adapter at a path, also while it is being destroyed; none where there is none.
    pub fn adapter_number(&self, path: &Path) -> Option<u32>
        ensures { result ≡ option_map (λ n. n.number)
            (node_at (standing self.now.config self.now.run self.now.history).nodes path.now) }
    {
        let node = nodes::node_at(&self.state().standing.nodes, path.as_slice())?;
        Some(node.number)
    }
}
