//! The core of the adapter.
ghost use Rattle.std.specs.Prelude.{◌≡◌, ◌≤◌, ◌<◌, true, None, option_map, reverse, IfOk};
ghost use Rattle.poa_history.specs.Phases.{phase_of};
ghost use Rattle.poa_policy.specs.Kept.{KeepsRules};
ghost use Rattle.history_laws.specs.Lasting.{KeepsUpdates, LeavesNothing};
ghost use Rattle.poa_history.specs.Runs.{IsRun};
ghost use Rattle.history_standing.specs.Arrivals.{connections};
ghost use Rattle.history_standing.specs.Changes.{standing};
ghost use Rattle.poa_history.specs.Legal.{IsLegal, IsOpen, IsSize};
ghost use Rattle.poa_history.specs.Lifetime.{HasLifetime};
ghost use Rattle.history_standing.specs.Nodes.{node_at};
ghost use Rattle.poa_base.specs.declared.Entry.TheVariants.{Left};
ghost use Rattle.poa_history.specs.Life.{begun, opened, with_entry};
ghost use Rattle.poa_history.specs.Turns.{turn};
ghost use Rattle.core_run.specs.Agrees.{AreOwed, StateAgrees};
ghost use Rattle.core_run.specs.Known.{TablesAgree};
ghost use Rattle.core_run.specs.Agreeing.{CountsAgree, QueuesAgree, RemovalsAgree};
ghost use Rattle.poa_core.specs.Answers as answers;
ghost use Rattle.poa_core.specs.Fits.{FitsItsCall};
ghost use Rattle.poa_core.specs.Stored.{Stores};

use crate::arrive_fault::ArriveFault;
use crate::collected::Collected;
use crate::enter_fault::EnterFault;
use crate::step_out::StepOut;
use crate::{abandoning, arriving, collecting, connecting, stepping};
use core_run::{Desk, Entries, Fresh, Run, State, Tables};
use poa_base::{Call, Config, Entry, Path, Store, WantMemory};
use poa_history::{Full, Givens, Phase};
use seat_lock::Chronicle;
use std::alloc::Global;
use std::marker::Model;

/// The adapter: its run. Contracts see what the run was given, and its history. It is as thin as a pointer, so that a
/// lock hands it on at no cost.
#[derive(Drop)]
pub struct Core {
    run: Box<Run>,
}

impl Model for Core {
    ghost use Rattle.std.specs.Coded.{codes};
    ghost use Rattle.poa_base.specs.contracts.store.Store as store;
    ghost use Rattle.poa_history.specs.Life.{Life};

    ghost Value = { Life };

    ghost coded = { Prim.hlevel (codes, store.the_row.coded) };

    ghost view = { λ c. c.run.value };
}

/// Under a lock the core stands for its history, in the journal's order.
impl Chronicle for Core {
    type Givens = Givens;

    type Entry = Entry;

    ghost use Rattle.std.specs.Prelude.{reverse};
    ghost use Rattle.poa_history.specs.Owners.{owner_of};
    ghost use Rattle.poa_history.specs.Life.{givens_of};

    ghost givens = { givens_of };

    ghost history = { λ c. reverse c.history };

    ghost owner = { owner_of };
}

impl Core {
    /// A run of a configuration that keeps its rules, with what was stored before it. It takes so many
    /// arrivals, from 1 to 4,000,000.
    pub fn new(
        alloc: Global,
        config: Config,
        run: u32,
        store: Store,
        limit: u64,
    ) -> Result<Core, WantMemory>
        requires rules { KeepsRules config }
        requires limit { (1 ≤ limit) × (limit ≤ 4000000) }
        ensures { IfOk result (λ core. core ≡ begun config run limit store) }
    {
        let run = Run::new(alloc, config, run, store, limit)?;
        Ok(Core {
            run: Box::new(alloc, run)?,
        })
    }

    /// A connection enters, and gets its number. `Limit` exactly where 4,000,000 entered before.
    pub fn enter(&mut self) -> Result<u32, EnterFault>
        ensures { answers.Enters self.old result self.new }
    {
        connecting::enter(&mut self.run)
    }

    /// A call of so many bytes arrives on a connection, and gets its number. `Limit` exactly where the run is
    /// full: the first such call is noted in the journal. The first `shutdown` is taken nevertheless.
    pub fn arrive(&mut self, conn: u32, call: Call, size: u64) -> Result<u64, ArriveFault>
        requires conn { IsOpen self.old.history conn }
        requires size { IsSize size }
        ensures { answers.Arrives conn call size self.old result self.new }
    {
        arriving::arrive(&mut self.run, conn, call, size)
    }

    /// A worker below 16 makes its next entry. Where it has only to end what it began, that takes no memory.
    pub fn step(&mut self, worker: u32) -> Result<StepOut, WantMemory>
        requires { worker < 16 }
        ensures { answers.Steps worker self.old result self.new }
    {
        stepping::step(&mut self.run, worker)
    }

    /// Whether it is seen at a glance that a worker below 16 makes no entry next.
    pub fn is_surely_idle(&self, worker: u32) -> bool
        requires { worker < 16 }
        ensures { result ≡ true → turn self.now.config self.now.run self.now.history worker ≡ None }
    {
        self.run.is_surely_idle(worker)
    }

    /// A connection that entered is given its next reply, which is one to a call of its kind. It may have left. Takes
    /// no memory.
    pub fn collect(&mut self, conn: u32) -> Collected
        requires { conn < connections self.old.history }
        ensures collects { answers.Collects conn self.old result self.new }
        ensures fits { FitsItsCall self.old.history result }
    {
        collecting::collect(&mut self.run, conn)
    }

    /// A connection leaves; its undecided calls go on. Takes no memory.
    pub fn leave(&mut self, conn: u32)
        requires { IsOpen self.old.history conn }
        ensures { self.new ≡ with_entry (Left conn) self.old }
    {
        self.run.leave(conn);
    }

    /// A worker below 16 gives the run up; one that did before changes nothing. Takes no memory.
    pub fn abandon(&mut self, worker: u32)
        requires { worker < 16 }
        ensures { answers.Abandons worker self.old self.new }
    {
        abandoning::abandon(&mut self.run, worker);
    }

    /// How far the run has come.
    pub fn phase(&self) -> Phase
        ensures { result ≡ phase_of self.now.history }
    {
        self.run.phase()
    }

    /// How many calls, and bytes of calls, stood when the run took no more, if it came to that.
    pub fn filled(&self) -> Option<Full>
        ensures { option_map (λ f. (f.arrivals, f.bytes)) result
            ≡ answers.filled_at self.now.history }
    {
        self.run.filled()
    }

    /// To whom the last entry gave replies: whom to wake.
    pub fn fresh(&self) -> Fresh {
        self.run.fresh()
    }

    /// For proofs: the history is that of a run of an accepted configuration, and legal.
    pub fn is_legal(&self)
        ensures { IsRun self.now.config self.now.run self.now.limit self.now.history }
    {
        self.run.keeps_laws();
    }

    /// For proofs: the history is legal, keeps the lifetime of every activation, leaves nothing undone, and keeps the
    /// updates of each object that a servant activator brings.
    pub fn keeps_laws(&self)
        ensures legal { IsLegal self.now.config self.now.run self.now.limit self.now.history }
        ensures runs { IsRun self.now.config self.now.run self.now.limit self.now.history }
        ensures lifetime { HasLifetime self.now.config self.now.run self.now.history }
        ensures undone { LeavesNothing self.now.config self.now.run self.now.history }
        ensures updates { KeepsUpdates self.now.config self.now.run (opened self.now)
            self.now.history }
    {
        self.run.keeps_laws();
    }

    /// The journal's entries, the oldest first. They are a legal history of a run of an accepted configuration, which keeps
    /// the lifetime of every activation, leaves nothing undone, and keeps the updates of each object that a servant
    /// activator brings.
    pub fn entries(&self) -> &Entries
        ensures entries { result.now.items ≡ reverse self.now.history }
        ensures legal { IsLegal self.now.config self.now.run self.now.limit self.now.history }
        ensures runs { IsRun self.now.config self.now.run self.now.limit self.now.history }
        ensures lifetime { HasLifetime self.now.config self.now.run self.now.history }
        ensures undone { LeavesNothing self.now.config self.now.run self.now.history }
        ensures updates { KeepsUpdates self.now.config self.now.run (opened self.now)
            self.now.history }
    {
        self.keeps_laws();
        self.run.entries()
    }

    /// What stands, what is set and the servants, as they are kept beside the journal. The requests and trials in
    /// flight, and so each count of them, are those that stand after the history; so are the activations that aren't
    /// over, which of them are ending, and the removal that each worker finds due.
    pub fn state(&self) -> &State
        ensures counts { CountsAgree self.now result.now }
        ensures removals { RemovalsAgree self.now result.now }
        ensures state { StateAgrees self.now.config self.now.run (opened self.now) self.now.history
            result.now }
    {
        self.run.state()
    }

    /// The tables that are kept beside the journal: where each call arrived, which wait, what each worker has begun,
    /// and what was counted. The calls that wait are those of the history, in its order, each ready to be asked or with
    /// those that the same holds.
    pub fn tables(&self) -> &Tables
        ensures queues { QueuesAgree self.now result.now }
        ensures tables { TablesAgree self.now.config self.now.run self.now.history result.now }
    {
        self.run.tables()
    }

    /// The desk of replies, as it is kept beside the journal. It has a row for each call that is owed a reply: one that
    /// asks it, and that no entry has decided.
    pub fn desk(&self) -> &Desk
        ensures { AreOwed self.now.config self.now.run self.now.history result.now.owing.items }
    {
        self.run.desk()
    }

    /// The number of the run.
    pub fn run(&self) -> u32
        ensures { result ≡ self.now.run }
    {
        self.run.run()
    }

    /// The configuration.
    pub fn config(&self) -> &Config
        ensures { result.now ≡ self.now.config }
    {
        self.run.config()
    }

    /// What was stored when the run began.
    pub fn opening(&self) -> &Store
        ensures { result.now ≡ self.now.opening }
    {
        self.run.opening()
    }

    /// What is stored.
    pub fn store(&self) -> &Store
        ensures { Stores self.now result.now }
    {
        self.run.store()
    }

    /// The number of the adapter at a path, also while it is being destroyed; none where there is none.
    pub fn adapter_number(&self, path: &Path) -> Option<u32>
        ensures { result ≡ option_map (λ n. n.number)
            (node_at (standing self.now.config self.now.run self.now.history).nodes path.now) }
    {
        self.run.adapter_number(path)
    }

    /// How many arrivals are unadmitted.
    pub fn unadmitted(&self) -> u64
        ensures { result ≡ answers.unadmitted self.now.history }
    {
        self.run.unadmitted()
    }
}
