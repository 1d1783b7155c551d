//! The turns of workers.
ghost use Rattle.std.specs.Prelude.{◌≡◌, ◌<◌, ◌++◌, ◌∷◌, List, IfOk, OnOk};
ghost use Rattle.poa_base.specs.declared.Entry.{Entry as EntryData};
ghost use Rattle.replay_run.specs.Lines.{entry_line};
ghost use Rattle.replay_run.specs.Working.{AllIdle, ByWorker, IsIdle, Runs, RunsBelow, Rests, Turns};
ghost use Rattle.replay_run.specs.Effects.{Moved, Takes, Works};

use crate::player::Player;
use crate::printing::{print_entry, print_idle};
use poa_base::WantMemory;
use poa_core::StepOut;

/// How many workers there are.
pub(crate) const WORKERS: u32 = 16;

impl Player {
    /// One turn of a worker, and its entry printed, or that there is none.
    pub fn step(&mut self, worker: u32) -> Result<(), WantMemory>
        ensures { OnOk result (Works (ByWorker Turns worker) self.old self.new) }
    {
        if worker >= WORKERS {
            return Ok(());
        }
        if self.turn(worker)? {
            return Ok(());
        }
        print_idle(&mut self.printed, worker)?;
        Ok(())
    }

    /// The same until there is nothing to do, with the entries printed.
    pub fn run(&mut self, worker: u32) -> Result<(), WantMemory>
        ensures { OnOk result (Works (ByWorker Runs worker) self.old self.new) }
    {
        if worker >= WORKERS {
            return Ok(());
        }
        self.run_worker(worker)?;
        Ok(())
    }

    /// All workers run, again and again until none has anything to do.
    pub fn settle(&mut self) -> Result<(), WantMemory>
        ensures { OnOk result (Works Rests self.old self.new) }
    {
        // No memory holds so many entries.
        for _ in 0..u64::MAX {
            if !self.run_all()? {
                return Ok(());
            }
        }
        Err(WantMemory)
    }

    // All workers run in their order. Whether any made an entry.
    fn run_all(&mut self) -> Result<bool, WantMemory>
        ensures works { OnOk result (Works (RunsBelow 16) self.old self.new) }
        ensures moved { IfOk result (λ moved. Moved moved AllIdle self.old self.new) }
    {
        let mut moved = false;
        for worker in 0..WORKERS {
            moved |= self.run_worker(worker)?;
        }
        Ok(moved)
    }

    // Turns of a worker until there is nothing to do. Whether it made an entry.
    fn run_worker(&mut self, worker: u32) -> Result<bool, WantMemory>
        requires { worker < 16 }
        ensures works { OnOk result (Works (Runs worker) self.old self.new) }
        ensures moved { IfOk result
            (λ moved. Moved moved (λ life. IsIdle life worker) self.old self.new) }
    {
        let mut moved = false;
        // No memory holds so many entries.
        for _ in 0..u64::MAX {
            if !self.turn(worker)? {
                return Ok(moved);
            }
            moved = true;
        }
        Err(WantMemory)
    }

    // One turn of a worker. Whether it made an entry, which is printed.
    fn turn(&mut self, worker: u32) -> Result<bool, WantMemory>
        requires { worker < 16 }
        ensures { IfOk result (λ made. Takes made worker self.old self.new) }
    {
        match self.core.step(worker)? {
            StepOut::Did(_) => {
                self.print_last()?;
                Ok(true)
            }
            StepOut::Idle { .. } | StepOut::Stopped => Ok(false),
        }
    }

    // Prints the newest entry.
    fn print_last(&mut self) -> Result<(), WantMemory>
        ensures core { self.new.core ≡ self.old.core }
        ensures filled { self.new.filled ≡ self.old.filled }
        ensures turned_away { self.new.turned_away ≡ self.old.turned_away }
        ensures printed { OnOk result
            ((e : EntryData) (past : List EntryData) → self.old.core.history ≡ e ∷ past
            → self.new.printed.items ≡ self.old.printed.items ++ entry_line e) }
    {
        match self.core.entries().last() {
            Some(view) => print_entry(&mut self.printed, &view.to_entry()?),
            // There is one behind each turn that was made.
            None => Err(WantMemory),
        }
    }
}
