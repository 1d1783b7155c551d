//! Who audits a journal, entry by entry.
ghost use Rattle.std.specs.Prelude.{◌≡◌, ◌≤◌, [], IfOk, OnOk};
ghost use Rattle.poa_policy.specs.Kept.{KeepsRules};
ghost use Rattle.poa_history.specs.Life.{begun};
ghost use Rattle.journal_audit.specs.Auditing.{HasTaken, Takes};
ghost use Rattle.journal_audit.specs.Judging.{GivesBack};

use crate::judged::Judged;
use crate::judging::judge;
use crate::refusal::Refusal;
use core_outboxes::Filed;
use core_run::Run;
use poa_base::{Config, Entry, Store, WantMemory};
use std::alloc::Global;

/// Who audits a journal: the run of its legal entries so far, and the first that isn't legal. Behind that one nothing is
/// taken, and the run isn't asked any more.
#[derive(Drop)]
pub struct Auditor {
    pub run: Run,
    /// How many calls the run takes.
    pub limit: u64,
    pub refusal: Option<Refusal>,
}

impl Auditor {
    /// One who has seen no entry yet, of a run of this number and configuration, which keeps its rules, with what was stored
    /// before it. The run takes so many calls.
    pub fn new(
        alloc: Global,
        config: Config,
        run: u32,
        opening: Store,
        limit: u64,
    ) -> Result<Auditor, WantMemory>
        requires rules { KeepsRules config }
        requires limit { limit ≤ 4000000 }
        ensures taken { IfOk result (HasTaken []) }
        ensures run { IfOk result (λ auditor. auditor.run ≡ begun config run limit opening) }
    {
        let run = Run::new(alloc, config, run, opening, limit)?;
        Ok(Auditor {
            run,
            limit,
            refusal: None,
        })
    }

    /// Takes the next entry where it may follow, and else notes why it may not. Behind an entry that isn't legal nothing
    /// changes. `WantMemory`: there was none; this auditor is of no use any more.
    pub fn take(&mut self, entry: Entry) -> Result<(), WantMemory>
        requires { self.old.limit ≡ self.old.run.limit }
        ensures { OnOk result (Takes entry self.old self.new) }
    {
        let _given = self.follow(entry)?;
        Ok(())
    }

    /// The same. Tells the reply that the entry gave, where it collects one and was taken.
    pub fn follow(&mut self, entry: Entry) -> Result<Option<Filed>, WantMemory>
        requires { self.old.limit ≡ self.old.run.limit }
        ensures takes { OnOk result (Takes entry self.old self.new) }
        ensures gives { IfOk result (GivesBack entry self.old.run self.new.refusal) }
    {
        if self.refusal.is_some() {
            return Ok(None);
        }
        let place = self.run.entries().len() as u64;
        match judge(&mut self.run, self.limit, entry)? {
            Judged::Taken(given) => Ok(given),
            Judged::Refused(breach) => {
                self.refusal = Some(breach.at(place));
                Ok(None)
            }
        }
    }
}
