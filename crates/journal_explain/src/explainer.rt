//! Who explains calls, entry by entry.
ghost use Rattle.std.specs.Prelude.{◌≡◌, ◌≤◌, [], IfOk, OnOk};
ghost use Rattle.poa_policy.specs.Kept.{KeepsRules};
ghost use Rattle.poa_history.specs.Life.{begun};
ghost use Rattle.journal_audit.specs.Auditing.{HasTaken};
ghost use Rattle.journal_explain.specs.Explaining.{Hears, Sees};

use crate::doing::Doing;
use crate::replies::{given_by, is_collect};
use crate::selection::Selection;
use crate::watch::Watch;
use journal_audit::Auditor;
use poa_base::{Config, Entry, Store, WantMemory};
use std::alloc::Global;

/// Who explains calls: an auditor of the entries, and what is watched of the calls.
#[derive(Drop)]
pub struct Explainer {
    alloc: Global,
    pub auditor: Auditor,
    pub watch: Watch,
}

impl Explainer {
    /// One who has heard no entry yet, of a run of this number and configuration, which keeps its rules, with what was stored
    /// before it. The run takes so many calls.
    #[tactic(auto, using(crate::proofs::AtFirst::sees_first))]
    pub fn new(
        alloc: Global,
        config: Config,
        run: u32,
        opening: Store,
        limit: u64,
        asked: Selection,
    ) -> Result<Explainer, WantMemory>
        requires rules { KeepsRules config }
        requires limit { limit ≤ 4000000 }
        ensures taken { IfOk result (λ explainer. HasTaken [] explainer.auditor) }
        ensures sees { IfOk result Sees }
        ensures run { IfOk result (λ explainer. explainer.auditor.run ≡ begun config run limit opening) }
        ensures asked { IfOk result (λ explainer. explainer.watch.asked ≡ asked) }
    {
        let auditor = Auditor::new(alloc, config, run, opening, limit)?;
        let watch = Watch::new(alloc, &auditor.run, asked)?;
        Ok(Explainer {
            alloc,
            auditor,
            watch,
        })
    }

    /// Hears the next entry. `WantMemory`: there was none; this explainer is of no use any more.
    pub fn take(&mut self, entry: Entry) -> Result<(), WantMemory>
        requires { self.old.auditor.limit ≡ self.old.auditor.run.limit }
        ensures { OnOk result (Hears entry self.old self.new) }
    {
        let place = self.auditor.run.entries().len() as u64;
        let doing = Doing::of(&entry);
        let collects = is_collect(&entry);
        self.watch
            .note(self.alloc, &self.auditor.run, &entry, place)?;
        let followed = self.auditor.follow(entry)?;
        if self.auditor.refusal.is_some() {
            return Ok(());
        }
        let given = given_by(collects, followed);
        self.watch.give(place, &given)?;
        self.watch.look(self.alloc, &self.auditor.run, place, doing)
    }
}
