//! Who the entries of a journal are shown to.
ghost use Rattle.std.specs.Prelude.{◌≡◌, ◌≤◌, [], IfOk, IfSome, OnOk};
ghost use Rattle.poa_policy.specs.Kept.{KeepsRules};
ghost use Rattle.poa_history.specs.Life.{begun};
ghost use Rattle.journal_audit.specs.Auditing.{HasTaken, Takes};
ghost use Rattle.journal_audit.specs.Looking.{MatchesIn, Watches, link_of};
ghost use Rattle.journal_audit.specs.Matching.{IsShort};

use crate::auditor::Auditor;
use crate::link::Link;
use crate::matched::Matched;
use crate::onlooker::Onlooker;
use poa_base::{Config, Entry, Store, WantMemory};
use std::alloc::Global;

/// Who the entries of a journal are shown to: an auditor, and an onlooker where a link is asked for.
#[derive(Drop)]
pub(crate) struct Watch<'a> {
    pub(crate) auditor: Auditor,
    pub(crate) onlooker: Option<Onlooker<'a>>,
}

impl<'a> Watch<'a> {
    /// Those who have seen no entry yet, of a run of this number and configuration, which keeps its rules, with what was stored
    /// before it. The run takes so many calls.
    pub(crate) fn new(
        alloc: Global,
        config: Config,
        run: u32,
        opening: Store,
        limit: u64,
        link: Option<Link<'a>>,
    ) -> Result<Watch<'a>, WantMemory>
        requires rules { KeepsRules config }
        requires limit { limit ≤ 4000000 }
        requires short { IfSome link IsShort }
        ensures taken { IfOk result (λ watch. HasTaken [] watch.auditor) }
        ensures run { IfOk result (λ watch. watch.auditor.run ≡ begun config run limit opening) }
        ensures watches { IfOk result Watches }
        ensures link { IfOk result (λ watch. link_of watch ≡ link.entry) }
    {
        let auditor = Auditor::new(alloc, config, run, opening, limit)?;
        let onlooker = match link {
            Some(link) => Some(Onlooker::new(alloc, link)),
            None => None,
        };
        Ok(Watch { auditor, onlooker })
    }

    /// Shows them the next entry. `WantMemory`: there was none; they are of no use any more.
    pub(crate) fn take(&mut self, entry: Entry) -> Result<(), WantMemory>
        requires limited { self.old.auditor.limit ≡ self.old.auditor.run.limit }
        requires watches { Watches self.old }
        ensures takes { OnOk result (Takes entry self.old.auditor self.new.auditor) }
        ensures watches { OnOk result (Watches self.new) }
        ensures link { link_of self.new ≡ link_of self.old }
    {
        match &mut self.onlooker {
            Some(onlooker) => onlooker.attend(&mut self.auditor, entry),
            None => self.auditor.take(entry),
        }
    }

    /// Whether the bytes of the link, where one is asked for and each entry is legal, are a session of its connection that ended
    /// well. The run is of no use behind that.
    pub(crate) fn matched(&mut self) -> Result<Option<Matched>, WantMemory>
        requires { Watches self.old }
        ensures matched { IfOk result (λ matched.
            MatchesIn self.old.auditor.refusal self.old.auditor.run (link_of self.old) matched) }
        ensures refusal { self.new.auditor.refusal ≡ self.old.auditor.refusal }
    {
        if self.auditor.refusal.is_some() {
            return Ok(None);
        }
        let Some(onlooker) = &mut self.onlooker else {
            return Ok(None);
        };
        let conn = onlooker.link.conn();
        let is_session = onlooker.is_session(&mut self.auditor.run)?;
        Ok(Some(Matched { conn, is_session }))
    }
}
