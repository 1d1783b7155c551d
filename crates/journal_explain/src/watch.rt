//! What is watched of calls.
ghost use Rattle.std.specs.Prelude.{◌≡◌, [], IfOk, OnOk};
ghost use Rattle.journal_explain.specs.Explaining.{HasWatched};
ghost use Rattle.journal_explain.specs.Watching.{HasGiven, HasLooked, HasNoted};

use crate::beginnings::Beginnings;
use crate::came::{Came, note_came};
use crate::doing::Doing;
use crate::next::Next;
use crate::object_trail::ObjectTrail;
use crate::origins::Origins;
use crate::selection::Selection;
use crate::server::served_with;
use crate::trail::Trail;
use crate::trails::{begin, give_each, look_at_each, note_each};
use core_outboxes::Filed;
use core_run::Run;
use poa_base::{Entry, WantMemory};
use std::alloc::Global;

/// What is watched of calls: what happens to those that are asked for by themselves, since when all is set that commands set,
/// with which entries the activations began, what stands of an object, and what came of all, where that is asked.
#[derive(Drop)]
pub struct Watch {
    pub asked: Selection,
    /// The calls that are asked for by themselves, in the order of their arriving.
    pub trails: Vec<Trail>,
    /// Since when all is set that commands set.
    pub origins: Origins,
    /// With which entries the activations began.
    pub beginnings: Beginnings,
    /// The object that is asked for.
    pub object: ObjectTrail,
    /// All calls, in the order of their arriving, where that is asked.
    pub came: Vec<Came>,
}

impl Watch {
    /// A watch of a run of which no entry has been seen.
    #[tactic(auto, using(crate::proofs::AtFirst::watched_first))]
    pub(crate) fn new(alloc: Global, run: &Run, asked: Selection) -> Result<Self, WantMemory>
        requires { run.now.history ≡ [] }
        ensures asked { IfOk result (λ watch. watch.asked ≡ asked) }
        ensures watched { IfOk result (HasWatched run.now) }
    {
        let beginnings = Beginnings::new(alloc, run)?;
        let object = ObjectTrail::new(alloc, run, &asked)?;
        Ok(Watch {
            asked,
            trails: Vec::new(alloc),
            origins: Origins::new(alloc),
            beginnings,
            object,
            came: Vec::new(alloc),
        })
    }

    /// Notes what the next entry of a run, at this place, is to the calls.
    pub(crate) fn note(
        &mut self,
        alloc: Global,
        run: &Run,
        entry: &Entry,
        place: u64,
    ) -> Result<(), WantMemory>
        ensures { OnOk result (HasNoted run.now entry.now place self.old self.new) }
    {
        let begun = self.beginnings.told(served_with(entry));
        let next = Next {
            entry,
            place,
            begun,
        };
        begin(alloc, &self.asked, run, place, entry, &mut self.trails)?;
        note_each(alloc, run, &next, &self.origins, &mut self.trails)?;
        self.origins.note(run, entry, place)?;
        if self.asked.is_all() {
            note_came(alloc, run, entry, place, &mut self.came)?;
        }
        Ok(())
    }

    /// Notes the reply that was collected with the entry at this place, if one was.
    pub(crate) fn give(&mut self, place: u64, given: &Option<Filed>) -> Result<(), WantMemory>
        ensures { OnOk result (HasGiven given.now place self.old self.new) }
    {
        give_each(place, given, &mut self.trails)
    }

    /// Notes what the calls wait for in a run behind the entry at this place, which does this, what stands of activations, and of
    /// the object.
    pub(crate) fn look(
        &mut self,
        alloc: Global,
        run: &Run,
        place: u64,
        doing: Doing,
    ) -> Result<(), WantMemory>
        ensures { OnOk result (HasLooked run.now place doing self.old self.new) }
    {
        look_at_each(alloc, run, place, &self.origins, &mut self.trails)?;
        self.beginnings.note(run, place)?;
        self.object.note(run, &self.asked, place, doing)
    }
}
