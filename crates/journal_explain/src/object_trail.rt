//! The trail of an object.
ghost use Rattle.std.specs.Prelude.{◌≡◌, ◌++◌, [], IfOk, OnOk};
ghost use Rattle.poa_history.specs.Life.{opened};
ghost use Rattle.journal_explain.specs.Watching.{Traces};
ghost use Rattle.journal_explain.specs.Objects as objects;

use crate::change::Change;
use crate::doing::Doing;
use crate::facing::command_admitted;
use crate::moment::{Moment, moment_of};
use crate::selection::Selection;
use crate::slots::slot_asked;
use crate::storing::{stored_asked, stored_by};
use core_run::Run;
use poa_base::{State, WantMemory};
use poa_choose::MapFact;
use std::alloc::Global;

/// The trail of the object that is asked for: what the active object map has for its id, and what its activations came to so
/// far. Where none is asked for, the map has nothing for it, nothing is stored for it, and nothing changes.
#[derive(Drop)]
pub struct ObjectTrail {
    /// What the map had before the first entry.
    pub opens: MapFact,
    /// What was stored for it before the first entry.
    pub stored: Option<State>,
    /// What the map has now.
    pub slot: MapFact,
    pub changes: Vec<Change>,
}

impl ObjectTrail {
    /// The trail of an object in a run of which no entry has been seen.
    pub(crate) fn new(alloc: Global, run: &Run, asked: &Selection) -> Result<Self, WantMemory>
        ensures opens { IfOk result (λ trail. trail.opens
            ≡ objects.slot_asked asked.now run.now.config run.now.run run.now.history) }
        ensures stored { IfOk result (λ trail. trail.stored
            ≡ objects.stored_asked asked.now run.now.config run.now.run (opened run.now) run.now.history) }
        ensures slot { IfOk result (λ trail. trail.slot
            ≡ objects.slot_asked asked.now run.now.config run.now.run run.now.history) }
        ensures changes { IfOk result (λ trail. trail.changes.items ≡ []) }
    {
        let slot = slot_asked(run, asked);
        let stored = stored_asked(run, asked)?;
        Ok(ObjectTrail {
            opens: slot,
            stored,
            slot,
            changes: Vec::new(alloc),
        })
    }

    /// Notes what stands of it in a run behind the entry at this place, which does this.
    pub(crate) fn note(
        &mut self,
        run: &Run,
        asked: &Selection,
        place: u64,
        doing: Doing,
    ) -> Result<(), WantMemory>
        ensures { OnOk result (Traces asked.now run.now place doing self.old self.new) }
    {
        let slot = slot_asked(run, asked);
        let moment = moment_of(doing, self.slot, slot);
        self.slot = slot;
        note_change(&mut self.changes, run, asked, place, doing, moment)
    }
}

/// Notes what an activation came to, if one came to something.
fn note_change(
    changes: &mut Vec<Change>,
    run: &Run,
    asked: &Selection,
    place: u64,
    doing: Doing,
    moment: Option<Moment>,
) -> Result<(), WantMemory>
    ensures { OnOk result (changes.new.items ≡ changes.old.items
        ++ objects.noted place doing (objects.command_by run.now.history doing) (objects.stored_by doing
        (objects.stored_asked asked.now run.now.config run.now.run (opened run.now) run.now.history)) moment) }
{
    let Some(moment) = moment else {
        return Ok(());
    };
    let command = command_admitted(run, doing)?;
    let stored = stored_by(run, asked, doing)?;
    changes.push(Change {
        entry: place,
        moment,
        doing,
        command,
        stored,
    })?;
    Ok(())
}
