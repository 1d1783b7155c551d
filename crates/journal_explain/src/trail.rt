//! The trail of one call.
ghost use Rattle.std.specs.Prelude.{◌≡◌, ◌++◌, [], List, None, OnOk};
ghost use Rattle.journal_explain.specs.Stories.{IsNews, step_at};
ghost use Rattle.journal_explain.specs.Watching.{Gets};
ghost use Rattle.journal_explain.specs.declared.step.Step.{Step as StepOf};

use crate::adapter::Adapter;
use crate::call_name::CallName;
use crate::event::Event;
use crate::replies::{handed_to, is_to};
use crate::step::Step;
use crate::tenure::Tenure;
use crate::wait::Wait;
use core_outboxes::Filed;
use poa_base::{Call, WantMemory};
use std::alloc::Global;

/// The trail of one call: its steps so far, and what it waits for now.
#[derive(Drop)]
pub struct Trail {
    pub name: CallName,
    pub call: Call,
    /// The adapter that stood at the path of its key when it arrived.
    pub adapter: Option<Adapter>,
    pub steps: Vec<Step>,
    pub wait: Option<Wait>,
    /// The activation with which it was admitted last, if with one.
    pub server: Option<u32>,
    /// Whether that was active before the last entry.
    pub active: bool,
}

impl Trail {
    /// The trail of a call of which nothing has been seen, and of this adapter.
    pub(crate) fn new(alloc: Global, name: CallName, call: Call, adapter: Option<Adapter>) -> Self
        ensures adapter { result.adapter ≡ adapter }
        ensures name { result.name ≡ name }
        ensures call { result.call ≡ call }
        ensures steps { result.steps.items ≡ [] }
        ensures wait { result.wait ≡ None }
        ensures server { result.server ≡ None }
    {
        Trail {
            name,
            call,
            adapter,
            steps: Vec::new(alloc),
            wait: None,
            server: None,
            active: false,
        }
    }

    /// Notes what the entry at this place was to the call, which rests on this.
    pub(crate) fn note(
        &mut self,
        entry: u64,
        told: Option<Event>,
        tenure: Option<Tenure>,
    ) -> Result<(), WantMemory>
        ensures steps { OnOk result
            (self.new.steps.items ≡ self.old.steps.items ++ step_at entry told tenure) }
        ensures name { self.new.name ≡ self.old.name }
        ensures call { self.new.call ≡ self.old.call }
        ensures adapter { self.new.adapter ≡ self.old.adapter }
        ensures wait { self.new.wait ≡ self.old.wait }
        ensures server { self.new.server ≡ self.old.server }
        ensures active { self.new.active ≡ self.old.active }
    {
        if let Some(event) = told {
            self.steps.push(Step {
                entry,
                event,
                tenure,
            })?;
        }
        Ok(())
    }

    /// Notes the reply that was collected with the entry at this place, where it is one to the call.
    pub(crate) fn get(&mut self, entry: u64, given: &Option<Filed>) -> Result<(), WantMemory>
        ensures { OnOk result (Gets given.now entry self.old self.new) }
    {
        if is_to(given, self.name.arrival) {
            return self.put_reply(entry, given);
        }
        Ok(())
    }

    /// The same of a reply that is one to the call, if any is.
    #[inline(never)]
    fn put_reply(&mut self, entry: u64, given: &Option<Filed>) -> Result<(), WantMemory>
        ensures { OnOk result (Gets given.now entry self.old self.new) }
    {
        let told = handed_to(given, self.name.arrival)?;
        self.note(entry, told, None)
    }

    /// Notes what the call waits for behind the entry at this place, which rests on this, where that is another thing than
    /// before.
    pub(crate) fn wait_for(
        &mut self,
        entry: u64,
        wait: Option<Wait>,
        tenure: Option<Tenure>,
    ) -> Result<(), WantMemory>
        ensures steps { OnOk result ((news : List StepOf)
            × IsNews entry self.old.wait wait tenure news
            × (self.new.steps.items ≡ self.old.steps.items ++ news)) }
        ensures name { self.new.name ≡ self.old.name }
        ensures call { self.new.call ≡ self.old.call }
        ensures adapter { self.new.adapter ≡ self.old.adapter }
        ensures wait { OnOk result (self.new.wait ≡ wait) }
        ensures server { self.new.server ≡ self.old.server }
        ensures active { self.new.active ≡ self.old.active }
    {
        if wait == self.wait {
            return Ok(());
        }
        self.wait = wait;
        match wait {
            Some(wait) => self.note(entry, Some(Event::Waits(wait)), tenure),
            None => Ok(()),
        }
    }
}
