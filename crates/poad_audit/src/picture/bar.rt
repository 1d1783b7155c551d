//! A bar of a picture.
ghost use Rattle.std.specs.Prelude.{◌≡◌};
ghost use Rattle.poad_audit.specs.PictureBars as drawn;

use crate::picture::phase::{Phase, activation_of};
use journal_explain::{Event, Step};

/// A phase of a call, from the entry that began it to the one that ended it, if there is one.
#[derive(Clone, Copy, Drop)]
pub(crate) struct Bar {
    /// The number of the call among those that arrived.
    pub call: u64,
    pub phase: Phase,
    /// The worker that admitted the call last.
    pub worker: Option<u32>,
    /// The activation for which it was admitted.
    pub activation: Option<u32>,
    pub begin: u64,
    pub end: Option<u64>,
}

impl Bar {
    /// Of a call of which nothing has been seen.
    pub(crate) fn unseen(call: u64) -> Bar
        ensures { result ≡ drawn.unseen call }
    {
        Bar {
            call,
            phase: Phase::Over,
            worker: None,
            activation: None,
            begin: 0,
            end: None,
        }
    }

    /// It ends with this entry.
    pub(crate) fn until(self, entry: u64) -> Bar
        ensures { result ≡ drawn.ended entry self }
    {
        Bar {
            end: Some(entry),
            ..self
        }
    }

    /// The bar that begins with a step behind it. `asked`: a reply is asked.
    pub(crate) fn then(self, asked: bool, step: &Step) -> Bar
        ensures { result ≡ drawn.next asked step.now self }
    {
        Bar {
            call: self.call,
            phase: self.phase.then(asked, &step.event),
            worker: worker_by(&step.event, self.worker),
            activation: activation_by(&step.event, self.activation),
            begin: step.entry,
            end: None,
        }
    }
}

fn worker_by(event: &Event, before: Option<u32>) -> Option<u32>
    ensures { result ≡ drawn.worker_by event.now before }
{
    match event {
        Event::Admitted { worker, .. } => Some(*worker),
        _ => before,
    }
}

fn activation_by(event: &Event, before: Option<u32>) -> Option<u32>
    ensures { result ≡ drawn.activation_by event.now before }
{
    match event {
        Event::Admitted { verdict, .. } => activation_of(verdict),
        _ => before,
    }
}
