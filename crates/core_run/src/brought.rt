//! What an entry brings.
ghost use Rattle.std.specs.Prelude.{◌≡◌};
ghost use Rattle.core_run.specs.Service as service;

use core_outboxes::{Decision, Ordered, Wait};
use held_queue::Freed;

/// What an entry of a worker brings, beside what it changes.
#[derive(Drop)]
pub struct Brought {
    /// What it decides of the arrival that it speaks of.
    pub decision: Option<Decision>,
    /// What the command that it admits waits for.
    pub wait: Option<Wait>,
    /// What the command that it admits orders.
    pub ordered: Option<Ordered>,
    /// What it frees of what holds calls.
    pub freed: Freed,
}

impl Brought {
    /// Nothing.
    pub fn nothing() -> Brought
        ensures { result ≡ service.nothing }
    {
        Brought {
            decision: None,
            wait: None,
            ordered: None,
            freed: Freed::nothing(),
        }
    }
}
