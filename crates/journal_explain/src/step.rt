//! A step on a call's way.
use crate::event::Event;
use crate::tenure::Tenure;

/// What happened to a call with the entry at this place of the journal, from 0 on.
#[derive(Drop)]
pub struct Step {
    pub entry: u64,
    pub event: Event,
    /// On what it rests that it is held or admitted, where that is something that can be set.
    pub tenure: Option<Tenure>,
}
