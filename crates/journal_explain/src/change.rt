//! A change in what stands of an object.
use crate::doing::Doing;
use crate::moment::Moment;
use poa_base::{Command, State};

/// What an activation of an object came to with the entry at this place of the journal, from 0 on.
#[derive(Drop)]
pub struct Change {
    pub entry: u64,
    pub moment: Moment,
    /// What the entry does.
    pub doing: Doing,
    /// The administrator's command that it admits, if it admits one.
    pub command: Option<Command>,
    /// What is stored for the object then, where a servant was etherealized with the entry.
    pub stored: Option<State>,
}
