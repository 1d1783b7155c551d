//! A call that is owed a reply.
use crate::wait::Wait;
use poa_base::Head;

/// A call that asks a reply, and that no entry has decided.
#[derive(Clone, Copy, Drop)]
pub struct Owing {
    pub arrival: u64,
    pub conn: u32,
    /// The number of an administrator's line; 0 for a message.
    pub number: u64,
    /// What the reply needs of the message.
    pub head: Head,
    /// What it waits for, where it was admitted as a command that waits.
    pub wait: Option<Wait>,
}
