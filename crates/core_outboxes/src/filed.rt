//! A reply that is decided.
use poa_base::{Head, Reply};

/// A decided reply that its connection hasn't collected.
#[derive(Drop)]
pub struct Filed {
    pub arrival: u64,
    pub conn: u32,
    /// What it needs of the message that it answers.
    pub head: Head,
    pub reply: Reply,
}
