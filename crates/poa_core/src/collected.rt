//! What a connection is given.
use poa_base::{Head, Reply};

/// The outcome of a `collect`.
#[derive(Drop)]
pub enum Collected {
    /// The reply to this arrival, with what it needs of the message that it answers.
    Reply {
        arrival: u64,
        head: Head,
        reply: Reply,
    },
    /// No decided reply is uncollected; so many undecided calls ask one.
    Nothing {
        owed: u64,
    },
}
