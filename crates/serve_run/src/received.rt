//! What came of asking a door.
use poa_base::Session;

/// What came of asking a door for its next link.
#[derive(Drop)]
pub enum Received {
    /// A link was served and given back, with this session.
    Served(Session),
    /// Nobody was there.
    Nothing,
    /// No link is left.
    End,
    /// The door failed, and counted it.
    Failed,
}
