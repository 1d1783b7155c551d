//! Why serving stops.

/// Why serving stops.
#[derive(Clone, Copy)]
pub(crate) enum Stop {
    /// No whole message is left, and no bad one; so many bytes belong to none.
    Waits { have: u64 },
    /// A CloseConnection.
    Closed,
    /// A bad place or message, or one that isn't for a server, starts here.
    Refused { at: u64 },
    /// The call of a message is refused: so many calls, and bytes of them, had arrived.
    Full { arrivals: u64, bytes: u64 },
    /// No memory was left.
    NoMemory,
}
