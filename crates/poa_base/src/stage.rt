//! What a worker is at, and what a call is held by.

/// What a worker is at between two of its turns.
#[derive(Clone, Copy, Drop)]
pub enum Point {
    /// A servant runs for this arrival.
    Serving { arrival: u64 },
    /// A servant is brought for this arrival.
    Incarnating { arrival: u64 },
    /// An adapter activator is asked for this arrival.
    Trying { arrival: u64 },
    /// This activation was taken out, and its servant is etherealized.
    Etherealizing { activation: u32 },
    Free,
}

/// What holds a call, so that it is looked at again when that changes.
#[derive(Clone, Copy, Drop)]
pub enum Cause {
    /// The state of this manager.
    Manager(u32),
    /// What runs in this adapter.
    Adapter(u32),
    /// The id of this number in this adapter.
    Id { adapter: u32, number: u32 },
    /// A trial of a missing child of this adapter.
    Trial { parent: u32 },
}
