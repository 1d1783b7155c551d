//! How far a run has come.

/// How far a run has come: the last of these that holds.
#[derive(Clone, Copy, PartialEq, Eq, Drop)]
pub enum Phase {
    /// It takes calls.
    Running,
    /// A call was refused for the limits of the run.
    Full,
    /// A `shutdown` was admitted.
    Shut,
    /// Workers gave the run up, this one first.
    Abandoned { worker: u32 },
}
