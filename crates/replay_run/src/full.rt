//! Where a run was full.

/// So many calls, and bytes of them, there were when a call, or a connection, was refused for the limits of a run.
#[derive(Clone, Copy, Drop)]
pub struct Full {
    pub arrivals: u64,
    pub bytes: u64,
}
