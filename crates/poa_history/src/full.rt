//! What stood when a run was filled.

/// How many calls, and bytes of calls, stood when the run took no more.
#[derive(Clone, Copy, Drop)]
pub struct Full {
    pub arrivals: u64,
    pub bytes: u64,
}
