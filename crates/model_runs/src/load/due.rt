//! A reply that is due.

/// That an arrival is decided, and its connection isn't given the reply yet.
#[derive(Clone, Copy, Drop)]
pub struct Due {
    pub conn: u32,
    pub arrival: u64,
}
