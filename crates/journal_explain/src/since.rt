//! Since when something is set.

/// The entry that set it last, by its place in the journal, from 0 on, and the call that it admits.
#[derive(Clone, Copy, Drop)]
pub struct Since {
    pub entry: u64,
    pub arrival: u64,
}
