//! What the walk along a path finds.

/// What the walk from the root along a path finds: CORBA 3.3 Part 1, section 15.2.3.
#[derive(Clone, Copy, Drop)]
pub enum Found {
    /// The adapter of the path, by its number.
    Live(u32),
    /// The first adapter on the way that is being destroyed.
    Dying(u32),
    /// The parent of the first child that is missing, and how many names lead to that parent.
    Missing { parent: u32, depth: u32 },
}
