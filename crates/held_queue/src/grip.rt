//! How a row of calls is held.
use crate::hold::Hold;

/// How the calls of a row are held.
#[derive(Clone, Copy, PartialEq, Eq, Drop)]
pub enum Grip {
    /// Each is held by this.
    Held(Hold),
    /// Each takes its turn in this adapter, where nobody may have it.
    Turn(u32),
    /// Each is to be asked.
    Loose,
}
