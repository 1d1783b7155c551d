//! A second seat, for turns.
ghost use Rattle.std.specs.Prelude.{◌≡◌, None};

use crate::shared::Seat;

/// A second seat of one who serves connections. By it he makes the first worker's turns for the calls that came in by him,
/// so that they don't wait for that worker's thread. Without a seat he leaves them to it.
#[derive(Drop)]
pub struct Aid {
    pub seat: Option<Seat>,
}

impl Aid {
    /// One who makes no turns.
    pub fn none() -> Aid
        ensures { result.seat ≡ None }
    {
        Aid { seat: None }
    }
}
