//! What comes of a piece.
use poa_history::{Full, Phase};
use poa_shared::{Aid, Seat, WorkEnd};

/// How a piece ended.
#[derive(Clone, Copy, Drop)]
pub enum PieceEnd {
    /// Its door said `End`.
    DoorEnd,
    /// Its door failed, and counted it.
    DoorFailed,
    /// The run took no more links: this was its phase.
    NotRunning(Phase),
    /// It was a worker, and ended so.
    Worked(WorkEnd),
}

/// What a piece gives back.
#[derive(Drop)]
pub struct Ran<A> {
    pub seat: Seat,
    /// By which a lane made turns.
    pub aid: Aid,
    /// The door that it served.
    pub door: Option<A>,
    /// The least numbers with which a connection couldn't enter, where that came to pass.
    pub refused: Option<Full>,
    pub end: PieceEnd,
}
