//! How a run came off.
ghost use Rattle.std.specs.Prelude.{◌≡◌, ◌||◌, None, false, true};
ghost use Rattle.serve_run.specs.Outcomes as outcomes;

use crate::ran::PieceEnd;
use crate::refusing::earlier;
use poa_history::Full;

/// For want of what a piece wasn't started.
#[derive(Clone, Copy, Drop)]
pub enum Want {
    Memory,
    /// The crew counted it.
    Thread,
}

/// How a run came off.
#[derive(Clone, Copy, Drop)]
pub struct Outcome {
    /// A piece wasn't started, for want of this.
    pub short: Option<Want>,
    /// The run was given up for want of memory.
    pub lost: bool,
    /// A door failed.
    pub failed: bool,
    /// The least numbers with which a connection couldn't enter.
    pub refused: Option<Full>,
}

impl Outcome {
    /// Of a run in which nothing came to pass.
    pub fn good() -> Outcome
        ensures { result ≡ outcomes.good }
    {
        Outcome {
            short: None,
            lost: false,
            failed: false,
            refused: None,
        }
    }

    /// Of a run in which a piece wasn't started; `lost` where it was given up, too.
    pub fn short_of(want: Want, lost: bool) -> Outcome
        ensures { result ≡ outcomes.short_of want lost }
    {
        Outcome {
            short: Some(want),
            lost,
            failed: false,
            refused: None,
        }
    }

    /// With a door more.
    pub fn with_door(self, refused: Option<Full>, end: &PieceEnd) -> Outcome
        ensures { result ≡ outcomes.with_door refused end.now self }
    {
        Outcome {
            short: self.short,
            lost: self.lost,
            failed: self.failed || matches!(end, PieceEnd::DoorFailed),
            refused: earlier(self.refused, refused),
        }
    }

    /// Given up, where this says so.
    pub fn with_loss(self, lost: bool) -> Outcome
        ensures { result ≡ outcomes.with_loss lost self }
    {
        Outcome {
            short: self.short,
            lost: self.lost || lost,
            failed: self.failed,
            refused: self.refused,
        }
    }
}
