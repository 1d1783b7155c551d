//! What an entry frees.
ghost use Rattle.std.specs.Prelude.{◌≡◌};
ghost use Rattle.held_queue.specs.Frees.{everything, frees, nothing};

use crate::hold::Hold;

/// What an entry may free of what holds calls.
#[derive(Clone, Copy, Drop)]
pub struct Freed {
    /// Whatever is held: a command was done, or a trial ended.
    pub all: bool,
    /// What is held by what is in flight in this adapter: something in flight in it ended.
    pub landed: Option<u32>,
    /// What is held by a change in this adapter: an incarnation or etherealization in it ended.
    pub changed: Option<u32>,
    /// What is held by this activation: it came in, went out, or a request in it ended.
    pub moved: Option<u32>,
}

impl Freed {
    /// Nothing.
    pub fn nothing() -> Freed
        ensures { result ≡ nothing }
    {
        Freed {
            all: false,
            landed: None,
            changed: None,
            moved: None,
        }
    }

    /// Whatever is held.
    pub fn everything() -> Freed
        ensures { result ≡ everything }
    {
        Freed {
            all: true,
            ..Freed::nothing()
        }
    }

    /// Whether what holds a call may have ended.
    pub fn frees(&self, hold: Hold) -> bool
        ensures { result ≡ frees self.now hold }
    {
        self.all
            || match hold {
                Hold::Manager(_) | Hold::Main => false,
                Hold::Trial(adapter) | Hold::Turn(adapter) => self.landed == Some(adapter),
                Hold::Id(activation) => self.moved == Some(activation),
                Hold::Change(adapter) => self.changed == Some(adapter),
            }
    }
}
