//! The fixed words of the lines that are printed.

use text_words::Worded;

/// What a line tells that is no entry.
#[derive(Clone, Copy, Drop)]
pub(crate) enum Mark {
    /// A call or a connection was refused for the limits of the run.
    Limit,
    /// A place in what was fed isn't a message that asks something.
    Bad,
    /// A worker has nothing to do.
    Idle,
    /// The bytes of a reply.
    Reply,
    /// The answer to an administrator's line.
    Answer,
}

impl Worded for Mark {
    ghost use Rattle.replay_run.specs.Lines.{mark_word};

    ghost text = { mark_word };

    #[tactic(auto, unfolding(crate::specs::Lines::mark_word))]
    fn word(self) -> &'static [u8] {
        match self {
            Mark::Limit => b"limit",
            Mark::Bad => b"bad",
            Mark::Idle => b"idle",
            Mark::Reply => b"reply",
            Mark::Answer => b"answer",
        }
    }
}
