//! The fixed words of the lines.
ghost use Rattle.std.specs.Prelude.{◌≡◌};
ghost use Rattle.admin_line.specs.Fixed.{ending, etherealizes_of, pace, waits_of};

use text_words::Worded;

/// The first word of a command.
#[derive(Clone, Copy, Drop)]
pub(crate) enum Verb {
    Manager,
    Create,
    Destroy,
    Activate,
    ActivateId,
    Deactivate,
    Reference,
    Preset,
    Forward,
    Unforward,
    Shutdown,
    Bad,
}

impl Worded for Verb {
    ghost use Rattle.admin_line.specs.Fixed.{verb_word};

    ghost text = { verb_word };

    #[tactic(auto, unfolding(crate::specs::Fixed::verb_word))]
    fn word(self) -> &'static [u8] {
        match self {
            Verb::Manager => b"manager",
            Verb::Create => b"create",
            Verb::Destroy => b"destroy",
            Verb::Activate => b"activate",
            Verb::ActivateId => b"activate-id",
            Verb::Deactivate => b"deactivate",
            Verb::Reference => b"reference",
            Verb::Preset => b"default",
            Verb::Forward => b"forward",
            Verb::Unforward => b"unforward",
            Verb::Shutdown => b"shutdown",
            Verb::Bad => b"bad",
        }
    }
}

/// What a manager is told to do.
#[derive(Clone, Copy, Drop)]
pub(crate) enum Shift {
    Activate,
    Hold,
    Discard,
    Deactivate,
}

impl Worded for Shift {
    ghost use Rattle.admin_line.specs.Fixed.{shift_word};

    ghost text = { shift_word };

    #[tactic(auto, unfolding(crate::specs::Fixed::shift_word))]
    fn word(self) -> &'static [u8] {
        match self {
            Shift::Activate => b"activate",
            Shift::Hold => b"hold",
            Shift::Discard => b"discard",
            Shift::Deactivate => b"deactivate",
        }
    }
}

/// Whether the answer waits until nothing is under way any more.
#[derive(Clone, Copy, Drop)]
pub(crate) enum Pace {
    Now,
    Wait,
}

impl Worded for Pace {
    ghost use Rattle.admin_line.specs.Fixed.{pace_word};

    ghost text = { pace_word };

    #[tactic(auto, unfolding(crate::specs::Fixed::pace_word))]
    fn word(self) -> &'static [u8] {
        match self {
            Pace::Now => b"now",
            Pace::Wait => b"wait",
        }
    }
}

impl Pace {
    pub(crate) fn of(wait: bool) -> Self
        ensures { result ≡ pace wait }
    {
        if wait { Pace::Wait } else { Pace::Now }
    }

    pub(crate) fn waits(self) -> bool
        ensures { result ≡ waits_of self }
    {
        match self {
            Pace::Now => false,
            Pace::Wait => true,
        }
    }
}

/// Whether the servants that go are etherealized.
#[derive(Clone, Copy, Drop)]
pub(crate) enum End {
    Keep,
    Etherealize,
}

impl Worded for End {
    ghost use Rattle.admin_line.specs.Fixed.{end_word};

    ghost text = { end_word };

    #[tactic(auto, unfolding(crate::specs::Fixed::end_word))]
    fn word(self) -> &'static [u8] {
        match self {
            End::Keep => b"keep",
            End::Etherealize => b"etherealize",
        }
    }
}

impl End {
    pub(crate) fn of(etherealize: bool) -> Self
        ensures { result ≡ ending etherealize }
    {
        if etherealize {
            End::Etherealize
        } else {
            End::Keep
        }
    }

    pub(crate) fn etherealizes(self) -> bool
        ensures { result ≡ etherealizes_of self }
    {
        match self {
            End::Keep => false,
            End::Etherealize => true,
        }
    }
}
