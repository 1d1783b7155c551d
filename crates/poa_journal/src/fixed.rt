//! The fixed words of entries and of rows.
ghost use Rattle.std.specs.Prelude.{◌≡◌};
ghost use Rattle.poa_journal.specs.Fixed.{flag_for, holds, is_etherealizing, removal_for};

use text_words::Worded;

/// The kinds of entries.
#[derive(Clone, Copy, Drop)]
pub(crate) enum Kind {
    Entered,
    Arrive,
    Filled,
    Left,
    Collect,
    Admit,
    Tried,
    Incarnated,
    Run,
    Done,
    TakeOut,
    Etherealized,
    Abandon,
}

impl Worded for Kind {
    ghost use Rattle.poa_journal.specs.Fixed.{kind_word};

    ghost text = { kind_word };

    #[tactic(auto, unfolding(crate::specs::Fixed::kind_word))]
    fn word(self) -> &'static [u8] {
        match self {
            Kind::Entered => b"entered",
            Kind::Arrive => b"arrive",
            Kind::Filled => b"filled",
            Kind::Left => b"left",
            Kind::Collect => b"collect",
            Kind::Admit => b"admit",
            Kind::Tried => b"tried",
            Kind::Incarnated => b"incarnated",
            Kind::Run => b"run",
            Kind::Done => b"done",
            Kind::TakeOut => b"takeout",
            Kind::Etherealized => b"etherealized",
            Kind::Abandon => b"abandon",
        }
    }
}

/// How an activation is taken out.
#[derive(Clone, Copy, Drop)]
pub(crate) enum Removal {
    Etherealize,
    Quiet,
}

impl Worded for Removal {
    ghost use Rattle.poa_journal.specs.Fixed.{removal_word};

    ghost text = { removal_word };

    #[tactic(auto, unfolding(crate::specs::Fixed::removal_word))]
    fn word(self) -> &'static [u8] {
        match self {
            Removal::Etherealize => b"etherealize",
            Removal::Quiet => b"quiet",
        }
    }
}

impl Removal {
    pub(crate) fn of(etherealize: bool) -> Self
        ensures { result ≡ removal_for etherealize }
    {
        if etherealize {
            Removal::Etherealize
        } else {
            Removal::Quiet
        }
    }

    pub(crate) fn etherealizes(self) -> bool
        ensures { result ≡ is_etherealizing self }
    {
        match self {
            Removal::Etherealize => true,
            Removal::Quiet => false,
        }
    }
}

/// A truth value.
#[derive(Clone, Copy, Drop)]
pub(crate) enum Flag {
    Yes,
    No,
}

impl Worded for Flag {
    ghost use Rattle.poa_journal.specs.Fixed.{flag_word};

    ghost text = { flag_word };

    #[tactic(auto, unfolding(crate::specs::Fixed::flag_word))]
    fn word(self) -> &'static [u8] {
        match self {
            Flag::Yes => b"yes",
            Flag::No => b"no",
        }
    }
}

impl Flag {
    pub(crate) fn of(truth: bool) -> Self
        ensures { result ≡ flag_for truth }
    {
        if truth { Flag::Yes } else { Flag::No }
    }

    pub(crate) fn holds(self) -> bool
        ensures { result ≡ holds self }
    {
        match self {
            Flag::Yes => true,
            Flag::No => false,
        }
    }
}

/// The kinds of states.
#[derive(Clone, Copy, Drop)]
pub(crate) enum Holding {
    Register,
    Log,
    Echo,
    Fault,
}

impl Worded for Holding {
    ghost use Rattle.poa_journal.specs.Fixed.{holding_word};

    ghost text = { holding_word };

    #[tactic(auto, unfolding(crate::specs::Fixed::holding_word))]
    fn word(self) -> &'static [u8] {
        match self {
            Holding::Register => b"register",
            Holding::Log => b"log",
            Holding::Echo => b"echo",
            Holding::Fault => b"fault",
        }
    }
}
