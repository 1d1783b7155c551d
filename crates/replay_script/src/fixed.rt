//! The fixed words of the lines.
use text_words::Worded;

/// The first word of a line.
#[derive(Clone, Copy, Drop)]
pub(crate) enum Verb {
    Ask,
    Flood,
    Feed,
    End,
    Admin,
    Step,
    Run,
    Collect,
    Store,
    Journal,
}

impl Worded for Verb {
    ghost use Rattle.replay_script.specs.Fixed.{verb_word};

    ghost text = { verb_word };

    #[tactic(auto, unfolding(crate::specs::Fixed::verb_word))]
    fn word(self) -> &'static [u8] {
        match self {
            Verb::Ask => b"ask",
            Verb::Flood => b"flood",
            Verb::Feed => b"feed",
            Verb::End => b"end",
            Verb::Admin => b"admin",
            Verb::Step => b"step",
            Verb::Run => b"run",
            Verb::Collect => b"collect",
            Verb::Store => b"store",
            Verb::Journal => b"journal",
        }
    }
}

/// The letter before the colon of an argument, which says its type.
#[derive(Clone, Copy, Drop)]
pub(crate) enum Form {
    Long,
    Ulong,
    Octets,
    Text,
}

impl Worded for Form {
    ghost use Rattle.replay_script.specs.Fixed.{form_word};

    ghost text = { form_word };

    #[tactic(auto, unfolding(crate::specs::Fixed::form_word))]
    fn word(self) -> &'static [u8] {
        match self {
            Form::Long => b"i",
            Form::Ulong => b"u",
            Form::Octets => b"o",
            Form::Text => b"s",
        }
    }
}
