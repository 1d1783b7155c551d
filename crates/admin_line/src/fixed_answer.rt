//! The fixed words of answers.
use text_words::Worded;

/// Whether a command was done.
#[derive(Clone, Copy, Drop)]
pub(crate) enum Success {
    Ok,
    No,
}

impl Worded for Success {
    ghost use Rattle.admin_line.specs.FixedAnswer.{success_word};

    ghost text = { success_word };

    #[tactic(auto, unfolding(crate::specs::FixedAnswer::success_word))]
    fn word(self) -> &'static [u8] {
        match self {
            Success::Ok => b"ok",
            Success::No => b"no",
        }
    }
}

/// The kinds of reasons against a command.
#[derive(Clone, Copy, Drop)]
pub(crate) enum Objection {
    NoManager,
    AdapterInactive,
    AdapterNonExistent,
    NoTemplate,
    AdapterAlreadyExists,
    TooMany,
    WrongPolicy,
    NoServant,
    ServantAlreadyActive,
    BadId,
    ObjectAlreadyActive,
    ObjectNotActive,
    ServantNotActive,
    NoForward,
    BadWord,
}

impl Worded for Objection {
    ghost use Rattle.admin_line.specs.FixedAnswer.{objection_word};

    ghost text = { objection_word };

    #[tactic(auto, unfolding(crate::specs::FixedAnswer::objection_word))]
    fn word(self) -> &'static [u8] {
        match self {
            Objection::NoManager => b"NoManager",
            Objection::AdapterInactive => b"AdapterInactive",
            Objection::AdapterNonExistent => b"AdapterNonExistent",
            Objection::NoTemplate => b"NoTemplate",
            Objection::AdapterAlreadyExists => b"AdapterAlreadyExists",
            Objection::TooMany => b"TooMany",
            Objection::WrongPolicy => b"WrongPolicy",
            Objection::NoServant => b"NoServant",
            Objection::ServantAlreadyActive => b"ServantAlreadyActive",
            Objection::BadId => b"BadId",
            Objection::ObjectAlreadyActive => b"ObjectAlreadyActive",
            Objection::ObjectNotActive => b"ObjectNotActive",
            Objection::ServantNotActive => b"ServantNotActive",
            Objection::NoForward => b"NoForward",
            Objection::BadWord => b"BadWord",
        }
    }
}
