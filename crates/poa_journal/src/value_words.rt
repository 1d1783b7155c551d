//! The fixed words of calls, verdicts and outcomes, and those that stand alone at their place.
ghost use Rattle.std.specs.Prelude.{◌≡◌, IfOk, true};
ghost use Rattle.std.specs.Str.{bytes_eq};
ghost use Rattle.text_words.specs.WordGives.{WordGives};
ghost use Rattle.poa_journal.specs.ValueWords.{expected, is_little, mark_word, order_for};

use poa_base::ExcName;
use text_words::{WordFault, Worded};

/// The kinds of calls.
#[derive(Clone, Copy, Drop)]
pub(crate) enum CallKind {
    Request,
    Locate,
    Line,
}

impl Worded for CallKind {
    ghost use Rattle.poa_journal.specs.ValueWords.{call_word};

    ghost text = { call_word };

    #[tactic(auto, unfolding(crate::specs::ValueWords::call_word))]
    fn word(self) -> &'static [u8] {
        match self {
            CallKind::Request => b"request",
            CallKind::Locate => b"locate",
            CallKind::Line => b"line",
        }
    }
}

/// The byte order of a message.
#[derive(Clone, Copy, Drop)]
pub(crate) enum ByteOrder {
    Big,
    Little,
}

impl Worded for ByteOrder {
    ghost use Rattle.poa_journal.specs.ValueWords.{order_word};

    ghost text = { order_word };

    #[tactic(auto, unfolding(crate::specs::ValueWords::order_word))]
    fn word(self) -> &'static [u8] {
        match self {
            ByteOrder::Big => b"big",
            ByteOrder::Little => b"little",
        }
    }
}

impl ByteOrder {
    pub(crate) fn of(little: bool) -> Self
        ensures { result ≡ order_for little }
    {
        if little {
            ByteOrder::Little
        } else {
            ByteOrder::Big
        }
    }

    pub(crate) fn is_little(self) -> bool
        ensures { result ≡ is_little self }
    {
        match self {
            ByteOrder::Little => true,
            ByteOrder::Big => false,
        }
    }
}

/// The kinds of verdicts.
#[derive(Clone, Copy, Drop)]
pub(crate) enum Ruling {
    Serve,
    Preset,
    Locator,
    Incarnate,
    Try,
    Refuse,
    Forward,
    Addressing,
    Here,
    Unknown,
    Answer,
    Wait,
}

impl Worded for Ruling {
    ghost use Rattle.poa_journal.specs.ValueWords.{ruling_word};

    ghost text = { ruling_word };

    #[tactic(auto, unfolding(crate::specs::ValueWords::ruling_word))]
    fn word(self) -> &'static [u8] {
        match self {
            Ruling::Serve => b"serve",
            Ruling::Preset => b"default",
            Ruling::Locator => b"locator",
            Ruling::Incarnate => b"incarnate",
            Ruling::Try => b"try",
            Ruling::Refuse => b"refuse",
            Ruling::Forward => b"forward",
            Ruling::Addressing => b"addressing",
            Ruling::Here => b"here",
            Ruling::Unknown => b"unknown",
            Ruling::Answer => b"answer",
            Ruling::Wait => b"wait",
        }
    }
}

/// What an adapter activator answered.
#[derive(Clone, Copy, Drop)]
pub(crate) enum Trial {
    Yes,
    No,
    Raised,
    Dying,
}

impl Worded for Trial {
    ghost use Rattle.poa_journal.specs.ValueWords.{trial_word};

    ghost text = { trial_word };

    #[tactic(auto, unfolding(crate::specs::ValueWords::trial_word))]
    fn word(self) -> &'static [u8] {
        match self {
            Trial::Yes => b"yes",
            Trial::No => b"no",
            Trial::Raised => b"raised",
            Trial::Dying => b"dying",
        }
    }
}

/// What a servant activator brought.
#[derive(Clone, Copy, Drop)]
pub(crate) enum Bringing {
    Fresh,
    Named,
    Double,
    Forward,
    Raise,
}

impl Worded for Bringing {
    ghost use Rattle.poa_journal.specs.ValueWords.{bringing_word};

    ghost text = { bringing_word };

    #[tactic(auto, unfolding(crate::specs::ValueWords::bringing_word))]
    fn word(self) -> &'static [u8] {
        match self {
            Bringing::Fresh => b"fresh",
            Bringing::Named => b"named",
            Bringing::Double => b"double",
            Bringing::Forward => b"forward",
            Bringing::Raise => b"raise",
        }
    }
}

/// A system exception by its standard name.
#[derive(Clone, Copy, Drop)]
pub(crate) struct Raised {
    pub(crate) name: ExcName,
}

impl Worded for Raised {
    ghost use Rattle.poa_journal.specs.ValueWords.{exception_word};

    ghost text = { λ raised. exception_word raised.name };

    #[tactic(auto, unfolding(crate::specs::ValueWords::exception_word))]
    fn word(self) -> &'static [u8] {
        match self.name {
            ExcName::ObjectNotExist => b"OBJECT_NOT_EXIST",
            ExcName::Transient => b"TRANSIENT",
            ExcName::ObjAdapter => b"OBJ_ADAPTER",
            ExcName::BadOperation => b"BAD_OPERATION",
            ExcName::Marshal => b"MARSHAL",
            ExcName::Unknown => b"UNKNOWN",
        }
    }
}
/// A word that stands alone at its place.
#[derive(Clone, Copy, Drop)]
pub enum Mark {
    /// The first word of a journal.
    Journal,
    /// The number of the format.
    One,
    /// Before the number of the run.
    Run,
    /// The first word of a store's row.
    Store,
    /// In place of a key, where there is none.
    Nothing,
}

impl Worded for Mark {
    ghost use Rattle.poa_journal.specs.ValueWords.{mark_word};

    ghost text = { mark_word };

    #[tactic(auto, unfolding(crate::specs::ValueWords::mark_word))]
    fn word(self) -> &'static [u8] {
        match self {
            Mark::Journal => b"journal",
            Mark::One => b"1",
            Mark::Run => b"run",
            Mark::Store => b"store",
            Mark::Nothing => b"-",
        }
    }
}

/// Whether a word is the one of `mark`.
pub fn is_mark(mark: Mark, word: &[u8]) -> bool
    ensures value { result ≡ bytes_eq (mark_word mark) word.now }
    ensures text { result ≡ true → word.now ≡ mark_word mark }
{
    mark.word() == word
}

/// That a word is the one of `mark`.
pub fn expect(mark: Mark, word: &[u8]) -> Result<(), WordFault>
    ensures value { WordGives result (expected mark word.now) }
    ensures text { IfOk result (λ x. word.now ≡ mark_word mark) }
{
    if is_mark(mark, word) {
        Ok(())
    } else {
        Err(WordFault::OutOfForm)
    }
}
