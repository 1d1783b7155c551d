//! Words read one after another.
ghost use Rattle.std.specs.Prelude.{◌≡◌, ◌∷◌, ◌^◌, [], IfOk, map};
ghost use Rattle.text_words.specs.WordGives.{WordGives};
ghost use Rattle.text_words.specs.Keyword.{named_in};
ghost use Rattle.text_words.specs.Name.{host_of, name_of};
ghost use Rattle.text_words.specs.Number.{number_of, port_of};
ghost use Rattle.text_words.specs.Path.{path_of};
ghost use Rattle.text_words.specs.Token.{Token, spell};
ghost use Rattle.admin_line.specs.Place.{Finds, at, end};
ghost use Rattle.admin_line.specs.Reading.{spelled_id_of};

use crate::reading::Source;
use poa_base::{Bytes, Name, Oid, Path};
use std::alloc::{AllocError, Global};
use text_words::{WordFault, Worded, any_identity, find_word, identity};

/// Why words gave nothing.
#[derive(Clone, Copy, Drop)]
pub enum Wrong {
    /// The first word that is wrong, missing or too much, from 1 on.
    Word(u32),
    /// There was no memory.
    WantMemory,
}

impl From<AllocError> for Wrong {
    ghost use Rattle.std.specs.Prelude.{◌≡◌};
    ghost use Rattle.admin_line.specs.declared.place.Wrong.TheVariants.{WantMemory};

    ghost from_gives = { λ e wrong. wrong ≡ WantMemory };

    fn from(_: AllocError) -> Wrong {
        Wrong::WantMemory
    }
}

type Words<'a> = &'a [&'a [u8]];

// Word k as a name, and the words behind it.
pub(crate) fn name_at<'a>(
    alloc: Global,
    k: u32,
    words: Words<'a>,
) -> Result<(Name, Words<'a>), Wrong>
    ensures value { Finds (λ x. (x.0, map (λ w. w.now) x.1.now)) result (at k name_of (map (λ w. w.now) words.now)) }
    ensures text { IfOk result (λ x. map (λ w. w.now) words.now ≡ spell (Token.named x.0) ∷ map (λ w. w.now) x.1.now) }
{
    let [word, rest @ ..] = words else {
        return Err(Wrong::Word(k));
    };
    match text_words::name(alloc, word) {
        Ok(found) => Ok((found, rest)),
        Err(WordFault::OutOfForm) => Err(Wrong::Word(k)),
        Err(WordFault::WantMemory) => Err(Wrong::WantMemory),
    }
}

// Word k as a path, and the words behind it.
pub(crate) fn path_at<'a>(
    alloc: Global,
    k: u32,
    words: Words<'a>,
) -> Result<(Path, Words<'a>), Wrong>
    ensures value { Finds (λ x. (x.0, map (λ w. w.now) x.1.now)) result (at k path_of (map (λ w. w.now) words.now)) }
    ensures text { IfOk result (λ x. map (λ w. w.now) words.now ≡ spell (Token.path x.0) ∷ map (λ w. w.now) x.1.now) }
{
    let [word, rest @ ..] = words else {
        return Err(Wrong::Word(k));
    };
    match text_words::path(alloc, word) {
        Ok(found) => Ok((found, rest)),
        Err(WordFault::OutOfForm) => Err(Wrong::Word(k)),
        Err(WordFault::WantMemory) => Err(Wrong::WantMemory),
    }
}

// Word k as a host, and the words behind it.
pub(crate) fn host_at<'a>(
    alloc: Global,
    k: u32,
    words: Words<'a>,
) -> Result<(Bytes, Words<'a>), Wrong>
    ensures value { Finds (λ x. (x.0, map (λ w. w.now) x.1.now)) result (at k host_of (map (λ w. w.now) words.now)) }
    ensures text { IfOk result (λ x. map (λ w. w.now) words.now ≡ spell (Token.host x.0) ∷ map (λ w. w.now) x.1.now) }
{
    let [word, rest @ ..] = words else {
        return Err(Wrong::Word(k));
    };
    match text_words::host(alloc, word) {
        Ok(found) => Ok((found, rest)),
        Err(WordFault::OutOfForm) => Err(Wrong::Word(k)),
        Err(WordFault::WantMemory) => Err(Wrong::WantMemory),
    }
}

// Word k as a port, and the words behind it.
pub(crate) fn port_at<'a>(k: u32, words: Words<'a>) -> Result<(u16, Words<'a>), Wrong>
    ensures value { Finds (λ x. (x.0, map (λ w. w.now) x.1.now)) result (at k port_of (map (λ w. w.now) words.now)) }
    ensures text { IfOk result (λ x. map (λ w. w.now) words.now ≡ spell (Token.port x.0) ∷ map (λ w. w.now) x.1.now) }
{
    let [word, rest @ ..] = words else {
        return Err(Wrong::Word(k));
    };
    match text_words::port(word) {
        Ok(found) => Ok((found, rest)),
        Err(WordFault::OutOfForm) => Err(Wrong::Word(k)),
        Err(WordFault::WantMemory) => Err(Wrong::WantMemory),
    }
}

// Word k as a number, and the words behind it.
pub(crate) fn number_at<'a>(k: u32, words: Words<'a>) -> Result<(u32, Words<'a>), Wrong>
    ensures value { Finds (λ x. (x.0, map (λ w. w.now) x.1.now)) result (at k (number_of (2 ^ 32)) (map (λ w. w.now) words.now)) }
    ensures text { IfOk result (λ x. map (λ w. w.now) words.now ≡ spell (Token.number (2 ^ 32) x.0) ∷ map (λ w. w.now) x.1.now) }
{
    let [word, rest @ ..] = words else {
        return Err(Wrong::Word(k));
    };
    match text_words::number32(word) {
        Ok(found) => Ok((found, rest)),
        Err(WordFault::OutOfForm) => Err(Wrong::Word(k)),
        Err(WordFault::WantMemory) => Err(Wrong::WantMemory),
    }
}

// Word k as an object id, and the words behind it.
pub(crate) fn identity_at<'a>(
    alloc: Global,
    k: u32,
    source: Source,
    words: Words<'a>,
) -> Result<(Oid, Words<'a>), Wrong>
    ensures value { Finds (λ x. (x.0, map (λ w. w.now) x.1.now)) result (at k (spelled_id_of source) (map (λ w. w.now) words.now)) }
    ensures text { IfOk result
        (λ x. source ≡ Source.Journal → map (λ w. w.now) words.now ≡ spell (Token.identity x.0) ∷ map (λ w. w.now) x.1.now) }
{
    let [word, rest @ ..] = words else {
        return Err(Wrong::Word(k));
    };
    match spelled_identity(alloc, source, word) {
        Ok(found) => Ok((found, rest)),
        Err(WordFault::OutOfForm) => Err(Wrong::Word(k)),
        Err(WordFault::WantMemory) => Err(Wrong::WantMemory),
    }
}

fn spelled_identity(alloc: Global, source: Source, word: &[u8]) -> Result<Oid, WordFault>
    ensures value { WordGives result (spelled_id_of source word.now) }
    ensures text { IfOk result (λ id. source ≡ Source.Journal → word.now ≡ spell (Token.identity id)) }
{
    match source {
        Source::Link => any_identity(alloc, word),
        Source::Journal => identity(alloc, word),
    }
}

// Word k as one of some fixed words, and the words behind it.
pub(crate) fn keyword_at<'a, K: Worded>(
    k: u32,
    all: &[K],
    words: Words<'a>,
) -> Result<(K, Words<'a>), Wrong>
    ensures value { Finds (λ x. (x.0, map (λ w. w.now) x.1.now)) result (at k (named_in K.text all.now) (map (λ w. w.now) words.now)) }
    ensures text { IfOk result (λ x. map (λ w. w.now) words.now ≡ K.text x.0 ∷ map (λ w. w.now) x.1.now) }
{
    let [word, rest @ ..] = words else {
        return Err(Wrong::Word(k));
    };
    match find_word(all, word) {
        Some(found) => Ok((found, rest)),
        None => Err(Wrong::Word(k)),
    }
}

// Nothing stands at word k.
pub(crate) fn end_at(k: u32, words: Words) -> Result<(), Wrong>
    ensures value { Finds (λ x. x) result (end k (map (λ w. w.now) words.now) tt) }
    ensures text { IfOk result (λ x. map (λ w. w.now) words.now ≡ []) }
{
    match words {
        [] => Ok(()),
        [_, ..] => Err(Wrong::Word(k)),
    }
}
