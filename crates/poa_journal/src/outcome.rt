ghost use Rattle.std.specs.Prelude.{◌≡◌, ◌∷◌, ◌++◌, IfOk, OnOk, map};
ghost use Rattle.text_words.specs.WordGives.{WordGives};
ghost use Rattle.text_words.specs.Token.{tails, texts};
ghost use Rattle.poa_journal.specs.ValueWords.{bringing_word, trial_word};
ghost use Rattle.poa_journal.specs.Outcome.{attempt_behind as attempt_behind_of, attempt_of, attempt_tokens, bringing_of, incarnation_behind as incarnation_behind_of, incarnation_of, incarnation_tokens, trial_of};

use crate::exception::{put_exception, read_exception};
use crate::value_words::{Bringing, Trial};
use poa_base::{Attempt, Incarnation, WantMemory};
use std::alloc::Global;
use text_words::{
    WordFault, Worded, alone, find_word, last_endpoint, last_name, last_number, put_endpoint,
    put_number, put_word,
};

fn trial(word: &[u8]) -> Result<Trial, WordFault>
    ensures value { WordGives result (trial_of word.now) }
    ensures text { IfOk result (λ k. word.now ≡ trial_word k) }
{
    find_word(&[Trial::Yes, Trial::No, Trial::Raised, Trial::Dying], word).ok_or(
        WordFault::OutOfForm,
    )
}

fn bringing(word: &[u8]) -> Result<Bringing, WordFault>
    ensures value { WordGives result (bringing_of word.now) }
    ensures text { IfOk result (λ k. word.now ≡ bringing_word k) }
{
    find_word(
        &[
            Bringing::Fresh,
            Bringing::Named,
            Bringing::Double,
            Bringing::Forward,
            Bringing::Raise,
        ],
        word,
    )
    .ok_or(WordFault::OutOfForm)
}

/// What an adapter activator answered.
pub fn read_attempt(words: &[&[u8]]) -> Result<Attempt, WordFault>
    ensures value { WordGives result (attempt_of (map (λ w. w.now) words.now)) }
    ensures text { IfOk result (λ answer. (map (λ w. w.now) words.now) ≡ texts (attempt_tokens answer)) }
{
    let [word, rest @ ..] = words else {
        return Err(WordFault::OutOfForm);
    };
    let trial = trial(word)?;
    attempt_behind(trial, rest)
}

fn attempt_behind(trial: Trial, words: &[&[u8]]) -> Result<Attempt, WordFault>
    ensures value { WordGives result (attempt_behind_of trial (map (λ w. w.now) words.now)) }
    ensures text { IfOk result (λ answer. trial_word trial ∷ (map (λ w. w.now) words.now) ≡ texts (attempt_tokens answer)) }
{
    match trial {
        Trial::Yes => {
            let number = last_number(words)?;
            Ok(Attempt::Yes { number })
        }
        Trial::No => alone(Attempt::No, words),
        Trial::Raised => alone(Attempt::Raised, words),
        Trial::Dying => alone(Attempt::Dying, words),
    }
}

/// What a servant activator brought.
pub fn read_incarnation(alloc: Global, words: &[&[u8]]) -> Result<Incarnation, WordFault>
    ensures value { WordGives result (incarnation_of (map (λ w. w.now) words.now)) }
    ensures text { IfOk result (λ answer. (map (λ w. w.now) words.now) ≡ texts (incarnation_tokens answer)) }
{
    let [word, rest @ ..] = words else {
        return Err(WordFault::OutOfForm);
    };
    let bringing = bringing(word)?;
    incarnation_behind(alloc, bringing, rest)
}

fn incarnation_behind(
    alloc: Global,
    bringing: Bringing,
    words: &[&[u8]],
) -> Result<Incarnation, WordFault>
    ensures value { WordGives result (incarnation_behind_of bringing (map (λ w. w.now) words.now)) }
    ensures text { IfOk result (λ answer. bringing_word bringing ∷ (map (λ w. w.now) words.now) ≡ texts (incarnation_tokens answer)) }
{
    match bringing {
        Bringing::Fresh => Ok(Incarnation::Fresh(last_number(words)?)),
        Bringing::Named => Ok(Incarnation::Named(last_name(alloc, words)?)),
        Bringing::Double => alone(Incarnation::Double, words),
        Bringing::Forward => Ok(Incarnation::Forward(last_endpoint(alloc, words)?)),
        Bringing::Raise => Ok(Incarnation::Raise(read_exception(words)?)),
    }
}

/// Adds the words of what an adapter activator answered, each behind a space. Where memory is wanting, some of them may
/// have been added.
pub fn put_attempt(out: &mut Vec<u8>, answer: Attempt) -> Result<(), WantMemory>
    ensures { OnOk result (out.new.items ≡ out.old.items ++ tails (attempt_tokens answer)) }
{
    match answer {
        Attempt::Yes { number } => {
            put_word(out, Trial::Yes.word())?;
            put_number(out, u64::from(number))
        }
        Attempt::No => put_word(out, Trial::No.word()),
        Attempt::Raised => put_word(out, Trial::Raised.word()),
        Attempt::Dying => put_word(out, Trial::Dying.word()),
    }
}

/// Adds the words of what a servant activator brought, each behind a space. Where memory is wanting, some of them may
/// have been added.
pub fn put_incarnation(out: &mut Vec<u8>, answer: &Incarnation) -> Result<(), WantMemory>
    ensures { OnOk result (out.new.items ≡ out.old.items ++ tails (incarnation_tokens answer.now)) }
{
    match answer {
        Incarnation::Fresh(number) => {
            put_word(out, Bringing::Fresh.word())?;
            put_number(out, u64::from(*number))
        }
        Incarnation::Named(servant) => {
            put_word(out, Bringing::Named.word())?;
            put_word(out, servant.as_slice())
        }
        Incarnation::Double => put_word(out, Bringing::Double.word()),
        Incarnation::Forward(endpoint) => {
            put_word(out, Bringing::Forward.word())?;
            put_endpoint(out, endpoint)
        }
        Incarnation::Raise(exc) => {
            put_word(out, Bringing::Raise.word())?;
            put_exception(out, *exc)
        }
    }
}
