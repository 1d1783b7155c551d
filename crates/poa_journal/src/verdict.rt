ghost use Rattle.std.specs.Prelude.{◌≡◌, ◌∷◌, ◌++◌, IfOk, OnOk, map};
ghost use Rattle.text_words.specs.WordGives.{WordGives};
ghost use Rattle.text_words.specs.Token.{tails, texts};
ghost use Rattle.poa_journal.specs.ValueWords.{ruling_word};
ghost use Rattle.poa_journal.specs.Verdict.{ruling_of, verdict_behind, verdict_of, verdict_tokens};

use crate::exception::{put_exception, read_exception};
use crate::value_words::Ruling;
use admin_line::{put_answer, read_answer};
use poa_base::{Verdict, WantMemory};
use std::alloc::Global;
use text_words::{
    WordFault, Worded, alone, find_word, last_endpoint, last_name, last_number, put_endpoint,
    put_number, put_word,
};

fn ruling(word: &[u8]) -> Result<Ruling, WordFault>
    ensures value { WordGives result (ruling_of word.now) }
    ensures text { IfOk result (λ k. word.now ≡ ruling_word k) }
{
    find_word(
        &[
            Ruling::Serve,
            Ruling::Preset,
            Ruling::Locator,
            Ruling::Incarnate,
            Ruling::Try,
            Ruling::Refuse,
            Ruling::Forward,
            Ruling::Addressing,
            Ruling::Here,
            Ruling::Unknown,
            Ruling::Answer,
            Ruling::Wait,
        ],
        word,
    )
    .ok_or(WordFault::OutOfForm)
}

/// The verdict of its words.
pub fn read_verdict(alloc: Global, words: &[&[u8]]) -> Result<Verdict, WordFault>
    ensures value { WordGives result (verdict_of (map (λ w. w.now) words.now)) }
    ensures text { IfOk result (λ verdict. (map (λ w. w.now) words.now) ≡ texts (verdict_tokens verdict)) }
{
    let [word, rest @ ..] = words else {
        return Err(WordFault::OutOfForm);
    };
    let ruling = ruling(word)?;
    behind(alloc, ruling, rest)
}

fn behind(alloc: Global, ruling: Ruling, words: &[&[u8]]) -> Result<Verdict, WordFault>
    ensures value { WordGives result (verdict_behind ruling (map (λ w. w.now) words.now)) }
    ensures text { IfOk result (λ verdict. ruling_word ruling ∷ (map (λ w. w.now) words.now) ≡ texts (verdict_tokens verdict)) }
{
    match ruling {
        Ruling::Serve => Ok(Verdict::Serve(last_number(words)?)),
        Ruling::Preset => Ok(Verdict::Preset(last_name(alloc, words)?)),
        Ruling::Locator => Ok(Verdict::Locator(last_name(alloc, words)?)),
        Ruling::Incarnate => Ok(Verdict::Incarnate(last_number(words)?)),
        Ruling::Try => alone(Verdict::Try, words),
        Ruling::Refuse => Ok(Verdict::Refuse(read_exception(words)?)),
        Ruling::Forward => Ok(Verdict::Forward(last_endpoint(alloc, words)?)),
        Ruling::Addressing => alone(Verdict::Addressing, words),
        Ruling::Here => alone(Verdict::Here, words),
        Ruling::Unknown => alone(Verdict::Unknown, words),
        Ruling::Answer => Ok(Verdict::Answer(read_answer(alloc, words)?)),
        Ruling::Wait => alone(Verdict::Wait, words),
    }
}

/// Adds the words of a verdict, each behind a space. Where memory is wanting, some of them may have been added.
pub fn put_verdict(out: &mut Vec<u8>, verdict: &Verdict) -> Result<(), WantMemory>
    ensures { OnOk result (out.new.items ≡ out.old.items ++ tails (verdict_tokens verdict.now)) }
{
    match verdict {
        Verdict::Serve(number) => {
            put_word(out, Ruling::Serve.word())?;
            put_number(out, u64::from(*number))
        }
        Verdict::Preset(servant) => {
            put_word(out, Ruling::Preset.word())?;
            put_word(out, servant.as_slice())
        }
        Verdict::Locator(servant) => {
            put_word(out, Ruling::Locator.word())?;
            put_word(out, servant.as_slice())
        }
        Verdict::Incarnate(number) => {
            put_word(out, Ruling::Incarnate.word())?;
            put_number(out, u64::from(*number))
        }
        Verdict::Try => put_word(out, Ruling::Try.word()),
        Verdict::Refuse(exc) => {
            put_word(out, Ruling::Refuse.word())?;
            put_exception(out, *exc)
        }
        Verdict::Forward(endpoint) => {
            put_word(out, Ruling::Forward.word())?;
            put_endpoint(out, endpoint)
        }
        Verdict::Addressing => put_word(out, Ruling::Addressing.word()),
        Verdict::Here => put_word(out, Ruling::Here.word()),
        Verdict::Unknown => put_word(out, Ruling::Unknown.word()),
        Verdict::Answer(answer) => {
            put_word(out, Ruling::Answer.word())?;
            put_answer(out, answer)
        }
        Verdict::Wait => put_word(out, Ruling::Wait.word()),
    }
}
