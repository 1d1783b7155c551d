ghost use Rattle.std.specs.Prelude.{◌≡◌, ◌∷◌, ◌++◌, [], IfOk, OnOk, map};
ghost use Rattle.text_words.specs.WordGives.{WordGives};
ghost use Rattle.text_words.specs.Identity.{printed_id_of};
ghost use Rattle.text_words.specs.Token.{tails, texts};
ghost use Rattle.admin_line.specs.Answer.{answer_behind, answer_of, answer_tokens, behind_ok, id_or_reference as id_or_reference_of, objection_in, objection_of, reason_behind, reason_of, reason_tokens, success_in, value_tokens};
ghost use Rattle.admin_line.specs.FixedAnswer.{objection_word, success_word};

use crate::fixed_answer::{Objection, Success};
use poa_base::{Answer, Reason, WantMemory};
use std::alloc::Global;
use text_words::{
    WordFault, Worded, alone, find_word, identity, last_number, put_identity, put_number, put_word,
    reference,
};

/// Adds the words of an answer, each behind a space: `ok`, `ok VALUE` or `no REASON`. Where memory is wanting, some of
/// them may have been added.
pub fn put_answer(out: &mut Vec<u8>, answer: &Answer) -> Result<(), WantMemory>
    ensures { OnOk result (out.new.items ≡ out.old.items ++ tails (answer_tokens answer.now)) }
{
    put_word(out, success(answer).word())?;
    put_value(out, answer)
}

fn success(answer: &Answer) -> Success
    ensures { result ≡ success_in answer.now }
{
    match answer {
        Answer::Good | Answer::GoodId(_) | Answer::GoodIor(_) => Success::Ok,
        Answer::No(_) => Success::No,
    }
}

fn put_value(out: &mut Vec<u8>, answer: &Answer) -> Result<(), WantMemory>
    ensures { OnOk result (out.new.items ≡ out.old.items ++ tails (value_tokens answer.now)) }
{
    match answer {
        Answer::Good => Ok(()),
        Answer::GoodId(id) => put_identity(out, id),
        Answer::GoodIor(text) => put_word(out, text.as_slice()),
        Answer::No(reason) => put_reason(out, *reason),
    }
}

fn put_reason(out: &mut Vec<u8>, reason: Reason) -> Result<(), WantMemory>
    ensures { OnOk result (out.new.items ≡ out.old.items ++ tails (reason_tokens reason)) }
{
    put_word(out, objection(reason).word())?;
    match reason {
        Reason::TooMany { count } => put_number(out, u64::from(count)),
        Reason::BadWord { word } => put_number(out, u64::from(word)),
        _ => Ok(()),
    }
}

fn objection(reason: Reason) -> Objection
    ensures { result ≡ objection_in reason }
{
    match reason {
        Reason::NoManager => Objection::NoManager,
        Reason::AdapterInactive => Objection::AdapterInactive,
        Reason::AdapterNonExistent => Objection::AdapterNonExistent,
        Reason::NoTemplate => Objection::NoTemplate,
        Reason::AdapterAlreadyExists => Objection::AdapterAlreadyExists,
        Reason::TooMany { .. } => Objection::TooMany,
        Reason::WrongPolicy => Objection::WrongPolicy,
        Reason::NoServant => Objection::NoServant,
        Reason::ServantAlreadyActive => Objection::ServantAlreadyActive,
        Reason::BadId => Objection::BadId,
        Reason::ObjectAlreadyActive => Objection::ObjectAlreadyActive,
        Reason::ObjectNotActive => Objection::ObjectNotActive,
        Reason::ServantNotActive => Objection::ServantNotActive,
        Reason::NoForward => Objection::NoForward,
        Reason::BadWord { .. } => Objection::BadWord,
    }
}

/// The answer of its words, as `put_answer` adds them.
pub fn read_answer(alloc: Global, words: &[&[u8]]) -> Result<Answer, WordFault>
    ensures value { WordGives result (answer_of (map (λ w. w.now) words.now)) }
    ensures text { IfOk result (λ answer. map (λ w. w.now) words.now ≡ texts (answer_tokens answer)) }
{
    let [word, rest @ ..] = words else {
        return Err(WordFault::OutOfForm);
    };
    let Some(success) = find_word(&[Success::Ok, Success::No], word) else {
        return Err(WordFault::OutOfForm);
    };
    behind(alloc, success, rest)
}

fn behind(alloc: Global, success: Success, words: &[&[u8]]) -> Result<Answer, WordFault>
    ensures value { WordGives result (answer_behind success (map (λ w. w.now) words.now)) }
    ensures text { IfOk result (λ answer. success_word success ∷ map (λ w. w.now) words.now ≡ texts (answer_tokens answer)) }
{
    match success {
        Success::Ok => value(alloc, words),
        Success::No => {
            let reason = read_reason(words)?;
            Ok(Answer::No(reason))
        }
    }
}

fn value(alloc: Global, words: &[&[u8]]) -> Result<Answer, WordFault>
    ensures value { WordGives result (behind_ok (map (λ w. w.now) words.now)) }
    ensures text { IfOk result (λ answer. success_word Success.Ok ∷ map (λ w. w.now) words.now ≡ texts (answer_tokens answer)) }
{
    match words {
        [] => Ok(Answer::Good),
        [word] => id_or_reference(alloc, word),
        [_, _, ..] => Err(WordFault::OutOfForm),
    }
}

fn id_or_reference(alloc: Global, word: &[u8]) -> Result<Answer, WordFault>
    ensures value { WordGives result (id_or_reference_of word.now (printed_id_of word.now)) }
    ensures text { IfOk result (λ answer. success_word Success.Ok ∷ word.now ∷ [] ≡ texts (answer_tokens answer)) }
{
    match identity(alloc, word) {
        Ok(id) => Ok(Answer::GoodId(id)),
        Err(WordFault::WantMemory) => Err(WordFault::WantMemory),
        Err(WordFault::OutOfForm) => {
            let text = reference(alloc, word)?;
            Ok(Answer::GoodIor(text))
        }
    }
}

fn read_reason(words: &[&[u8]]) -> Result<Reason, WordFault>
    ensures value { WordGives result (reason_of (map (λ w. w.now) words.now)) }
    ensures text { IfOk result (λ reason. map (λ w. w.now) words.now ≡ texts (reason_tokens reason)) }
{
    let [word, rest @ ..] = words else {
        return Err(WordFault::OutOfForm);
    };
    let objection = read_objection(word)?;
    reason(objection, rest)
}

fn read_objection(word: &[u8]) -> Result<Objection, WordFault>
    ensures value { WordGives result (objection_of word.now) }
    ensures text { IfOk result (λ o. word.now ≡ objection_word o) }
{
    let all = [
        Objection::NoManager,
        Objection::AdapterInactive,
        Objection::AdapterNonExistent,
        Objection::NoTemplate,
        Objection::AdapterAlreadyExists,
        Objection::TooMany,
        Objection::WrongPolicy,
        Objection::NoServant,
        Objection::ServantAlreadyActive,
        Objection::BadId,
        Objection::ObjectAlreadyActive,
        Objection::ObjectNotActive,
        Objection::ServantNotActive,
        Objection::NoForward,
        Objection::BadWord,
    ];
    find_word(&all, word).ok_or(WordFault::OutOfForm)
}

fn reason(objection: Objection, words: &[&[u8]]) -> Result<Reason, WordFault>
    ensures value { WordGives result (reason_behind objection (map (λ w. w.now) words.now)) }
    ensures text { IfOk result (λ reason. objection_word objection ∷ map (λ w. w.now) words.now ≡ texts (reason_tokens reason)) }
{
    match objection {
        Objection::NoManager => alone(Reason::NoManager, words),
        Objection::AdapterInactive => alone(Reason::AdapterInactive, words),
        Objection::AdapterNonExistent => alone(Reason::AdapterNonExistent, words),
        Objection::NoTemplate => alone(Reason::NoTemplate, words),
        Objection::AdapterAlreadyExists => alone(Reason::AdapterAlreadyExists, words),
        Objection::TooMany => {
            let count = last_number(words)?;
            Ok(Reason::TooMany { count })
        }
        Objection::WrongPolicy => alone(Reason::WrongPolicy, words),
        Objection::NoServant => alone(Reason::NoServant, words),
        Objection::ServantAlreadyActive => alone(Reason::ServantAlreadyActive, words),
        Objection::BadId => alone(Reason::BadId, words),
        Objection::ObjectAlreadyActive => alone(Reason::ObjectAlreadyActive, words),
        Objection::ObjectNotActive => alone(Reason::ObjectNotActive, words),
        Objection::ServantNotActive => alone(Reason::ServantNotActive, words),
        Objection::NoForward => alone(Reason::NoForward, words),
        Objection::BadWord => {
            let word = last_number(words)?;
            Ok(Reason::BadWord { word })
        }
    }
}
