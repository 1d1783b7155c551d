ghost use Rattle.std.specs.Prelude.{◌≡◌, ◌∷◌, ◌++◌, [], IfOk, IfSome, OnOk, map};
ghost use Rattle.std.specs.Option.{option_map};
ghost use Rattle.text_words.specs.WordGives.{WordGives};
ghost use Rattle.text_words.specs.Token.{Token, spelled, tails, texts};
ghost use Rattle.text_words.specs.Number.{signed_of};
ghost use Rattle.poa_base.specs.Rows.{row_seen};
ghost use Rattle.poa_journal.specs.ValueWords.{mark_word};
ghost use Rattle.poa_journal.specs.Fixed.{holding_word};
ghost use Rattle.text_words.specs.Parts.{only};
ghost use Rattle.poa_journal.specs.Row.{row_words_of, holding_of, page_token, pages_of, row_tokens, slot_behind, state_behind, state_tokens};

use crate::fixed::Holding;
use crate::value_words::{Mark, is_mark};
use poa_base::{Bytes, Items, Oid, Row, State, WantMemory};
use std::alloc::Global;
use text_words::{
    WordFault, Worded, alone, find_word, identity, nothing, octets, put_identity, put_octets,
    put_path, put_signed, put_word, signed,
};

fn holding(word: &[u8]) -> Result<Holding, WordFault>
    ensures value { WordGives result (holding_of word.now) }
    ensures text { IfOk result (λ k. word.now ≡ holding_word k) }
{
    find_word(
        &[
            Holding::Register,
            Holding::Log,
            Holding::Echo,
            Holding::Fault,
        ],
        word,
    )
    .ok_or(WordFault::OutOfForm)
}

/// The words behind `store`, where a line is that of a row.
pub fn row_words<'a, 'b>(words: &'b [&'a [u8]]) -> Option<&'b [&'a [u8]]>
    ensures value { option_map (λ ws. map (λ w. w.now) ws.now) result
        ≡ row_words_of (map (λ w. w.now) words.now) }
    ensures text { IfSome result
        (λ ws. map (λ w. w.now) words.now ≡ mark_word Mark.Store ∷ map (λ w. w.now) ws.now) }
{
    match words {
        [word, rest @ ..] => {
            if is_mark(Mark::Store, word) {
                Some(rest)
            } else {
                None
            }
        }
        [] => None,
    }
}

/// The id and the state of the words behind a row's path.
pub(crate) fn read_slot(alloc: Global, words: &[&[u8]]) -> Result<(Oid, State), WordFault>
    ensures value { WordGives result (slot_behind (map (λ w. w.now) words.now)) }
    ensures text { IfOk result
        (λ slot. map (λ w. w.now) words.now ≡ texts (Token.identity slot.0 ∷ state_tokens slot.1)) }
{
    let [id, kind, rest @ ..] = words else {
        return Err(WordFault::OutOfForm);
    };
    let oid = identity(alloc, id)?;
    let holding = holding(kind)?;
    let state = read_state(alloc, holding, rest)?;
    Ok((oid, state))
}

fn read_state(alloc: Global, holding: Holding, words: &[&[u8]]) -> Result<State, WordFault>
    ensures value { WordGives result (state_behind holding (map (λ w. w.now) words.now)) }
    ensures text { IfOk result
        (λ state. holding_word holding ∷ (map (λ w. w.now) words.now)
        ≡ texts (state_tokens state)) }
{
    match holding {
        Holding::Register => Ok(State::Register(last_signed(words)?)),
        Holding::Log => Ok(State::Book(read_pages(alloc, words)?)),
        Holding::Echo => alone(State::Echo, words),
        Holding::Fault => alone(State::Fault, words),
    }
}

fn last_signed(words: &[&[u8]]) -> Result<i64, WordFault>
    ensures value { WordGives result (only signed_of (map (λ w. w.now) words.now)) }
    ensures text { IfOk result (λ n. (map (λ w. w.now) words.now) ≡ texts (Token.signed n ∷ [])) }
{
    let [word, rest @ ..] = words else {
        return Err(WordFault::OutOfForm);
    };
    let n = signed(word)?;
    nothing(rest)?;
    Ok(n)
}

// The entries of a log.
fn read_pages(alloc: Global, words: &[&[u8]]) -> Result<Items<Bytes>, WordFault>
    ensures value { WordGives result (pages_of (map (λ w. w.now) words.now)) }
    ensures text { IfOk result
        (λ pages. (map (λ w. w.now) words.now) ≡ texts (map page_token pages)) }
{
    let mut pages = Vec::new(alloc);
    for word in words {
        let page = octets(alloc, b"x", word)?;
        let Ok(()) = pages.push(page) else {
            return Err(WordFault::WantMemory);
        };
    }
    Ok(Items::from_vec(pages))
}

/// Adds the line of a row without its end, to a text that stands at the start of a line. Where memory is wanting, a
/// front of it may have been added.
pub fn put_row(out: &mut Vec<u8>, row: Row) -> Result<(), WantMemory>
    ensures { OnOk result
        (out.new.items ≡ out.old.items ++ spelled (row_tokens (row_seen row.entry))) }
{
    out.extend_from_slice(Mark::Store.word())?;
    put_path(out, row.path)?;
    put_identity(out, row.oid)?;
    put_state(out, row.state)
}

fn put_state(out: &mut Vec<u8>, state: &State) -> Result<(), WantMemory>
    ensures { OnOk result (out.new.items ≡ out.old.items ++ tails (state_tokens state.now)) }
{
    match state {
        State::Register(n) => {
            put_word(out, Holding::Register.word())?;
            put_signed(out, *n)
        }
        State::Book(pages) => {
            put_word(out, Holding::Log.word())?;
            put_pages(out, pages.as_slice())
        }
        State::Echo => put_word(out, Holding::Echo.word()),
        State::Fault => put_word(out, Holding::Fault.word()),
    }
}

fn put_pages(out: &mut Vec<u8>, pages: &[Bytes]) -> Result<(), WantMemory>
    ensures { OnOk result (out.new.items ≡ out.old.items ++ tails (map page_token pages.now)) }
{
    for page in pages {
        put_octets(out, b"x", page.as_slice())?;
    }
    Ok(())
}
