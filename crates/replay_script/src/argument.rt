//! The argument of a request.
ghost use Rattle.std.specs.Prelude.{◌≡◌, map};
ghost use Rattle.std.specs.List.{list_all};
ghost use Rattle.text_words.specs.WordGives.{WordGives};
ghost use Rattle.replay_script.specs.Reading.{argument_of, datum_behind, datum_of, form_of, is_printable, printable_of};

use crate::fixed::Form;
use poa_base::{Bytes, Datum};
use std::alloc::Global;
use text_words::{WordFault, any_hex, find_word, number32, signed};

/// The argument of the words behind an operation, of which there is one or none.
pub(crate) fn argument(alloc: Global, words: &[&[u8]]) -> Result<Option<Datum>, WordFault>
    ensures { WordGives result (argument_of (map (λ w. w.now) words.now)) }
{
    match words {
        [] => Ok(None),
        [word] => {
            let found = datum(alloc, word)?;
            Ok(Some(found))
        }
        _ => Err(WordFault::OutOfForm),
    }
}

/// The argument that a word is.
pub fn datum(alloc: Global, word: &[u8]) -> Result<Datum, WordFault>
    ensures { WordGives result (datum_of word.now) }
{
    let [letter, colon, text @ ..] = word else {
        return Err(WordFault::OutOfForm);
    };
    if *colon != b':' {
        return Err(WordFault::OutOfForm);
    }
    let form = form(*letter)?;
    value(alloc, form, text)
}

fn form(letter: u8) -> Result<Form, WordFault>
    ensures { WordGives result (form_of letter) }
{
    find_word(
        &[Form::Long, Form::Ulong, Form::Octets, Form::Text],
        &[letter],
    )
    .ok_or(WordFault::OutOfForm)
}

fn value(alloc: Global, form: Form, text: &[u8]) -> Result<Datum, WordFault>
    ensures { WordGives result (datum_behind form text.now) }
{
    match form {
        Form::Long => {
            let n = signed(text)?;
            Ok(Datum::Long(n))
        }
        Form::Ulong => {
            let n = number32(text)?;
            Ok(Datum::Ulong(n))
        }
        Form::Octets => {
            let bytes = any_hex(alloc, text)?;
            Ok(Datum::Octets(bytes))
        }
        Form::Text => {
            let bytes = printable(alloc, text)?;
            Ok(Datum::Text(bytes))
        }
    }
}

fn is_printable_byte(c: u8) -> bool
    ensures { result ≡ is_printable c }
{
    b' ' < c && c < 127
}

fn is_printable_text(text: &[u8]) -> bool
    ensures { result ≡ list_all is_printable text.now }
{
    text.iter().all(|c| is_printable_byte(*c))
}

fn printable(alloc: Global, text: &[u8]) -> Result<Bytes, WordFault>
    ensures { WordGives result (printable_of text.now) }
{
    if !is_printable_text(text) {
        return Err(WordFault::OutOfForm);
    }
    let bytes = Vec::from_slice(alloc, text)?;
    Ok(Bytes::from_vec(bytes))
}
