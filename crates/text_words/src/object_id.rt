ghost use Rattle.std.specs.Prelude.{◌≡◌, IfOk};
ghost use Rattle.text_words.specs.WordGives.{WordGives};
ghost use Rattle.text_words.specs.Identity.{id_of, printed_id_of, short_enough};
ghost use Rattle.text_words.specs.Token.{Token, spell};
ghost use Rattle.text_words.specs.Name.{name_of};

use crate::fault::WordFault;
use crate::hexadecimal::{any_hex, octets, text_behind};
use crate::names::name;
use poa_base::{Bytes, Oid};
use std::alloc::Global;

fn short(bytes: Bytes) -> Result<Oid, WordFault>
    ensures value { WordGives result (short_enough bytes) }
    ensures same { IfOk result (λ id. id ≡ bytes) }
{
    Oid::from_vec(bytes.into_vec()).ok_or(WordFault::OutOfForm)
}

/// The object id that is written as poad prints it: `h:` and lower-case hexadecimal of at most 256 bytes.
pub fn identity(alloc: Global, word: &[u8]) -> Result<Oid, WordFault>
    ensures value { WordGives result (printed_id_of word.now) }
    ensures text { IfOk result (λ id. word.now ≡ spell (Token.identity id)) }
{
    short(octets(alloc, b"h:", word)?)
}

/// The object id of a word in any spelling: `t:` and a name, or `h:` and hexadecimal in either case.
pub fn any_identity(alloc: Global, word: &[u8]) -> Result<Oid, WordFault>
    ensures { WordGives result (id_of word.now) }
{
    if let Some(text) = text_behind(word, b"t:") {
        return named(alloc, text);
    }
    let Some(text) = text_behind(word, b"h:") else {
        return Err(WordFault::OutOfForm);
    };
    short(any_hex(alloc, text)?)
}

fn named(alloc: Global, text: &[u8]) -> Result<Oid, WordFault>
    ensures { WordGives result (name_of text.now) }
{
    let id = name(alloc, text)?;
    Oid::from_vec(id.into_vec()).ok_or(WordFault::OutOfForm)
}
