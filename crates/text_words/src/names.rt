ghost use Rattle.std.specs.Prelude.{◌≡◌, IfOk};
ghost use Rattle.std.specs.List.{list_all};
ghost use Rattle.text_words.specs.WordGives.{WordGives};
ghost use Rattle.text_words.specs.Token.{Token, spell};
ghost use Rattle.text_words.specs.Name.{host_of, is_alphanumeric, is_host as is_host_of, is_host_byte, is_name as is_name_of, is_name_byte, name_of};

use crate::fault::WordFault;
use poa_base::{Bytes, Name};
use std::alloc::Global;

// A letter or a digit.
fn is_letter_or_digit(c: u8) -> bool
    ensures { result ≡ is_alphanumeric c }
{
    matches!(c, b'0'..=b'9' | b'A'..=b'Z' | b'a'..=b'z')
}

fn may_stand_in_name(c: u8) -> bool
    ensures { result ≡ is_name_byte c }
{
    is_letter_or_digit(c) || c == b'_' || c == b'-' || c == b'.'
}

fn may_stand_in_host(c: u8) -> bool
    ensures { result ≡ is_host_byte c }
{
    is_letter_or_digit(c) || c == b'.' || c == b'-'
}

fn can_be_name(word: &[u8]) -> bool
    ensures { result ≡ list_all is_name_byte word.now }
{
    word.iter().all(|c| may_stand_in_name(*c))
}

fn can_be_host(word: &[u8]) -> bool
    ensures { result ≡ list_all is_host_byte word.now }
{
    word.iter().all(|c| may_stand_in_host(*c))
}

/// Whether `word` is a name: 1 to 64 letters, digits, `_`, `-` and `.`.
pub fn is_name(word: &[u8]) -> bool
    ensures { result ≡ is_name_of word.now }
{
    !word.is_empty() && word.len() <= 64 && can_be_name(word)
}

/// Whether `word` is a host's name or address: 1 to 255 letters, digits, `.` and `-`.
pub fn is_host(word: &[u8]) -> bool
    ensures { result ≡ is_host_of word.now }
{
    !word.is_empty() && word.len() <= 255 && can_be_host(word)
}

/// The name that `word` is.
pub fn name(alloc: Global, word: &[u8]) -> Result<Name, WordFault>
    ensures value { WordGives result (name_of word.now) }
    ensures text { IfOk result (λ n. word.now ≡ spell (Token.named n)) }
{
    if !is_name(word) {
        return Err(WordFault::OutOfForm);
    }
    let bytes = Vec::from_slice(alloc, word)?;
    Name::from_vec(bytes).ok_or(WordFault::OutOfForm)
}

/// The host that `word` is.
pub fn host(alloc: Global, word: &[u8]) -> Result<Bytes, WordFault>
    ensures value { WordGives result (host_of word.now) }
    ensures text { IfOk result (λ h. word.now ≡ spell (Token.host h)) }
{
    if !is_host(word) {
        return Err(WordFault::OutOfForm);
    }
    let bytes = Vec::from_slice(alloc, word)?;
    Ok(Bytes::from_vec(bytes))
}
