ghost use Rattle.std.specs.Prelude.{◌≡◌, ◌++◌, IfOk, IfSome};
ghost use Rattle.std.specs.List.{list_all};
ghost use Rattle.std.specs.Option.{option_copied};
ghost use Rattle.text_words.specs.WordGives.{WordGives};
ghost use Rattle.hex.specs.Hex.{encode_lower};
ghost use Rattle.text_words.specs.Token.{Token, spell};
ghost use Rattle.text_words.specs.Hexadecimal.{any_hex_of, behind, hex_of, is_lower_digit, is_lower_hex, is_reference as is_reference_of, minor_of, prefixed_of, reference_of};

use crate::fault::WordFault;
use hex::{FromHex, FromHexError};
use poa_base::Bytes;
use std::alloc::Global;

// What stands behind the prefix.
pub(crate) fn text_behind<'a>(word: &'a [u8], prefix: &[u8]) -> Option<&'a [u8]>
    ensures value { option_copied result ≡ behind prefix.now word.now }
    ensures text { IfSome result (λ text. word.now ≡ prefix.now ++ text.now) }
{
    word.strip_prefix(prefix)
}

/// The bytes of hexadecimal digits in either case.
pub fn any_hex(alloc: Global, text: &[u8]) -> Result<Bytes, WordFault>
    ensures { WordGives result (any_hex_of text.now) }
{
    match hex::decode(alloc, text) {
        Ok(bytes) => Ok(Bytes::from_vec(bytes)),
        Err(FromHexError::OutOfMemory) => Err(WordFault::WantMemory),
        Err(_) => Err(WordFault::OutOfForm),
    }
}

// The bytes of lower-case hexadecimal digits.
fn lower_hex(alloc: Global, text: &[u8]) -> Result<Bytes, WordFault>
    ensures value { WordGives result (hex_of text.now) }
    ensures text { IfOk result (λ bytes. text.now ≡ encode_lower bytes) }
{
    let bytes = any_hex(alloc, text)?;
    let spelled = hex::encode(alloc, bytes.as_slice())?;
    if spelled.as_bytes() == text {
        Ok(bytes)
    } else {
        Err(WordFault::OutOfForm)
    }
}

/// The bytes of a word that is `prefix`, as `h:`, and two lower-case hexadecimal digits a byte.
pub fn octets(alloc: Global, prefix: &[u8], word: &[u8]) -> Result<Bytes, WordFault>
    ensures value { WordGives result (prefixed_of prefix.now word.now) }
    ensures text { IfOk result (λ bytes. word.now ≡ spell (Token.octets prefix.now bytes)) }
{
    let Some(text) = text_behind(word, prefix) else {
        return Err(WordFault::OutOfForm);
    };
    lower_hex(alloc, text)
}

/// The number of a word of eight lower-case hexadecimal digits.
pub fn minor(word: &[u8]) -> Result<u32, WordFault>
    ensures value { WordGives result (minor_of word.now) }
    ensures text { IfOk result (λ n. word.now ≡ spell (Token.minor n)) }
{
    let Ok(bytes) = <[u8; 4] as FromHex>::from_hex(word) else {
        return Err(WordFault::OutOfForm);
    };
    let n = u32::from_be_bytes(bytes);
    let mut digits = [0; 8];
    let _ = hex::encode_to_slice(n.to_be_bytes(), &mut digits);
    if digits.as_slice() == word {
        Ok(n)
    } else {
        Err(WordFault::OutOfForm)
    }
}

fn is_hex_digit(c: u8) -> bool
    ensures { result ≡ is_lower_digit c }
{
    matches!(c, b'0'..=b'9' | b'a'..=b'f')
}

fn has_hex_digits(text: &[u8]) -> bool
    ensures { result ≡ list_all is_lower_digit text.now }
{
    text.iter().all(|c| is_hex_digit(*c))
}

fn is_hex_text(text: &[u8]) -> bool
    ensures { result ≡ is_lower_hex text.now }
{
    text.len() % 2 == 0 && has_hex_digits(text)
}

/// Whether `word` is the text of a reference: `IOR:` and two lower-case hexadecimal digits a byte.
pub fn is_reference(word: &[u8]) -> bool
    ensures { result ≡ is_reference_of word.now }
{
    match text_behind(word, b"IOR:") {
        Some(text) => is_hex_text(text),
        None => false,
    }
}

/// The text of a reference that `word` is.
pub fn reference(alloc: Global, word: &[u8]) -> Result<Bytes, WordFault>
    ensures value { WordGives result (reference_of word.now) }
    ensures text { IfOk result (λ text. word.now ≡ spell (Token.reference text)) }
{
    if !is_reference(word) {
        return Err(WordFault::OutOfForm);
    }
    let bytes = Vec::from_slice(alloc, word)?;
    Ok(Bytes::from_vec(bytes))
}
