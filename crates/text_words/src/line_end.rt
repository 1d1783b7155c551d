ghost use Rattle.std.specs.Prelude.{◌≡◌, ◌∷◌, ◌++◌, ◌^◌, [], IfOk, OnOk, map};
ghost use Rattle.text_words.specs.WordGives.{WordGives};
ghost use Rattle.text_words.specs.Number.{number_of};
ghost use Rattle.text_words.specs.Token.{Token, tails, texts};
ghost use Rattle.text_words.specs.Parts.{alone as alone_of, endpoint_tokens, last_endpoint as last_endpoint_of, last_name as last_name_of, last_number as last_number_of, only};

use crate::decimal::{number32, number64, port};
use crate::fault::WordFault;
use crate::names::{host, name};
use crate::writing::{put_number, put_word};
use poa_base::{Endpoint, Name, WantMemory};
use std::alloc::Global;

/// That a line has no more words.
pub fn nothing(words: &[&[u8]]) -> Result<(), WordFault>
    ensures value { WordGives result (alone_of tt (map (λ w. w.now) words.now)) }
    ensures text { IfOk result (λ x. map (λ w. w.now) words.now ≡ []) }
{
    match words {
        [] => Ok(()),
        [_, ..] => Err(WordFault::OutOfForm),
    }
}

/// The value, where a line has no more words.
pub fn alone<T: Drop>(value: T, words: &[&[u8]]) -> Result<T, WordFault>
    ensures value { WordGives result (alone_of value (map (λ w. w.now) words.now)) }
    ensures text { IfOk result (λ x. map (λ w. w.now) words.now ≡ []) }
    ensures same { IfOk result (λ x. x ≡ value) }
{
    nothing(words)?;
    Ok(value)
}

/// The number below 2^32 that is the last word of a line.
pub fn last_number(words: &[&[u8]]) -> Result<u32, WordFault>
    ensures value { WordGives result (last_number_of (map (λ w. w.now) words.now)) }
    ensures text { IfOk result (λ n. map (λ w. w.now) words.now ≡ texts (Token.number (2 ^ 32) n ∷ [])) }
{
    let [word, rest @ ..] = words else {
        return Err(WordFault::OutOfForm);
    };
    let n = number32(word)?;
    nothing(rest)?;
    Ok(n)
}

/// The number below 2^64 that is the last word of a line.
pub fn last_long_number(words: &[&[u8]]) -> Result<u64, WordFault>
    ensures value { WordGives result (only (number_of (2 ^ 64)) (map (λ w. w.now) words.now)) }
    ensures text { IfOk result (λ n. map (λ w. w.now) words.now ≡ texts (Token.number (2 ^ 64) n ∷ [])) }
{
    let [word, rest @ ..] = words else {
        return Err(WordFault::OutOfForm);
    };
    let n = number64(word)?;
    nothing(rest)?;
    Ok(n)
}

/// The name that is the last word of a line.
pub fn last_name(alloc: Global, words: &[&[u8]]) -> Result<Name, WordFault>
    ensures value { WordGives result (last_name_of (map (λ w. w.now) words.now)) }
    ensures text { IfOk result (λ n. map (λ w. w.now) words.now ≡ texts (Token.named n ∷ [])) }
{
    let [word, rest @ ..] = words else {
        return Err(WordFault::OutOfForm);
    };
    let found = name(alloc, word)?;
    nothing(rest)?;
    Ok(found)
}

/// The host and the port that are the last words of a line.
pub fn last_endpoint(alloc: Global, words: &[&[u8]]) -> Result<Endpoint, WordFault>
    ensures value { WordGives result (last_endpoint_of (map (λ w. w.now) words.now)) }
    ensures text { IfOk result (λ endpoint. map (λ w. w.now) words.now ≡ texts (endpoint_tokens endpoint)) }
{
    let [first, second, rest @ ..] = words else {
        return Err(WordFault::OutOfForm);
    };
    let host = host(alloc, first)?;
    let port = port(second)?;
    nothing(rest)?;
    Ok(Endpoint { host, port })
}

/// Adds a host and a port. Where memory is wanting, the host may have been added.
pub fn put_endpoint(out: &mut Vec<u8>, endpoint: &Endpoint) -> Result<(), WantMemory>
    ensures { OnOk result (out.new.items ≡ out.old.items ++ tails (endpoint_tokens endpoint.now)) }
{
    put_word(out, endpoint.host.as_slice())?;
    put_number(out, u64::from(endpoint.port))
}
