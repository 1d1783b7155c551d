//! Words of a table's lines.
use anyhow::{Context, Result};
use std::alloc::Global;
use std::collections::BTreeMap;
use text_words::{number64, octets, parts, port};

/// Bytes under names, the last ones of a name counting.
pub type Messages = BTreeMap<Vec<u8>, Vec<u8>>;

/// The number that a word writes.
pub fn number(word: &[u8]) -> Result<u64> {
    number64(word).ok().context("no number")
}

/// The port that a word writes.
pub fn port_of(word: &[u8]) -> Result<u16> {
    port(word).ok().context("no port")
}

/// The numbers that words write: `N`, or `N..M` for those from N on that are below M.
pub fn numbers(alloc: Global, words: &[&[u8]]) -> Result<Vec<u64>> {
    let mut all = Vec::new(alloc);
    for word in words {
        let parts = parts(alloc, word, b'.')?;
        match parts.as_slice() {
            [first, b"", end] => put_range(&mut all, number(first)?, number(end)?)?,
            _ => all.push(number(word)?)?,
        }
    }
    Ok(all)
}

/// Puts the numbers from one on that are below another behind others.
fn put_range(all: &mut Vec<u64>, first: u64, end: u64) -> Result<()> {
    for n in first..end {
        all.push(n)?;
    }
    Ok(())
}

/// Words as texts, `''` being the empty one.
pub fn texts(alloc: Global, words: &[&[u8]]) -> Result<Vec<String>> {
    let mut all = Vec::new(alloc);
    for word in words {
        let word = if *word == b"''".as_slice() {
            b"".as_slice()
        } else {
            *word
        };
        let text = std::str::from_utf8(word).context("no text")?;
        all.push(String::from_str(alloc, text)?)?;
    }
    Ok(all)
}

/// Puts the bytes of hexadecimal digits, which stand behind a prefix, behind others.
pub fn put_octets(alloc: Global, bytes: &mut Vec<u8>, prefix: &[u8], word: &[u8]) -> Result<()> {
    let more = octets(alloc, prefix, word).ok().context("no bytes")?;
    bytes.extend_from_slice(more.as_slice())?;
    Ok(())
}

/// The bytes that words say, each the name of a message or hexadecimal behind `h:`.
pub fn bytes_of(alloc: Global, messages: &Messages, words: &[&[u8]]) -> Result<Vec<u8>> {
    let mut bytes = Vec::new(alloc);
    for word in words {
        match messages.get(*word) {
            Some(message) => bytes.extend_from_slice(message)?,
            None => put_octets(alloc, &mut bytes, b"h:", word)?,
        }
    }
    Ok(bytes)
}

/// So many bytes of one value.
pub fn filling(alloc: Global, value: &[u8], count: &[u8]) -> Result<Vec<u8>> {
    let mut bytes = Vec::new(alloc);
    put_octets(alloc, &mut bytes, b"", value)?;
    let byte = bytes.first().context("no byte")?;
    Ok(Vec::from_elem(alloc, *byte, number(count)? as usize)?)
}
