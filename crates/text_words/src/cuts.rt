ghost use Rattle.std.specs.Prelude.{◌≡◌, ◌<◌, IfSome, length, ◌∷◌, [], ◌++◌, map, MatchOption, IfOk, filter, true};
ghost use Rattle.text_words.specs.Cuts.{is_filled, lacks, lines_of, loose_words_of, parts_of, words_of};

use std::alloc::{AllocError, Global};

// The text up to the first `separator`, and what stands behind it where there is one.
fn split_front(text: &[u8], separator: u8) -> (&[u8], Option<&[u8]>)
    ensures clear { lacks separator result.0.now ≡ true }
    ensures parts { MatchOption result.1 (text.now ≡ result.0.now) (λ rest. text.now ≡ result.0.now ++ separator ∷ rest.now) }
{
    for (i, byte) in text.iter().enumerate() {
        if *byte == separator {
            return (&text[..i], Some(&text[i + 1..]));
        }
    }
    (text, None)
}

/// The first line of a text and what stands behind its LF; none of an empty text. The last LF may be missing.
pub fn next_line(text: &[u8]) -> Option<(&[u8], &[u8])>
    ensures lines { MatchOption result (lines_of text.now ≡ []) (λ x. lines_of text.now ≡ x.0.now ∷ lines_of x.1.now) }
    ensures shorter { IfSome result (λ x. length x.1.now < length text.now) }
{
    if text.is_empty() {
        return None;
    }
    let (line, behind) = split_front(text, b'\n');
    let Some(rest) = behind else {
        return Some((line, &[]));
    };
    Some((line, rest))
}

/// How many parts there is room for at first: most lines have no more words.
const FEW: usize = 8;

/// The parts of a text between the bytes `separator`, one more than there are such bytes.
pub fn parts(alloc: Global, text: &[u8], separator: u8) -> Result<Vec<&[u8]>, AllocError>
    ensures { IfOk result (λ v. map (λ x. x.now) v.items ≡ parts_of separator text.now) }
{
    let mut found = Vec::with_capacity(alloc, FEW)?;
    let mut rest = text;
    loop {
        let (front, behind) = split_front(rest, separator);
        found.push(front)?;
        let Some(after) = behind else {
            return Ok(found);
        };
        rest = after;
    }
}

/// The words of a line whose words exactly one space parts.
pub fn words(alloc: Global, line: &[u8]) -> Result<Vec<&[u8]>, AllocError>
    ensures { IfOk result (λ v. map (λ x. x.now) v.items ≡ words_of line.now) }
{
    parts(alloc, line, b' ')
}

/// The words of a line whose words any number of spaces parts, at its ends too.
pub fn loose_words(alloc: Global, line: &[u8]) -> Result<Vec<&[u8]>, AllocError>
    ensures { IfOk result (λ v. map (λ x. x.now) v.items ≡ loose_words_of line.now) }
{
    let all = words(alloc, line)?;
    filled(alloc, all.as_slice())
}

fn filled<'a>(alloc: Global, all: &[&'a [u8]]) -> Result<Vec<&'a [u8]>, AllocError>
    ensures { IfOk result (λ v. v.items ≡ filter (λ x. is_filled x.now) all.now) }
{
    all.iter()
        .filter(|word| !word.is_empty())
        .copied()
        .collect(alloc)
}
