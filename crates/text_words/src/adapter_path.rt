ghost use Rattle.std.specs.Prelude.{◌≡◌, IfOk, map};
ghost use Rattle.text_words.specs.WordGives.{WordGives};
ghost use Rattle.text_words.specs.Token.{Token, spell};
ghost use Rattle.text_words.specs.Path.{all_names_of, below_root, few_enough, path_names_of, path_of};

use crate::cuts::parts;
use crate::fault::WordFault;
use crate::names::name;
use poa_base::{Bytes, Items, Name, Path};
use std::alloc::{AllocError, Global};

/// The path that `word` writes: `/`, or at most 16 names each of which stands behind a `/`.
pub fn path(alloc: Global, word: &[u8]) -> Result<Path, WordFault>
    ensures value { WordGives result (path_of word.now) }
    ensures text { IfOk result (λ path. word.now ≡ spell (Token.path path)) }
{
    few(path_names(alloc, word)?)
}

/// The names of the path that `word` writes, of which there may be more than a path has.
pub fn path_names(alloc: Global, word: &[u8]) -> Result<Items<Name>, WordFault>
    ensures value { WordGives result (path_names_of word.now) }
    ensures text { IfOk result (λ names. word.now ≡ spell (Token.path names)) }
{
    read_names(alloc, word)
}

fn read_names(alloc: Global, word: &[u8]) -> Result<Items<Name>, WordFault>
    ensures { WordGives result (path_names_of word.now) }
{
    match word {
        [b'/'] => Ok(Items::new(alloc)),
        [b'/', rest @ ..] => {
            let parts = parts(alloc, rest, b'/')?;
            all_names(alloc, parts.as_slice())
        }
        _ => Err(WordFault::OutOfForm),
    }
}

fn all_names(alloc: Global, parts: &[&[u8]]) -> Result<Items<Name>, WordFault>
    ensures { WordGives result (all_names_of (map (λ x. x.now) parts.now)) }
{
    let mut names = Vec::new(alloc);
    for part in parts {
        let next = name(alloc, part)?;
        names.push(next).map_err(AllocError::from)?;
    }
    Ok(Items::from_vec(names))
}

fn few(names: Items<Name>) -> Result<Path, WordFault>
    ensures value { WordGives result (few_enough names) }
    ensures same { IfOk result (λ path. path ≡ names) }
{
    Path::from_vec(names.into_vec()).ok_or(WordFault::OutOfForm)
}

/// The text of a path.
pub fn path_text(alloc: Global, path: &Path) -> Result<Bytes, AllocError>
    ensures { IfOk result (λ text. text ≡ spell (Token.path path.now)) }
{
    let names = path.as_slice();
    if names.is_empty() {
        let root = Vec::from_slice(alloc, b"/")?;
        return Ok(Bytes::from_vec(root));
    }
    names_text(alloc, names)
}

fn names_text(alloc: Global, names: &[Name]) -> Result<Bytes, AllocError>
    ensures { IfOk result (λ text. text ≡ below_root names.now) }
{
    let mut text = Vec::new(alloc);
    for name in names {
        text.push(b'/')?;
        text.extend_from_slice(name.as_slice())?;
    }
    Ok(Bytes::from_vec(text))
}
