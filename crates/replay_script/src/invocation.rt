//! What a request invokes.
ghost use Rattle.std.specs.Prelude.{◌≡◌, map};
ghost use Rattle.text_words.specs.WordGives.{WordGives};
ghost use Rattle.replay_script.specs.Reading.{invocation_of};

use crate::argument::argument;
use poa_base::{Datum, Name, Oid, Path};
use std::alloc::Global;
use text_words::{WordFault, any_identity, name, path};

/// The operation of an object, and its argument.
#[derive(Drop)]
pub(crate) struct Invocation {
    pub(crate) path: Path,
    pub(crate) oid: Oid,
    pub(crate) operation: Name,
    pub(crate) argument: Option<Datum>,
}

/// The invocation that these words write.
pub(crate) fn read_invocation(alloc: Global, words: &[&[u8]]) -> Result<Invocation, WordFault>
    ensures { WordGives result (invocation_of (map (λ w. w.now) words.now)) }
{
    let [adapter, oid, operation, rest @ ..] = words else {
        return Err(WordFault::OutOfForm);
    };
    let path = path(alloc, adapter)?;
    let oid = any_identity(alloc, oid)?;
    let operation = name(alloc, operation)?;
    let argument = argument(alloc, rest)?;
    Ok(Invocation {
        path,
        oid,
        operation,
        argument,
    })
}
