//! The call that words ask for.
ghost use Rattle.std.specs.Prelude.{◌≡◌, ◌≤◌, IfOk, Err, Some, None, option_map};
ghost use Rattle.command_words.specs.declared.fault.WordsFault.TheVariants.{BadWords};
ghost use Rattle.poad_call.specs.Asking as spec;
ghost use Rattle.poad_call.specs.Asking.{asked_in, seen_asked};

use command_words::{CallWords, WordsFault, call_words};
use giop_client::MOST_HOPS;
use poa_base::Datum;
use replay_script::datum;
use std::alloc::Global;
use text_words::WordFault;

/// The call that words ask for, with its argument read.
#[derive(Drop)]
pub(crate) struct Asked<'a> {
    pub words: CallWords<'a>,
    pub argument: Option<Datum>,
}

impl<'a> Asked<'a> {
    /// The call of the words. `BadWords` where they are no call, or the argument's word is none.
    pub(crate) fn of(alloc: Global, words: &'a [String]) -> Result<Asked<'a>, WordsFault>
        ensures ok { IfOk result (λ asked. asked_in words.now ≡ Some (seen_asked asked)) }
        ensures hops { IfOk result (λ asked. asked.words.hops ≤ MOST_HOPS) }
        ensures bad { result ≡ Err BadWords → asked_in words.now ≡ None }
    {
        let words = call_words(alloc, words)?;
        let argument = argument_of(alloc, words.argument)?;
        Ok(Asked { words, argument })
    }
}

// The argument that a word is, if there is a word.
fn argument_of(alloc: Global, word: Option<&str>) -> Result<Option<Datum>, WordsFault>
    ensures ok { IfOk result
        (λ argument. spec.argument_of (option_map (λ w. w.now) word.entry) ≡ Some argument) }
    ensures bad { result ≡ Err BadWords
        → spec.argument_of (option_map (λ w. w.now) word.entry) ≡ None }
{
    let Some(word) = word else {
        return Ok(None);
    };
    match datum(alloc, word.as_bytes()) {
        Ok(argument) => Ok(Some(argument)),
        Err(WordFault::OutOfForm) => Err(WordsFault::BadWords),
        Err(WordFault::WantMemory) => Err(WordsFault::WantMemory),
    }
}
