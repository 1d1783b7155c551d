//! The command that words are.
ghost use Rattle.std.specs.Prelude.{◌≡◌, IfOk, Err, Some, None, false, map, string_bytes};
ghost use Rattle.command_words.specs.declared.fault.WordsFault.TheVariants.{BadWords};
ghost use Rattle.command_words.specs.Words as spec;
ghost use Rattle.command_words.specs.Words.{IsWithin, arguments_of, command_in, seen};

use crate::audit_words::audit_words;
use crate::command::Command;
use crate::explain_words::explain_words;
use crate::fault::WordsFault;
use crate::numbers::{long_number, number_in};
use crate::parsing::{one_argument, required_argument, two_arguments};
use crate::words::no_argument;
use std::alloc::Global;

const MOST_CALLS: u32 = 200_000;

/// The command that the words are. A load is of at most 200,000 calls.
pub fn command_of<'a>(alloc: Global, words: &'a [String]) -> Result<Command<'a>, WordsFault>
    ensures ok { IfOk result (λ command. command_in words.now ≡ Some (seen command)) }
    ensures within { IfOk result (λ command. IsWithin (seen command)) }
    ensures bad { result ≡ Err BadWords → command_in words.now ≡ None }
{
    match words {
        [] => Err(WordsFault::BadWords),
        [word, rest @ ..] => {
            if word.as_str() == "audit" {
                return Ok(Command::Audit(audit_words(alloc, rest)?));
            }
            if word.as_str() == "explain" {
                return Ok(Command::Explain(explain_words(alloc, rest)?));
            }
            named(alloc, word.as_str(), rest)
        }
    }
}

// The command of a first word, and of those behind it.
fn named<'a>(alloc: Global, word: &str, rest: &'a [String]) -> Result<Command<'a>, WordsFault>
    ensures ok { IfOk result (λ command. spec.named word.now (arguments_of false (map string_bytes rest.now)) ≡ Some (seen command)) }
    ensures within { IfOk result (λ command. IsWithin (seen command)) }
    ensures bad { result ≡ Err BadWords → spec.named word.now (arguments_of false (map string_bytes rest.now)) ≡ None }
{
    match word {
        "answer" => Ok(Command::Answer(one_argument(alloc, "answer", false, rest)?)),
        "show" => Ok(Command::Show(required_argument(alloc, "show", rest)?)),
        "check" => Ok(Command::Check(required_argument(alloc, "check", rest)?)),
        "iors" => Ok(Command::Iors(required_argument(alloc, "iors", rest)?)),
        "migrate" => {
            let (config, text) = two_arguments(alloc, "migrate", rest)?;
            Ok(Command::Migrate { config, text })
        }
        "loc" => Ok(Command::Loc(required_argument(alloc, "loc", rest)?)),
        "replay" => {
            let (config, script) = two_arguments(alloc, "replay", rest)?;
            Ok(Command::Replay { config, script })
        }
        "load" => {
            let (calls, start) = two_arguments(alloc, "load", rest)?;
            load_of(calls, start)
        }
        "names" => {
            no_argument(rest)?;
            Ok(Command::Names)
        }
        _ => Err(WordsFault::BadWords),
    }
}

// A load of at most 200,000 calls, from a number below 2^64.
fn load_of<'a>(calls: &str, start: &str) -> Result<Command<'a>, WordsFault>
    ensures ok { IfOk result (λ command. spec.load_of (Some (calls.now, start.now)) ≡ Some (seen command)) }
    ensures within { IfOk result (λ command. IsWithin (seen command)) }
    ensures bad { result ≡ Err BadWords → spec.load_of (Some (calls.now, start.now)) ≡ None }
{
    let calls = number_in(calls, 0, MOST_CALLS)?;
    let start = long_number(start)?;
    Ok(Command::Load { calls, start })
}
