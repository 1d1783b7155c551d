//! The words of `call`.
ghost use Rattle.std.specs.Prelude.{◌≡◌, ◌≤◌, IfOk, Err, Some, None, map, option_map, string_bytes};
ghost use Rattle.command_words.specs.declared.fault.WordsFault.TheVariants.{BadWords};
ghost use Rattle.command_words.specs.Calling as spec;
ghost use Rattle.command_words.specs.Calling.{call_in, call_of, seen_call};
ghost use Rattle.command_words.specs.Settings.{seen_setting};

use crate::fault::WordsFault;
use crate::numbers::number_in;
use crate::optioned::Optioned;
use crate::result_kind::ResultKind;
use crate::setting::Setting;
use crate::settings::read_settings;
use crate::values::{optional, values};
use std::alloc::Global;

// The forwards that are followed at most, and where the words say nothing of it.
const MOST_HOPS: u32 = 16;

const HOPS: u32 = 8;

/// The call of an object that words ask for.
#[derive(Clone, Copy)]
pub struct CallWords<'a> {
    /// The text of the object's reference.
    pub reference: &'a str,
    pub operation: &'a str,
    /// The word of the argument, if there is one.
    pub argument: Option<&'a str>,
    /// As what the result is read.
    pub kind: ResultKind,
    /// How many forwards are followed: 0 to 16.
    pub hops: u32,
}

/// The call that the words ask for: `call IOR OP [ARG] [--as KIND] [--hops N]`, the options in any place, each at most
/// once, as `--as i` or `--as=i`. KIND is `v` for nothing, `i`, `u`, `b` or `o`. Behind a `--` all words are arguments.
pub fn call_words<'a>(alloc: Global, words: &'a [String]) -> Result<CallWords<'a>, WordsFault>
    ensures ok { IfOk result (λ call. call_in words.now ≡ Some (seen_call call)) }
    ensures hops { IfOk result (λ call. call.hops ≤ 16) }
    ensures bad { result ≡ Err BadWords → call_in words.now ≡ None }
{
    match words {
        [] => Err(WordsFault::BadWords),
        [word, rest @ ..] => {
            if word.as_str() != "call" {
                return Err(WordsFault::BadWords);
            }
            let settings = read_settings(alloc, Optioned::Call, rest)?;
            call_by(alloc, settings.as_slice())
        }
    }
}

// The same of the settings that the words behind the first give.
fn call_by<'a>(alloc: Global, settings: &[Setting<'a>]) -> Result<CallWords<'a>, WordsFault>
    ensures ok { IfOk result (λ call. call_of (map seen_setting settings.now) ≡ Some (seen_call call)) }
    ensures hops { IfOk result (λ call. call.hops ≤ 16) }
    ensures bad { result ≡ Err BadWords → call_of (map seen_setting settings.now) ≡ None }
{
    let kind = kind_of(optional(settings, "--as")?)?;
    let hops = hops_of(optional(settings, "--hops")?)?;
    let arguments = values(alloc, settings, "")?;
    asked_by(arguments.as_slice(), kind, hops)
}

// The call of so many arguments.
fn asked_by<'a>(
    arguments: &[&'a str],
    kind: ResultKind,
    hops: u32,
) -> Result<CallWords<'a>, WordsFault>
    requires { hops ≤ 16 }
    ensures ok { IfOk result (λ call. spec.asked_by (map (λ a. a.now) arguments.now) kind hops ≡ Some (seen_call call)) }
    ensures hops { IfOk result (λ call. call.hops ≤ 16) }
    ensures bad { result ≡ Err BadWords → spec.asked_by (map (λ a. a.now) arguments.now) kind hops ≡ None }
{
    let (reference, operation, argument) = match arguments {
        [reference, operation] => (*reference, *operation, None),
        [reference, operation, argument] => (*reference, *operation, Some(*argument)),
        _ => return Err(WordsFault::BadWords),
    };
    Ok(CallWords {
        reference,
        operation,
        argument,
        kind,
        hops,
    })
}

// As what a word says that a result is read.
fn kind_of(word: Option<&str>) -> Result<ResultKind, WordsFault>
    ensures ok { IfOk result (λ kind. spec.kind_of (option_map (λ w. w.now) word.entry) ≡ Some kind) }
    ensures bad { result ≡ Err BadWords → spec.kind_of (option_map (λ w. w.now) word.entry) ≡ None }
{
    match word {
        None | Some("v") => Ok(ResultKind::Nothing),
        Some("i") => Ok(ResultKind::Long),
        Some("u") => Ok(ResultKind::Ulong),
        Some("b") => Ok(ResultKind::Flag),
        Some("o") => Ok(ResultKind::Octets),
        Some(_) => Err(WordsFault::BadWords),
    }
}

// How many forwards a word says that are followed.
fn hops_of(word: Option<&str>) -> Result<u32, WordsFault>
    ensures ok { IfOk result (λ n. spec.hops_of (option_map (λ w. w.now) word.entry) ≡ Some n) }
    ensures within { IfOk result (λ n. n ≤ 16) }
    ensures bad { result ≡ Err BadWords → spec.hops_of (option_map (λ w. w.now) word.entry) ≡ None }
{
    match word {
        Some(word) => number_in(word, 0, MOST_HOPS),
        None => Ok(HOPS),
    }
}
