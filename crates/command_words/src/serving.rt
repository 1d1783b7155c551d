//! The words of `serve`.
ghost use Rattle.std.specs.Prelude.{◌≡◌, ◌≤◌, IfOk, Err, Some, None, map, option_map, string_bytes};
ghost use Rattle.command_words.specs.declared.fault.WordsFault.TheVariants.{BadWords};
ghost use Rattle.command_words.specs.Serving as spec;
ghost use Rattle.command_words.specs.Serving.{AreApart, seen_serve, serve_in, serve_of};
ghost use Rattle.command_words.specs.Settings.{seen_setting};

use crate::fault::WordsFault;
use crate::numbers::number_in;
use crate::optioned::Optioned;
use crate::server::ServeWords;
use crate::setting::Setting;
use crate::settings::read_settings;
use crate::values::{optional, required};
use std::alloc::Global;

const MOST_LANES: u32 = 64;

const MOST_WORKERS: u32 = 16;

// The calls that a run takes at most, and where the words say nothing of it.
const MOST_ARRIVALS: u32 = 4_000_000;

/// The run of a server that the words ask for: `serve FILE --lanes L --workers W --run N [--state NAME]
/// [--journal NAME] [--limit N]`, the options in any place, each at most once, as `--lanes 4` or `--lanes=4`. Behind a
/// `--` all words are arguments. The state and the journal have two names.
pub fn serve_words<'a>(alloc: Global, words: &'a [String]) -> Result<ServeWords<'a>, WordsFault>
    ensures ok { IfOk result (λ serve. serve_in words.now ≡ Some (seen_serve serve)) }
    ensures lanes { IfOk result (λ serve. (1 ≤ serve.lanes) × (serve.lanes ≤ 64)) }
    ensures workers { IfOk result (λ serve. (1 ≤ serve.workers) × (serve.workers ≤ 16)) }
    ensures limit { IfOk result (λ serve. (1 ≤ serve.limit) × (serve.limit ≤ 4000000)) }
    ensures apart { IfOk result (λ serve. AreApart (seen_serve serve).state (seen_serve serve).journal) }
    ensures bad { result ≡ Err BadWords → serve_in words.now ≡ None }
{
    match words {
        [] => Err(WordsFault::BadWords),
        [word, rest @ ..] => {
            if word.as_str() != "serve" {
                return Err(WordsFault::BadWords);
            }
            let settings = read_settings(alloc, Optioned::Serve, rest)?;
            serve_by(settings.as_slice())
        }
    }
}

// The same of the settings that the words behind the first give.
fn serve_by<'a>(settings: &[Setting<'a>]) -> Result<ServeWords<'a>, WordsFault>
    ensures ok { IfOk result (λ serve. serve_of (map seen_setting settings.now) ≡ Some (seen_serve serve)) }
    ensures lanes { IfOk result (λ serve. (1 ≤ serve.lanes) × (serve.lanes ≤ 64)) }
    ensures workers { IfOk result (λ serve. (1 ≤ serve.workers) × (serve.workers ≤ 16)) }
    ensures limit { IfOk result (λ serve. (1 ≤ serve.limit) × (serve.limit ≤ 4000000)) }
    ensures apart { IfOk result (λ serve. AreApart (seen_serve serve).state (seen_serve serve).journal) }
    ensures bad { result ≡ Err BadWords → serve_of (map seen_setting settings.now) ≡ None }
{
    let file = required(settings, "")?;
    let lanes = number_in(required(settings, "--lanes")?, 1, MOST_LANES)?;
    let workers = number_in(required(settings, "--workers")?, 1, MOST_WORKERS)?;
    let run = number_in(required(settings, "--run")?, 0, u32::MAX)?;
    let state = optional(settings, "--state")?;
    let journal = optional(settings, "--journal")?;
    let limit = limit_of(optional(settings, "--limit")?)?;
    if !are_apart(state, journal) {
        return Err(WordsFault::BadWords);
    }
    Ok(ServeWords {
        file,
        lanes,
        workers,
        run,
        state,
        journal,
        limit,
    })
}

/// The number of calls that a word says a run takes at most.
pub(crate) fn limit_of(word: Option<&str>) -> Result<u32, WordsFault>
    ensures ok { IfOk result (λ n. spec.limit_of (option_map (λ w. w.now) word.entry) ≡ Some n) }
    ensures within { IfOk result (λ n. (1 ≤ n) × (n ≤ 4000000)) }
    ensures bad { result ≡ Err BadWords → spec.limit_of (option_map (λ w. w.now) word.entry) ≡ None }
{
    match word {
        Some(word) => number_in(word, 1, MOST_ARRIVALS),
        None => Ok(MOST_ARRIVALS),
    }
}

// Whether a state and a journal have two names, where both are asked for.
fn are_apart(state: Option<&str>, journal: Option<&str>) -> bool
    ensures { result ≡ spec.are_apart (option_map (λ n. n.now) state.entry) (option_map (λ n. n.now) journal.entry) }
{
    match (state, journal) {
        (Some(state), Some(journal)) => state != journal,
        _ => true,
    }
}
