//! What the options of `explain` ask for.
ghost use Rattle.std.specs.Prelude.{◌≡◌, IfOk, Err, Some, None, map, option_map};
ghost use Rattle.text_words.specs.Identity.{id_of};
ghost use Rattle.text_words.specs.Path.{path_of};
ghost use Rattle.command_words.specs.declared.fault.WordsFault.TheVariants.{BadWords};
ghost use Rattle.command_words.specs.Explaining as spec;
ghost use Rattle.command_words.specs.Settings.{seen_setting, values_of};

use crate::calls_asked::CallsAsked;
use crate::fault::WordsFault;
use crate::numbers::number_in;
use crate::setting::Setting;
use crate::values::{optional, values};
use poa_base::{Oid, Path};
use std::alloc::Global;
use text_words::{WordFault, any_identity, path};

// The number of the last call that a run can take, and of the last connection.
const LAST: u32 = 3_999_999;

/// What the settings ask for.
pub(crate) fn calls_asked(alloc: Global, settings: &[Setting<'_>]) -> Result<CallsAsked, WordsFault>
    ensures ok { IfOk result (λ calls. spec.calls_of (map seen_setting settings.now) ≡ Some calls) }
    ensures bad { result ≡ Err BadWords → spec.calls_of (map seen_setting settings.now) ≡ None }
{
    let arrival = optional(settings, "--arrival")?;
    let call = pair_named(alloc, settings, "--call")?;
    let object = pair_named(alloc, settings, "--object")?;
    let span = span_of(settings)?;
    calls_by(alloc, arrival, call, object, span)
}

// By the word of `--arrival`, those of `--call` or of `--object`, or the entries of a picture.
fn calls_by(
    alloc: Global,
    arrival: Option<&str>,
    call: Option<(&str, &str)>,
    object: Option<(&str, &str)>,
    span: Option<(u32, u32)>,
) -> Result<CallsAsked, WordsFault>
    ensures ok { IfOk result (λ calls. spec.calls_by (option_map (λ a. a.now) arrival.entry)
        (option_map (λ p. (p.0.now, p.1.now)) call.entry) (option_map (λ p. (p.0.now, p.1.now)) object.entry) span ≡ Some calls) }
    ensures bad { result ≡ Err BadWords → spec.calls_by (option_map (λ a. a.now) arrival.entry)
        (option_map (λ p. (p.0.now, p.1.now)) call.entry) (option_map (λ p. (p.0.now, p.1.now)) object.entry) span ≡ None }
{
    match (arrival, call, object, span) {
        (None, None, None, None) => Ok(CallsAsked::All),
        (Some(word), None, None, None) => {
            let arrival = number_in(word, 0, LAST)?;
            Ok(CallsAsked::Arrival(arrival))
        }
        (None, Some((conn, id)), None, None) => call_of(conn, id),
        (None, None, Some((path, oid)), None) => object_of(alloc, path, oid),
        (None, None, None, Some((from, to))) => Ok(CallsAsked::Picture { from, to }),
        _ => Err(WordsFault::BadWords),
    }
}

// A request id on a connection.
fn call_of(conn: &str, id: &str) -> Result<CallsAsked, WordsFault>
    ensures ok { IfOk result (λ calls. spec.call_of (conn.now, id.now) ≡ Some calls) }
    ensures bad { result ≡ Err BadWords → spec.call_of (conn.now, id.now) ≡ None }
{
    let conn = number_in(conn, 0, LAST)?;
    let id = number_in(id, 0, u32::MAX)?;
    Ok(CallsAsked::Call { conn, id })
}

// An object's id in the adapters of a path.
fn object_of(alloc: Global, path: &str, oid: &str) -> Result<CallsAsked, WordsFault>
    ensures ok { IfOk result (λ calls. spec.object_of (path.now, oid.now) ≡ Some calls) }
    ensures bad { result ≡ Err BadWords → spec.object_of (path.now, oid.now) ≡ None }
{
    let path = path_in(alloc, path)?;
    let oid = id_in(alloc, oid)?;
    Ok(CallsAsked::Object { path, oid })
}

fn path_in(alloc: Global, word: &str) -> Result<Path, WordsFault>
    ensures ok { IfOk result (λ found. path_of word.now ≡ Some found) }
    ensures bad { result ≡ Err BadWords → path_of word.now ≡ None }
{
    match path(alloc, word.as_bytes()) {
        Ok(found) => Ok(found),
        Err(WordFault::OutOfForm) => Err(WordsFault::BadWords),
        Err(WordFault::WantMemory) => Err(WordsFault::WantMemory),
    }
}

fn id_in(alloc: Global, word: &str) -> Result<Oid, WordsFault>
    ensures ok { IfOk result (λ found. id_of word.now ≡ Some found) }
    ensures bad { result ≡ Err BadWords → id_of word.now ≡ None }
{
    match any_identity(alloc, word.as_bytes()) {
        Ok(found) => Ok(found),
        Err(WordFault::OutOfForm) => Err(WordsFault::BadWords),
        Err(WordFault::WantMemory) => Err(WordsFault::WantMemory),
    }
}

// The two values of an option, where it was given.
fn pair_named<'a>(
    alloc: Global,
    settings: &[Setting<'a>],
    name: &str,
) -> Result<Option<(&'a str, &'a str)>, WordsFault>
    ensures ok { IfOk result (λ pair. spec.pair_of (values_of name.now (map seen_setting settings.now))
        ≡ Some (option_map (λ p. (p.0.now, p.1.now)) pair)) }
    ensures bad { result ≡ Err BadWords
        → spec.pair_of (values_of name.now (map seen_setting settings.now)) ≡ None }
{
    let found = values(alloc, settings, name)?;
    pair_of(found.as_slice())
}

fn pair_of<'a>(values: &[&'a str]) -> Result<Option<(&'a str, &'a str)>, WordsFault>
    ensures ok { IfOk result (λ pair. spec.pair_of (map (λ v. v.now) values.now)
        ≡ Some (option_map (λ p. (p.0.now, p.1.now)) pair)) }
    ensures bad { result ≡ Err BadWords → spec.pair_of (map (λ v. v.now) values.now) ≡ None }
{
    match values {
        [] => Ok(None),
        [first, second] => Ok(Some((*first, *second))),
        _ => Err(WordsFault::BadWords),
    }
}

// The first and the last entry of a picture, where one is asked for.
fn span_of(settings: &[Setting<'_>]) -> Result<Option<(u32, u32)>, WordsFault>
    ensures ok { IfOk result (λ span. spec.span_of (map seen_setting settings.now) ≡ Some span) }
    ensures bad { result ≡ Err BadWords → spec.span_of (map seen_setting settings.now) ≡ None }
{
    let picture = optional(settings, "--picture")?;
    let from = optional(settings, "--from")?;
    let to = optional(settings, "--to")?;
    span_by(picture, from, to)
}

fn span_by(
    picture: Option<&str>,
    from: Option<&str>,
    to: Option<&str>,
) -> Result<Option<(u32, u32)>, WordsFault>
    ensures ok { IfOk result (λ span. spec.span_by (option_map (λ p. p.now) picture.entry)
        (option_map (λ f. f.now) from.entry) (option_map (λ t. t.now) to.entry) ≡ Some span) }
    ensures bad { result ≡ Err BadWords → spec.span_by (option_map (λ p. p.now) picture.entry)
        (option_map (λ f. f.now) from.entry) (option_map (λ t. t.now) to.entry) ≡ None }
{
    match (picture, from, to) {
        (Some(_), from, to) => {
            let first = entry_of(from, 0, 0)?;
            let last = entry_of(to, first, u32::MAX)?;
            Ok(Some((first, last)))
        }
        (None, None, None) => Ok(None),
        _ => Err(WordsFault::BadWords),
    }
}

// The number of an entry that a word says, which isn't below `least`; where there is no word it is the other.
fn entry_of(word: Option<&str>, least: u32, otherwise: u32) -> Result<u32, WordsFault>
    ensures ok { IfOk result
        (λ entry. spec.entry_of (option_map (λ w. w.now) word.entry) least otherwise ≡ Some entry) }
    ensures bad { result ≡ Err BadWords
        → spec.entry_of (option_map (λ w. w.now) word.entry) least otherwise ≡ None }
{
    match word {
        Some(word) => number_in(word, least, u32::MAX),
        None => Ok(otherwise),
    }
}
