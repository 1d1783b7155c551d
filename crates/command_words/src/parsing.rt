//! What clap reads of the words behind a command's name.
ghost use Rattle.std.specs.Prelude.{◌≡◌, IfOk, Err, Some, None, false, true, option_map, map, string_bytes};
ghost use Rattle.clap.specs.Words.{app_of, is_simple_and_free};
ghost use Rattle.command_words.specs.declared.fault.WordsFault.TheVariants.{BadWords};
ghost use Rattle.command_words.specs.Apps as apps;
ghost use Rattle.command_words.specs.Words as spec;
ghost use Rattle.command_words.specs.Words.{arguments_of};

use crate::fault::WordsFault;
use crate::words::are_arguments;
use clap::error::ErrorKind;
use clap::{Arg, ArgMatches};
use std::alloc::{AllocError, Global};

// The argument of the command of this name, which takes one.
pub(crate) fn required_argument<'a>(
    alloc: Global,
    name: &'a str,
    words: &'a [String],
) -> Result<&'a str, WordsFault>
    ensures ok { IfOk result (λ argument. spec.exactly_one (arguments_of false (map string_bytes words.now)) ≡ Some argument.now) }
    ensures bad { result ≡ Err BadWords → spec.exactly_one (arguments_of false (map string_bytes words.now)) ≡ None }
{
    one_argument(alloc, name, true, words)?.ok_or(WordsFault::BadWords)
}

// The argument of the command of this name, which takes one, if need be.
pub(crate) fn one_argument<'a>(
    alloc: Global,
    name: &'a str,
    is_required: bool,
    words: &'a [String],
) -> Result<Option<&'a str>, WordsFault>
    ensures ok { IfOk result
        (λ argument. spec.single is_required (arguments_of false (map string_bytes words.now)) ≡ Some (option_map (λ a. a.now) argument)) }
    ensures bad { result ≡ Err BadWords → spec.single is_required (arguments_of false (map string_bytes words.now)) ≡ None }
{
    let Ok(app) = app_of_one(alloc, name, is_required) else {
        return Err(WordsFault::WantMemory);
    };
    let matches = matches_in(app, words)?;
    Ok(matches.get_str("first"))
}

// The arguments of the command of this name, which takes two.
pub(crate) fn two_arguments<'a>(
    alloc: Global,
    name: &'a str,
    words: &'a [String],
) -> Result<(&'a str, &'a str), WordsFault>
    ensures ok { IfOk result
        (λ arguments. spec.exactly_two (arguments_of false (map string_bytes words.now)) ≡ Some (arguments.0.now, arguments.1.now)) }
    ensures bad { result ≡ Err BadWords → spec.exactly_two (arguments_of false (map string_bytes words.now)) ≡ None }
{
    let Ok(app) = app_of_two(alloc, name) else {
        return Err(WordsFault::WantMemory);
    };
    let matches = matches_in(app, words)?;
    let first = matches.get_str("first").ok_or(WordsFault::BadWords)?;
    let second = matches.get_str("second").ok_or(WordsFault::BadWords)?;
    Ok((first, second))
}

fn app_of_two(alloc: Global, name: &str) -> Result<clap::Command<'_>, AllocError>
    ensures { IfOk result (λ app. app_of app ≡ apps.of_two name.now) }
{
    let app = app_of_one(alloc, name, true)?;
    app.arg(Arg::new(alloc, "second").required(true))
}

fn app_of_one(alloc: Global, name: &str, is_required: bool) -> Result<clap::Command<'_>, AllocError>
    ensures { IfOk result (λ app. app_of app ≡ apps.of_one name.now is_required) }
{
    let first = Arg::new(alloc, "first").required(is_required);
    bare_app(alloc, name).arg(first)
}

fn bare_app(alloc: Global, name: &str) -> clap::Command<'_>
    ensures { app_of result ≡ apps.bare name.now }
{
    clap::Command::new(alloc, name)
        .no_binary_name(true)
        .disable_help_flag(true)
        .disable_version_flag(true)
}

// What clap finds in the words, where each of them may be an argument.
fn matches_in<'a>(app: clap::Command<'a>, words: &'a [String]) -> Result<ArgMatches<'a>, WordsFault>
    ensures ok { IfOk result
        (λ m. is_simple_and_free (app_of app.entry) ≡ true → apps.Takes (app_of app.entry) (map string_bytes words.now) m) }
    ensures bad { result ≡ Err BadWords → is_simple_and_free (app_of app.entry) ≡ true
        → apps.Refuses (app_of app.entry) (map string_bytes words.now) }
{
    if !are_arguments(words) {
        return Err(WordsFault::BadWords);
    }
    match app.try_get_matches_from(words) {
        Ok(matches) => Ok(matches),
        Err(error) => Err(fault_of_kind(error.kind())),
    }
}

fn fault_of_kind(kind: ErrorKind) -> WordsFault
    ensures { result ≡ BadWords → kind ≡ ErrorKind.OutOfMemory → ⊥ }
{
    match kind {
        ErrorKind::OutOfMemory => WordsFault::WantMemory,
        _ => WordsFault::BadWords,
    }
}
