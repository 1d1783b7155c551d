//! The settings that the words behind a command's name give.
ghost use Rattle.std.specs.Prelude.{◌≡◌, IfErr, IfOk, Err, Some, None, map, option_map, string_bytes};
ghost use Rattle.command_words.specs.declared.fault.WordsFault.TheVariants.{BadWords, WantMemory};
ghost use Rattle.command_words.specs.Settings as spec;
ghost use Rattle.command_words.specs.Settings.{seen_place, seen_setting, seen_step, settings_of};
ghost use Rattle.command_words.specs.Words.{argument};

use crate::fault::WordsFault;
use crate::optioned::Optioned;
use crate::place::Place;
use crate::setting::Setting;
use crate::words::is_argument;
use std::alloc::Global;

/// The settings of the words, in order.
pub(crate) fn read_settings<'a>(
    alloc: Global,
    command: Optioned,
    words: &'a [String],
) -> Result<Vec<Setting<'a>>, WordsFault>
    ensures ok { IfOk result (λ settings. settings_of command spec.among (map string_bytes words.now) ≡ Some (map seen_setting settings.items)) }
    ensures bad { result ≡ Err BadWords → settings_of command spec.among (map string_bytes words.now) ≡ None }
{
    let mut settings = Vec::new(alloc);
    let mut place = Place::Among;
    for word in words {
        let Some((setting, next)) = word_at(command, place, word.as_str()) else {
            return Err(WordsFault::BadWords);
        };
        note(&mut settings, setting)?;
        place = next;
    }
    match place {
        Place::Behind(_) | Place::Before(_) => Err(WordsFault::BadWords),
        Place::Among | Place::Last => Ok(settings),
    }
}

// Puts a setting, if there is one, behind the others.
fn note<'a>(settings: &mut Vec<Setting<'a>>, setting: Option<Setting<'a>>) -> Result<(), WordsFault>
    ensures ok { IfOk result
        (λ _. map seen_setting settings.new.items ≡ spec.noted (option_map seen_setting setting.entry)
        (map seen_setting settings.old.items)) }
    ensures memory { IfErr result (λ fault. fault ≡ WantMemory) }
{
    if let Some(setting) = setting {
        let Ok(()) = settings.push(setting) else {
            return Err(WordsFault::WantMemory);
        };
    }
    Ok(())
}

// The setting that a word gives, if any, and the place of the next word.
fn word_at<'a>(
    command: Optioned,
    place: Place<'a>,
    word: &'a str,
) -> Option<(Option<Setting<'a>>, Place<'a>)>
    ensures { option_map seen_step result ≡ spec.word_at command (seen_place place.entry) word.now }
{
    match place {
        Place::Among => free_word(command, word),
        Place::Behind(name) => {
            let setting = setting_of(name, word, false)?;
            Some((Some(setting), Place::Among))
        }
        Place::Before(name) => {
            let setting = setting_of(name, word, false)?;
            Some((Some(setting), Place::Behind(name)))
        }
        Place::Last => {
            let setting = setting_of("", word, true)?;
            Some((Some(setting), Place::Last))
        }
    }
}

// The same in front of the `--` that ends the options.
fn free_word<'a>(command: Optioned, word: &'a str) -> Option<(Option<Setting<'a>>, Place<'a>)>
    ensures { option_map seen_step result ≡ spec.free_word command word.now }
{
    if word == "--" {
        return Some((None, Place::Last));
    }
    match word.as_bytes() {
        [] => None,
        [b'-', ..] => {
            let (name, value) = parted(word);
            option_of(command, name, value)
        }
        _ => {
            let argument = Setting {
                name: "",
                value: word,
            };
            Some((Some(argument), Place::Among))
        }
    }
}

// The same of an option whose name the word says, and perhaps its value.
fn option_of<'a>(
    command: Optioned,
    name: &'a str,
    value: Option<&'a str>,
) -> Option<(Option<Setting<'a>>, Place<'a>)>
    ensures { option_map seen_step result ≡ spec.option_of command name.now (option_map (λ v. v.now) value.entry) }
{
    if !is_option(command, name) {
        return None;
    }
    match value {
        Some(value) => valued(command, name, value),
        None => Some(bare(command, name)),
    }
}

// The same of an option with a value in the same word.
fn valued<'a>(
    command: Optioned,
    name: &'a str,
    value: &'a str,
) -> Option<(Option<Setting<'a>>, Place<'a>)>
    ensures { option_map seen_step result ≡ spec.valued command name.now value.now }
{
    if takes_none(command, name) {
        return None;
    }
    let setting = setting_of(name, value, false)?;
    Some((Some(setting), behind_value(command, name)))
}

// The same of an option by its name alone.
fn bare<'a>(command: Optioned, name: &'a str) -> (Option<Setting<'a>>, Place<'a>)
    ensures { seen_step result ≡ spec.bare command name.now }
{
    if takes_none(command, name) {
        let given = Setting { name, value: "" };
        return (Some(given), Place::Among);
    }
    (None, behind_name(command, name))
}

// The setting of a word as a value, where `is_behind` says that the end of the options came before.
fn setting_of<'a>(name: &'a str, word: &'a str, is_behind: bool) -> Option<Setting<'a>>
    ensures { option_map seen_setting result ≡ option_map (λ value. record { name = name.now; value = value })
        (argument is_behind word.now) }
{
    if is_argument(word, is_behind) {
        Some(Setting { name, value: word })
    } else {
        None
    }
}

// The place of the word behind an option's name.
fn behind_name<'a>(command: Optioned, name: &'a str) -> Place<'a>
    ensures { seen_place result ≡ spec.behind_name command name.now }
{
    if takes_two(command, name) {
        Place::Before(name)
    } else {
        Place::Behind(name)
    }
}

// The place of the word behind an option's first value.
fn behind_value<'a>(command: Optioned, name: &'a str) -> Place<'a>
    ensures { seen_place result ≡ spec.behind_value command name.now }
{
    if takes_two(command, name) {
        Place::Behind(name)
    } else {
        Place::Among
    }
}

// Whether an option has no value.
fn takes_none(command: Optioned, name: &str) -> bool
    ensures { result ≡ spec.takes_none command name.now }
{
    match command {
        Optioned::Explain => name == "--picture",
        Optioned::Serve | Optioned::Call | Optioned::Audit => false,
    }
}

// Whether an option has two values.
fn takes_two(command: Optioned, name: &str) -> bool
    ensures { result ≡ spec.takes_two command name.now }
{
    match command {
        Optioned::Explain => matches!(name, "--call" | "--object"),
        Optioned::Serve | Optioned::Call | Optioned::Audit => false,
    }
}

fn is_option(command: Optioned, name: &str) -> bool
    ensures { result ≡ spec.is_option command name.now }
{
    match command {
        Optioned::Serve => matches!(
            name,
            "--lanes" | "--workers" | "--run" | "--state" | "--journal" | "--limit"
        ),
        Optioned::Call => matches!(name, "--as" | "--hops"),
        Optioned::Audit => matches!(name, "--limit" | "--conn" | "--in" | "--out"),
        Optioned::Explain => matches!(
            name,
            "--arrival" | "--call" | "--object" | "--picture" | "--from" | "--to" | "--limit"
        ),
    }
}

// What a word says in front of its first `=`, and behind it where it has one.
fn parted(word: &str) -> (&str, Option<&str>)
    ensures name { result.0.now ≡ spec.name_in word.now }
    ensures value { option_map (λ v. v.now) result.1 ≡ spec.value_in word.now }
{
    match word.split_once('=') {
        Some((name, value)) => (name, Some(value)),
        None => (word, None),
    }
}
