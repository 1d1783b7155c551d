//! The values of settings.
ghost use Rattle.std.specs.Prelude.{◌≡◌, IfErr, IfOk, Err, Some, None, [], ◌∷◌, ◌++◌, map, option_map};
ghost use Rattle.command_words.specs.declared.fault.WordsFault.TheVariants.{BadWords, WantMemory};
ghost use Rattle.command_words.specs.Settings.{only, seen_setting, values_of};
ghost use Rattle.command_words.specs.Words.{at_most_one};

use crate::fault::WordsFault;
use crate::setting::Setting;
use std::alloc::Global;

/// The only value of this name.
pub(crate) fn required<'a>(settings: &[Setting<'a>], name: &str) -> Result<&'a str, WordsFault>
    ensures ok { IfOk result (λ value. only name.now (map seen_setting settings.now) ≡ Some value.now) }
    ensures bad { result ≡ Err BadWords → only name.now (map seen_setting settings.now) ≡ None }
{
    optional(settings, name)?.ok_or(WordsFault::BadWords)
}

/// The only value of this name, if there is one.
pub(crate) fn optional<'a>(
    settings: &[Setting<'a>],
    name: &str,
) -> Result<Option<&'a str>, WordsFault>
    ensures ok { IfOk result
        (λ value. at_most_one (Some (values_of name.now (map seen_setting settings.now))) ≡ Some (option_map (λ v. v.now) value)) }
    ensures bad { result ≡ Err BadWords → at_most_one (Some (values_of name.now (map seen_setting settings.now))) ≡ None }
{
    let mut found: Option<&'a str> = None;
    for setting in settings {
        if setting.name == name {
            if found.is_some() {
                return Err(WordsFault::BadWords);
            }
            found = Some(setting.value);
        }
    }
    Ok(found)
}

/// All values of this name, in order.
pub(crate) fn values<'a>(
    alloc: Global,
    settings: &[Setting<'a>],
    name: &str,
) -> Result<Vec<&'a str>, WordsFault>
    ensures ok { IfOk result (λ found. map (λ v. v.now) found.items ≡ values_of name.now (map seen_setting settings.now)) }
    ensures memory { IfErr result (λ fault. fault ≡ WantMemory) }
{
    let mut found = Vec::new(alloc);
    for setting in settings {
        if setting.name == name {
            keep(&mut found, setting.value)?;
        }
    }
    Ok(found)
}

// Puts a value behind the others.
fn keep<'a>(found: &mut Vec<&'a str>, value: &'a str) -> Result<(), WordsFault>
    ensures ok { IfOk result (λ _. found.new.items ≡ found.old.items ++ value.entry ∷ []) }
    ensures memory { IfErr result (λ fault. fault ≡ WantMemory) }
{
    found.push(value).map_err(|_| WordsFault::WantMemory)
}
