//! Which words may be arguments.
ghost use Rattle.std.specs.Prelude.{◌≡◌, false, is_some, map, string_bytes, Err, None, Some, OnOk};
ghost use Rattle.command_words.specs.declared.fault.WordsFault.TheVariants.{BadWords};
ghost use Rattle.command_words.specs.Words as spec;

use crate::fault::WordsFault;

// Whether each word is an argument or the `--` that ends what may be options.
pub(crate) fn are_arguments(words: &[String]) -> bool
    ensures { result ≡ is_some (spec.arguments_of false (map string_bytes words.now)) }
{
    let mut marked = false;
    for word in words {
        if !marked && word.as_str() == "--" {
            marked = true;
        } else if !is_argument(word.as_str(), marked) {
            return false;
        }
    }
    true
}

// Makes sure that the words are no argument: there are none, or only the `--` that ends what may be options.
pub(crate) fn no_argument(words: &[String]) -> Result<(), WordsFault>
    ensures ok { OnOk result (spec.names_of (spec.arguments_of false (map string_bytes words.now)) ≡ Some spec.names) }
    ensures bad { result ≡ Err BadWords → spec.names_of (spec.arguments_of false (map string_bytes words.now)) ≡ None }
{
    match words {
        [] => Ok(()),
        [word] => {
            if word.as_str() == "--" {
                Ok(())
            } else {
                Err(WordsFault::BadWords)
            }
        }
        _ => Err(WordsFault::BadWords),
    }
}

// Whether the word is an argument, where `marked` says that `--` came before.
pub(crate) fn is_argument(word: &str, marked: bool) -> bool
    ensures { result ≡ is_some (spec.argument marked word.now) }
{
    match word.as_bytes() {
        [] => false,
        [first, ..] => marked || *first != b'-',
    }
}
