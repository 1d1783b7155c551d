ghost use Rattle.std.specs.Prelude.{◌≡◌, ◌++◌, IfOk, OnOk, map};
ghost use Rattle.text_words.specs.WordGives.{WordGives};
ghost use Rattle.text_words.specs.Token.{tails, texts};
ghost use Rattle.poa_journal.specs.ValueWords.{exception_word};
ghost use Rattle.poa_journal.specs.Exception.{exception_name_of, exception_of, exception_tokens};

use crate::value_words::Raised;
use poa_base::minors::completion_of;
use poa_base::{ExcName, SysExc, WantMemory};
use text_words::{WordFault, Worded, find_word, minor, nothing, put_minor, put_word};

fn exception_name(word: &[u8]) -> Result<ExcName, WordFault>
    ensures value { WordGives result (exception_name_of word.now) }
    ensures text { IfOk result (λ name. word.now ≡ exception_word name) }
{
    let all = [
        Raised {
            name: ExcName::ObjectNotExist,
        },
        Raised {
            name: ExcName::Transient,
        },
        Raised {
            name: ExcName::ObjAdapter,
        },
        Raised {
            name: ExcName::BadOperation,
        },
        Raised {
            name: ExcName::Marshal,
        },
        Raised {
            name: ExcName::Unknown,
        },
    ];
    match find_word(&all, word) {
        Some(raised) => Ok(raised.name),
        None => Err(WordFault::OutOfForm),
    }
}

/// The exception of its name and minor.
pub(crate) fn read_exception(words: &[&[u8]]) -> Result<SysExc, WordFault>
    ensures value { WordGives result (exception_of (map (λ w. w.now) words.now)) }
    ensures text { IfOk result (λ exc. map (λ w. w.now) words.now ≡ texts (exception_tokens exc)) }
{
    let [first, second, rest @ ..] = words else {
        return Err(WordFault::OutOfForm);
    };
    let name = exception_name(first)?;
    let minor = minor(second)?;
    nothing(rest)?;
    Ok(SysExc {
        name,
        minor,
        done: completion_of(minor),
    })
}

/// Adds an exception's name and minor.
pub(crate) fn put_exception(out: &mut Vec<u8>, exc: SysExc) -> Result<(), WantMemory>
    ensures { OnOk result (out.new.items ≡ out.old.items ++ tails (exception_tokens exc)) }
{
    put_word(out, (Raised { name: exc.name }).word())?;
    put_minor(out, exc.minor)
}
