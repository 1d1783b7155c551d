//! Whole lines.
ghost use Rattle.std.specs.Prelude.{◌≡◌, ◌∷◌, ◌^◌, IfOk};
ghost use Rattle.admin_line.specs.Answer.{answer_tokens};
ghost use Rattle.text_words.specs.Token.{AllFit, Token, spelled};
ghost use Rattle.admin_line.specs.Command.{IsCommand, command_tokens};
ghost use Rattle.admin_line.specs.Reading.{command_of_line};

use crate::answer::put_answer;
use crate::place::Wrong;
use crate::reading::{Source, read_words};
use crate::writing::command_bytes;
use itoa::Buffer;
use poa_base::{Answer, Bytes, Command, WantMemory};
use std::alloc::Global;
use text_words::loose_words;

/// The command of a line, given without its LF and the CR that is dropped before it.
///
/// Any number of spaces parts the words and may stand at the ends. A line that is no command gives `Bad` with the
/// number of its first word that is wrong, missing or too much, from 1 on.
pub fn read_line(alloc: Global, bytes: &[u8]) -> Result<Command, WantMemory>
    ensures { IfOk result (λ command. command ≡ command_of_line bytes.now) }
{
    let words = loose_words(alloc, bytes)?;
    match read_words(alloc, Source::Link, words.as_slice()) {
        Ok(command) => Ok(command),
        Err(Wrong::Word(word)) => Ok(Command::Bad { word }),
        Err(Wrong::WantMemory) => Err(WantMemory),
    }
}

/// The line of a command, without its LF: single spaces, and object ids as `h:` and hexadecimal.
pub fn write_line(alloc: Global, command: &Command) -> Result<Bytes, WantMemory>
    requires { IsCommand command.now }
    ensures text { IfOk result (λ line. line ≡ spelled (command_tokens command.now)) }
    ensures back { IfOk result (λ line. AllFit (command_tokens command.now) → command_of_line line ≡ command.now) }
{
    let out = command_bytes(alloc, command)?;
    Ok(Bytes::from_vec(out))
}

/// The words of a command as a journal has them: those of its line, or `bad K` for a line that was no command.
pub fn command_text(alloc: Global, command: &Command) -> Result<Bytes, WantMemory>
    ensures { IfOk result (λ text. text ≡ spelled (command_tokens command.now)) }
{
    let out = command_bytes(alloc, command)?;
    Ok(Bytes::from_vec(out))
}

/// The line that answers line `number` of a link, without its LF.
pub fn write_answer(alloc: Global, number: u64, answer: &Answer) -> Result<Bytes, WantMemory>
    ensures { IfOk result (λ line. line ≡ spelled (Token.number (2 ^ 64) number ∷ answer_tokens answer.now)) }
{
    let mut buffer = Buffer::new();
    let mut out = Vec::from_slice(alloc, buffer.format(number).as_bytes())?;
    put_answer(&mut out, answer)?;
    Ok(Bytes::from_vec(out))
}
