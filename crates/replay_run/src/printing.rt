//! The lines that are printed.
ghost use Rattle.std.specs.Prelude.{◌≡◌, ◌++◌, OnOk};
ghost use Rattle.replay_run.specs.Lines.{entry_line, idle_line, limit_line, bad_line, answer_line, bytes_line};

use crate::mark::Mark;
use admin_line::put_answer;
use poa_base::{Answer, Entry, WantMemory};
use poa_journal::put_entry;
use text_words::{Worded, put_number, put_octets, put_word};

/// Prints an entry as a journal has it.
pub fn print_entry(out: &mut Vec<u8>, entry: &Entry) -> Result<(), WantMemory>
    ensures { OnOk result (out.new.items ≡ out.old.items ++ entry_line entry.now) }
{
    put_entry(out, entry)?;
    out.push(b'\n')?;
    Ok(())
}

/// Prints that a worker has nothing to do.
pub fn print_idle(out: &mut Vec<u8>, worker: u32) -> Result<(), WantMemory>
    ensures { OnOk result (out.new.items ≡ out.old.items ++ idle_line worker) }
{
    out.extend_from_slice(Mark::Idle.word())?;
    put_number(out, u64::from(worker))?;
    out.push(b'\n')?;
    Ok(())
}

/// Prints that a call of a connection, or the connection, was refused for the limits of the run.
pub fn print_limit(out: &mut Vec<u8>, name: &[u8]) -> Result<(), WantMemory>
    ensures { OnOk result (out.new.items ≡ out.old.items ++ limit_line name.now) }
{
    out.extend_from_slice(Mark::Limit.word())?;
    put_word(out, name)?;
    out.push(b'\n')?;
    Ok(())
}

/// Prints the place behind which no byte of a connection is read.
pub fn print_bad(out: &mut Vec<u8>, name: &[u8], at: u64) -> Result<(), WantMemory>
    ensures { OnOk result (out.new.items ≡ out.old.items ++ bad_line name.now at) }
{
    out.extend_from_slice(Mark::Bad.word())?;
    put_word(out, name)?;
    put_number(out, at)?;
    out.push(b'\n')?;
    Ok(())
}

/// Prints the answer to an administrator's line of this number.
pub fn print_answer(
    out: &mut Vec<u8>,
    name: &[u8],
    number: u64,
    answer: &Answer,
) -> Result<(), WantMemory>
    ensures { OnOk result
        (out.new.items ≡ out.old.items ++ answer_line name.now number answer.now) }
{
    out.extend_from_slice(Mark::Answer.word())?;
    put_word(out, name)?;
    put_number(out, number)?;
    put_answer(out, answer)?;
    out.push(b'\n')?;
    Ok(())
}

/// Prints the bytes of a reply.
pub fn print_bytes(out: &mut Vec<u8>, name: &[u8], bytes: &[u8]) -> Result<(), WantMemory>
    ensures { OnOk result (out.new.items ≡ out.old.items ++ bytes_line name.now bytes.now) }
{
    out.extend_from_slice(Mark::Reply.word())?;
    put_word(out, name)?;
    put_octets(out, b"", bytes)?;
    out.push(b'\n')?;
    Ok(())
}
