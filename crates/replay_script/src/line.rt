//! One line.
ghost use Rattle.std.specs.Prelude.{map};
ghost use Rattle.text_words.specs.WordGives.{WordGives};
ghost use Rattle.replay_script.specs.Reading.{admin_of, ask_of, behind_verb, command_of, feed_of, flood_count as flood_count_of, flood_of, line_of, verb_of, worker_of, written_of};

use crate::edges::{behind_word, is_skipped, trimmed};
use crate::fixed::Verb;
use crate::invocation::{Invocation, read_invocation};
use poa_base::{Bytes, ScriptLine};
use std::alloc::Global;
use text_words::{
    WordFault, alone, any_hex, find_word, last_name, last_number, loose_words, name, number32,
};

/// The most bytes that an administrator's line has.
const LONGEST_COMMAND: usize = 4096;

/// The most requests that one line stands for.
const LARGEST_FLOOD: u32 = 100_000;

/// The line of its bytes, which end before the LF.
pub(crate) fn read_line(alloc: Global, line: &[u8]) -> Result<ScriptLine, WordFault>
    ensures { WordGives result (line_of line.now) }
{
    if is_skipped(line) {
        return Ok(ScriptLine::Skipped);
    }
    let text = trimmed(line);
    let words = loose_words(alloc, text)?;
    written(alloc, text, words.as_slice())
}

fn written(alloc: Global, text: &[u8], words: &[&[u8]]) -> Result<ScriptLine, WordFault>
    ensures { WordGives result (written_of text.now (map (λ w. w.now) words.now)) }
{
    let [word, rest @ ..] = words else {
        return Err(WordFault::OutOfForm);
    };
    let verb = verb(word)?;
    behind(alloc, verb, text, rest)
}

fn verb(word: &[u8]) -> Result<Verb, WordFault>
    ensures { WordGives result (verb_of word.now) }
{
    find_word(
        &[
            Verb::Ask,
            Verb::Flood,
            Verb::Feed,
            Verb::End,
            Verb::Admin,
            Verb::Step,
            Verb::Run,
            Verb::Collect,
            Verb::Store,
            Verb::Journal,
        ],
        word,
    )
    .ok_or(WordFault::OutOfForm)
}

// The line of `verb`, of which `words` are the words behind it and `text` is the whole.
fn behind(alloc: Global, verb: Verb, text: &[u8], words: &[&[u8]]) -> Result<ScriptLine, WordFault>
    ensures { WordGives result (behind_verb verb text.now (map (λ w. w.now) words.now)) }
{
    match verb {
        Verb::Ask => ask(alloc, words),
        Verb::Flood => flood(alloc, words),
        Verb::Feed => feed(alloc, words),
        Verb::End => {
            let conn = last_name(alloc, words)?;
            Ok(ScriptLine::End { conn })
        }
        Verb::Admin => admin(alloc, text, words),
        Verb::Step => {
            let worker = worker(words)?;
            Ok(ScriptLine::Step { worker })
        }
        Verb::Run => {
            let worker = worker(words)?;
            Ok(ScriptLine::Run { worker })
        }
        Verb::Collect => {
            let conn = last_name(alloc, words)?;
            Ok(ScriptLine::Collect { conn })
        }
        Verb::Store => alone(ScriptLine::Store, words),
        Verb::Journal => alone(ScriptLine::Journal, words),
    }
}

fn ask(alloc: Global, words: &[&[u8]]) -> Result<ScriptLine, WordFault>
    ensures { WordGives result (ask_of (map (λ w. w.now) words.now)) }
{
    let [conn, id, rest @ ..] = words else {
        return Err(WordFault::OutOfForm);
    };
    let conn = name(alloc, conn)?;
    let id = number32(id)?;
    let Invocation {
        path,
        oid,
        operation,
        argument,
    } = read_invocation(alloc, rest)?;
    Ok(ScriptLine::Ask {
        conn,
        id,
        path,
        oid,
        operation,
        argument,
    })
}

fn flood(alloc: Global, words: &[&[u8]]) -> Result<ScriptLine, WordFault>
    ensures { WordGives result (flood_of (map (λ w. w.now) words.now)) }
{
    let [conn, count, rest @ ..] = words else {
        return Err(WordFault::OutOfForm);
    };
    let conn = name(alloc, conn)?;
    let count = flood_count(count)?;
    let Invocation {
        path,
        oid,
        operation,
        argument,
    } = read_invocation(alloc, rest)?;
    Ok(ScriptLine::Flood {
        conn,
        count,
        path,
        oid,
        operation,
        argument,
    })
}

fn flood_count(word: &[u8]) -> Result<u32, WordFault>
    ensures { WordGives result (flood_count_of word.now) }
{
    let count = number32(word)?;
    if count > LARGEST_FLOOD {
        return Err(WordFault::OutOfForm);
    }
    Ok(count)
}

fn feed(alloc: Global, words: &[&[u8]]) -> Result<ScriptLine, WordFault>
    ensures { WordGives result (feed_of (map (λ w. w.now) words.now)) }
{
    let [conn, digits] = words else {
        return Err(WordFault::OutOfForm);
    };
    let conn = name(alloc, conn)?;
    let bytes = any_hex(alloc, digits)?;
    Ok(ScriptLine::Feed { conn, bytes })
}

fn admin(alloc: Global, text: &[u8], words: &[&[u8]]) -> Result<ScriptLine, WordFault>
    ensures { WordGives result (admin_of text.now (map (λ w. w.now) words.now)) }
{
    let [conn, ..] = words else {
        return Err(WordFault::OutOfForm);
    };
    let conn = name(alloc, conn)?;
    let words = command(alloc, behind_word(behind_word(text)))?;
    Ok(ScriptLine::Admin { conn, words })
}

fn command(alloc: Global, text: &[u8]) -> Result<Bytes, WordFault>
    ensures { WordGives result (command_of text.now) }
{
    if is_skipped(text) || text.len() > LONGEST_COMMAND {
        return Err(WordFault::OutOfForm);
    }
    let bytes = Vec::from_slice(alloc, text)?;
    Ok(Bytes::from_vec(bytes))
}

fn worker(words: &[&[u8]]) -> Result<u32, WordFault>
    ensures { WordGives result (worker_of (map (λ w. w.now) words.now)) }
{
    let worker = last_number(words)?;
    if worker < 16 {
        Ok(worker)
    } else {
        Err(WordFault::OutOfForm)
    }
}
