//! Whole scripts.
ghost use Rattle.std.specs.Prelude.{◌≡◌, ◌++◌, ◌<◌, ◌+◌, ◌^◌, IfOk, OnOk, length};
ghost use Rattle.replay_script.specs.Connections.{entered_by, entered_by_line, role_of as the_role_of};
ghost use Rattle.replay_script.specs.Reading.{line_of};
ghost use Rattle.replay_script.specs.Traffic.{noted_by};
ghost use Rattle.replay_script.specs.Whole.{ScriptReads, asks, line_at as the_line_at, numbered, one_or_none, script_of, step_of as the_step_of, steps_of};

use crate::connections::Connections;
use crate::fault::ScriptFault;
use crate::line::read_line;
use crate::step::{Request, ScriptStep, Step};
use poa_base::{Items, Name, ScriptLine, WantMemory};
use std::alloc::Global;
use text_words::{WordFault, next_line};

/// A script: its steps in their order, and the connections that they speak of, in the order of their first lines.
#[derive(Drop)]
pub struct Script {
    pub connections: Items<Name>,
    pub steps: Items<ScriptStep>,
}

/// The script of a text, whose last LF may be missing. Empty lines and lines behind `#` are no steps, and a `flood` is as
/// many `ask` lines as it says.
///
/// `BadLine` has the number of the first line that is outside the grammar, also by what the lines before it say: a
/// connection with `admin` lines has no `ask`, `flood` or `feed`, and the other way; behind its `end` it has only
/// `collect`.
pub fn read_script(alloc: Global, bytes: &[u8]) -> Result<Script, ScriptFault>
    ensures value { ScriptReads result (script_of bytes.now) }
{
    read_lines(alloc, bytes)
}

fn read_lines(alloc: Global, text: &[u8]) -> Result<Script, ScriptFault>
    requires { 1 + length text.now < 2 ^ 64 }
    ensures { ScriptReads result (script_of text.now) }
{
    let mut connections = Connections::new(alloc);
    let mut steps = Vec::new(alloc);
    let mut number = 1;
    let mut rest = text;
    while let Some((front, after)) = next_line(rest) {
        let line = line_at(alloc, number, front)?;
        if !connections.allow(&line) {
            return Err(ScriptFault::BadLine { line: number });
        }
        enter_line(&mut connections, &mut steps, number, line)?;
        number += 1;
        rest = after;
    }
    Ok(Script {
        connections: connections.into_names(),
        steps: Items::from_vec(steps),
    })
}

fn line_at(alloc: Global, number: u64, bytes: &[u8]) -> Result<ScriptLine, ScriptFault>
    ensures { ScriptReads result (the_line_at number (line_of bytes.now)) }
{
    match read_line(alloc, bytes) {
        Ok(line) => Ok(line),
        Err(WordFault::OutOfForm) => Err(ScriptFault::BadLine { line: number }),
        Err(WordFault::WantMemory) => Err(ScriptFault::WantMemory),
    }
}

// Takes in a line that may stand behind those so far.
fn enter_line(
    connections: &mut Connections,
    steps: &mut Vec<ScriptStep>,
    number: u64,
    line: ScriptLine,
) -> Result<(), WantMemory>
    ensures rows { OnOk result
        (connections.new.rows.items ≡ noted_by (the_role_of line) connections.old.rows.items) }
    ensures names { OnOk result (connections.new.names.items
        ≡ entered_by (entered_by_line line) connections.old.names.items) }
    ensures steps { OnOk result (steps.new.items ≡ steps.old.items
        ++ numbered number (steps_of connections.new.names.items line)) }
{
    connections.enter(&line)?;
    put_steps(connections, steps, number, line)
}

fn put_steps(
    connections: &Connections,
    steps: &mut Vec<ScriptStep>,
    number: u64,
    line: ScriptLine,
) -> Result<(), WantMemory>
    ensures { OnOk result (steps.new.items ≡ steps.old.items
        ++ numbered number (steps_of connections.now.names.items line)) }
{
    match line {
        ScriptLine::Flood {
            conn,
            count,
            path,
            oid,
            operation,
            argument,
        } => {
            let request = Request {
                connection: connections.place(&conn),
                path,
                oid,
                operation,
                argument,
            };
            put_asks(steps, number, &request, count)
        }
        line => put_step(steps, number, step_of(connections, line)),
    }
}

// The requests of a flood.
fn put_asks(
    steps: &mut Vec<ScriptStep>,
    line: u64,
    request: &Request,
    count: u32,
) -> Result<(), WantMemory>
    ensures { OnOk result
        (steps.new.items ≡ steps.old.items ++ numbered line (asks request.now count)) }
{
    for before in 0..count {
        let step = request.clone()?.ask(before + 1);
        steps.push(ScriptStep { line, step })?;
    }
    Ok(())
}

fn step_of(connections: &Connections, line: ScriptLine) -> Option<Step>
    ensures { result ≡ the_step_of connections.now.names.items line }
{
    match line {
        ScriptLine::Skipped | ScriptLine::Flood { .. } => None,
        ScriptLine::Ask {
            conn,
            id,
            path,
            oid,
            operation,
            argument,
        } => Some(Step::Ask {
            connection: connections.place(&conn),
            id,
            path,
            oid,
            operation,
            argument,
        }),
        ScriptLine::Feed { conn, bytes } => Some(Step::Feed {
            connection: connections.place(&conn),
            bytes,
        }),
        ScriptLine::End { conn } => Some(Step::End {
            connection: connections.place(&conn),
        }),
        ScriptLine::Admin { conn, words } => Some(Step::Admin {
            connection: connections.place(&conn),
            words,
        }),
        ScriptLine::Step { worker } => Some(Step::Step { worker }),
        ScriptLine::Run { worker } => Some(Step::Run { worker }),
        ScriptLine::Collect { conn } => Some(Step::Collect {
            connection: connections.place(&conn),
        }),
        ScriptLine::Store => Some(Step::Store),
        ScriptLine::Journal => Some(Step::Journal),
    }
}

fn put_step(steps: &mut Vec<ScriptStep>, line: u64, step: Option<Step>) -> Result<(), WantMemory>
    ensures { OnOk result (steps.new.items ≡ steps.old.items ++ numbered line (one_or_none step)) }
{
    let Some(step) = step else {
        return Ok(());
    };
    steps.push(ScriptStep { line, step })?;
    Ok(())
}
