//! A table of cases, played, and what came of each printed: of the commands of poad, as `run_words` does them over a source, a sink
//! and files in memory, what each wrote and how it ended; and of `serve`, over doors, links and files in memory and with
//! threads, how each link's session ended, what was written to it, what the journal of the run says, and how the run ended. Each
//! such journal is audited, and with it each link whose session ended well.
//!
//! Its lines are:
//! - `file NAME`, and below it the lines of that file, each behind two spaces; it is there in every later case;
//! - `message NAME HEX ..`, bytes with a name, for all later cases;
//! - `case WORD ..`, which begins a case; `words WORD ..`, the words of its command line, `''` being the empty one; `journal` is
//!   the file of the journal, if there is one;
//! - `dial HOST PORT`, which begins a link that `call` opens there, behind those before it;
//! - `lane`, which begins the next lane; `administrators`, which turns to their door; `link`, which begins a link there;
//! - `send WORD ..`, what the link's peer sends, or what standard input gives where no door and no dial was begun: a message's name, or
//!   hexadecimal behind `h:`; `times COUNT WORD ..`, the same so many times; `line TEXT`, a line with its LF;
//! - `fill BYTE COUNT`, so many bytes of this value, which are sent too; between cases, of the last file;
//!   `bytes WORD ..`, between cases, of the last file too;
//! - `piece SIZE ..`, how many bytes the reads give at most, in turn;
//! - `fails KIND N ..`: these calls fail, counted from 0; `N..M` is each from N on below M. `read` and `write` are of the
//!   link or of standard input and output, `next` of the door, `take` and `put` of the files, `start` of the threads; `quiet`
//!   are reads of the link that find nothing for now;
//! - `keep NAME`: the journal that the script of `replay` prints is the file of this name from then on, and what it printed isn't
//!   printed;
//! - `takes COUNT`, how many calls the run of a script takes: `replay` then plays it on such a run;
//! - `holds LENGTH`: the first worker that serves is held until so many bytes were written to a link;
//! - `due WORD ..`, where it isn't determined what is written to the link: one of the lines `due`, or a beginning of it where
//!   a fault ended the session. It is printed then that what was written is due;
//! - `loose`: it isn't determined how the session ends, and not printed;
//! - `together`: what was written to all lanes is printed together, in the order of the bytes;
//! - `entries KIND ..`: how many entries of these kinds the journal has, or of each kind where none is named;
//!   `order KIND ..`: its entries of these kinds, in their order; `store`: what is stored at the end; of a store that
//!   the run opens with each row counts as an entry `store`;
//! - `content NAME ..`: what the files hold under these names at the end, or that they hold nothing there;
//! - `run`, which does the command; `serve`, which runs the server by its words;
//! - empty lines, and lines that begin with `#`.
//!
//! What `answer` and `names` write is printed in hexadecimal, a message a line; what was written to a client or by `call`
//! to a server too, and of equal ones in succession how many.
//!
//! And a session of three calls, played on one thread and judged by how it ended: also where an allocation fails.
#![tactic(auto)]

mod asking;
mod auditing;
mod calling;
mod case;
mod command;
mod dial_case;
mod door_case;
mod doors;
mod files;
mod hold_gate;
mod host;
mod journal;
mod kinds;
mod link_case;
mod memory_connector;
mod memory_door;
mod memory_link;
mod next_link;
mod report;
mod serving;
mod session_judging;
mod session_messages;
mod session_playing;
mod signal;
mod streams;
mod table;
mod words;
mod worked_link;
mod written;

use anyhow::{Context, Result};
use calling::call;
use case::Case;
use command::command;
use files::printed_journal;
pub use report::Report;
use serving::serve;
pub use session_judging::{Judgement, judge};
pub use session_playing::{Played, TurnsBy, play_session};
use std::alloc::Global;
use std::sync::Wait;
use std::thread::Threads;
use std::time::Clock;
use table::{Ready, Table};
use text_words::parts;

/// Does the lines of a table one behind the other, and prints each case that is run.
pub fn play<R>(rt: &R, alloc: Global, text: &[u8], report: &mut Report) -> Result<()>
where
    R: Threads + Wait + Clock + Copy + Send + Sync + Drop + 'static,
{
    let lines = parts(alloc, text, b'\n')?;
    play_lines(rt, alloc, &lines, &mut Table::new(alloc), report)
}

/// Does the lines of a table that is at its beginning.
fn play_lines<R>(
    rt: &R,
    alloc: Global,
    lines: &[&[u8]],
    table: &mut Table,
    report: &mut Report,
) -> Result<()>
where
    R: Threads + Wait + Clock + Copy + Send + Sync + Drop + 'static,
{
    for (place, line) in lines.iter().enumerate() {
        let number = place.saturating_add(1);
        let ready = table.line(line).context(format_args!("line {number}"))?;
        if let Some(ready) = ready {
            play_case(rt, alloc, &ready, table, report)?;
        }
    }
    Ok(())
}

/// Runs a case over the files of a table, and prints what came of it.
fn play_case<R>(
    rt: &R,
    alloc: Global,
    ready: &Ready,
    table: &mut Table,
    report: &mut Report,
) -> Result<()>
where
    R: Threads + Wait + Clock + Copy + Send + Sync + Drop + 'static,
{
    match ready {
        Ready::Command(case) if case.is_of("call") => {
            let called = call(alloc, case)?;
            report.put_call(case, &called)
        }
        Ready::Command(case) => play_command(alloc, case, table, report),
        Ready::Server(case) => {
            let ran = serve(rt, alloc, case, table.files())?;
            report.put_server(case, &ran)
        }
    }
}

/// Does the command of a case, and prints what came of it, or keeps the journal that it printed.
fn play_command(alloc: Global, case: &Case, table: &mut Table, report: &mut Report) -> Result<()> {
    let done = command(alloc, case, table.files())?;
    match &case.kept {
        Some(name) => {
            table.hold(name, printed_journal(alloc, &done.written)?)?;
            report.put_kept(case, &done)
        }
        None => report.put_command(case, &done),
    }
}
