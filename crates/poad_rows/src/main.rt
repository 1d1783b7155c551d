//! The program of the gate that plays known cases: a table on standard input, on the commands and on `serve` (`poad_cases`
//! has its lines); behind it the scripts and the load that the programs play which compute from the definitions; and last a
//! session, with its verdict. With the word `session` it plays that alone, with `abandoned` the same session whose
//! link makes the worker's turns, and with `table` the table alone.
#![tactic(auto)]

mod session;

use anyhow::{Context, Result};
use model_runs::{compare, play_all};
use poad_cases::{Report, TurnsBy, play};
use std::alloc::Global;
use std::env;
use std::io::{Read, Write};
use std::process::ExitCode;
use std::sync::Wait;
use std::thread::Threads;
use std::time::Clock;

fn main(rt: HostRuntime) -> Result<ExitCode> {
    let alloc = rt.alloc();
    let Ok(mut words) = env::args(&rt) else {
        return Ok(ExitCode::FAILURE);
    };
    let word = words.nth(1);
    match word.as_ref().map(|word| word.as_str()) {
        Some("session") => return Ok(session::run(&rt, alloc, TurnsBy::Aid)),
        Some("abandoned") => return Ok(session::run(&rt, alloc, TurnsBy::Link)),
        Some("table") => {
            play_table(&rt, &rt, alloc)?;
            return Ok(ExitCode::SUCCESS);
        }
        _ => (),
    }
    play_table(&rt, &rt, alloc)?;
    let computed = computed(alloc)?;
    rt.stdout().write_all(&computed)?;
    Ok(session::run(&rt, alloc, TurnsBy::Aid))
}

/// Plays the table on standard input, and prints what came of each case.
fn play_table<R>(rt: &HostRuntime, threads: &R, alloc: Global) -> Result<()>
where
    R: Threads + Wait + Clock + Copy + Send + Sync + Drop + 'static,
{
    let mut text = Vec::new(alloc);
    rt.stdin().read_to_end(&mut text)?;
    let mut report = Report::new(alloc);
    let played = play(threads, alloc, &text, &mut report);
    rt.stdout().write_all(&report.text)?;
    played
}

/// What the programs print that compute from the definitions.
fn computed(alloc: Global) -> Result<Vec<u8>> {
    let mut out = Vec::new(alloc);
    play_all(alloc, &mut out)
        .ok()
        .context("a script isn't played")?;
    compare(alloc, &mut out)
        .ok()
        .context("a load isn't played")?;
    Ok(out)
}
