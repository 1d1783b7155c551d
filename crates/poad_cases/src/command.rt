//! A command is done.
ghost use Rattle.std.specs.Prelude.{IfOk};
ghost use Rattle.poa_policy.specs.Kept.{KeepsRules};

use crate::case::Case;
use crate::files::File;
use crate::host::{MemHost, host_of};
use anyhow::{Context, Result, bail, ensure};
use conf_toml::read_config;
use poa_base::Config;
use poa_base::limits::CALLS;
use poad_cmd::run_words;
use poad_files::Status;
use replay_run::{Played, replay};
use replay_script::read_script;
use std::alloc::Global;

/// What a command wrote and how it ended.
#[derive(Drop)]
pub struct Done {
    pub status: Status,
    pub written: Vec<u8>,
}

/// Does the command of a case over these files.
pub fn command(alloc: Global, case: &Case, files: &[File]) -> Result<Done> {
    if let Some(limit) = case.limit {
        return play(alloc, &case.words, files, limit);
    }
    run(alloc, &case.words, &mut host_of(alloc, case, files)?)
}

/// What the command of these words wrote to a host, and how it ended.
fn run(alloc: Global, words: &[String], host: &mut MemHost) -> Result<Done> {
    let status = run_words(alloc, words, host);
    let written = Vec::from_slice(alloc, host.sink.held())?;
    Ok(Done { status, written })
}

/// What `replay CONFIG SCRIPT` does on a run that takes so many calls.
fn play(alloc: Global, words: &[String], files: &[File], limit: u64) -> Result<Done> {
    let [_, config, script] = words else {
        bail!("no replay of a script");
    };
    ensure!(1 <= limit && limit <= CALLS, "no limit of a run");
    let script = read_script(alloc, content(files, script)?)
        .ok()
        .context("no script")?;
    let config = config_of(alloc, content(files, config)?)?;
    let played = replay(alloc, config, limit, &script)?;
    Ok(Done {
        status: status_of(&played),
        written: played.printed.into_vec(),
    })
}

/// What is under a name.
fn content<'a>(files: &'a [File], name: &str) -> Result<&'a [u8]> {
    let found = files.iter().rev().find(|file| file.0.as_str() == name);
    let (_, content) = found.context("no such file")?;
    Ok(content.as_slice())
}

/// The configuration of a text.
fn config_of(alloc: Global, text: &[u8]) -> Result<Config>
    ensures { IfOk result KeepsRules }
{
    read_config(alloc, text).ok().context("no configuration")
}

/// How a script ends.
fn status_of(played: &Played) -> Status {
    match (&played.full, played.held) {
        (Some(full), _) => Status::Limit {
            arrivals: full.arrivals,
            bytes: full.bytes,
        },
        (None, 0) => Status::Ok,
        (None, count) => Status::Held { count },
    }
}
