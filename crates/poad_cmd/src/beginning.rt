//! What a run is made of: its words, and a core.
ghost use Rattle.std.specs.Prelude.{◌≡◌, Err, IfErr, IfOk, option_map};
ghost use Rattle.outside.specs.Cause.{HasCause};
ghost use Rattle.outside.specs.Told.{IfTold};
ghost use Rattle.command_words.specs.Serving.{serve_in};
ghost use Rattle.poa_history.specs.Life.{begun};
ghost use Rattle.poa_policy.specs.Kept.{KeepsRules};
ghost use Rattle.poad_files.specs.Taking.{HoldsStill};
ghost use Rattle.poad_cmd.specs.Beginning.{Begins, BeginsBy, IsAsked, IsInRange, OpensWith};

use command_words::{ServeWords, WordsFault, serve_words};
use outside::Files;
use poa_base::{Config, Store};
use poa_core::Core;
use poad_files::{Status, take_config, take_state};
use std::alloc::Global;

/// What a run is made of.
#[derive(Drop)]
pub(crate) struct Beginning<'a> {
    pub words: ServeWords<'a>,
    /// By the configuration and the state that the words name. Nothing has happened in it.
    pub core: Core,
}

/// What a run by the words is made of, or the status of a run that can't begin.
pub(crate) fn begin<'a, F: Files>(
    alloc: Global,
    words: &'a [String],
    files: &mut F,
) -> Result<Beginning<'a>, Status>
    ensures begins { Begins (serve_in words.now) result (F.contents files.old) (F.contents files.new) }
    ensures ranges { IfOk result (λ it. IsInRange it.words) }
    ensures contents { IfTold (F.contents files.old) (F.contents files.new) HoldsStill }
    ensures take_fault { HasCause (F.take_faults files.old) (F.take_faults files.new) (result ≡ Err Status.FileFault) }
    ensures no_file { HasCause (F.absents files.old) (F.absents files.new) (result ≡ Err Status.NoFile) }
    ensures too_long { HasCause (F.long_ones files.old) (F.long_ones files.new) (result ≡ Err Status.FileTooLong) }
    ensures puts { F.put_faults files.new ≡ F.put_faults files.old }
{
    match asked(alloc, words) {
        Ok(words) => begin_by(alloc, words, files),
        Err(status) => Err(status),
    }
}

// What the words ask for.
fn asked<'a>(alloc: Global, words: &'a [String]) -> Result<ServeWords<'a>, Status>
    ensures asked { IsAsked (serve_in words.now) result }
    ensures ranges { IfOk result IsInRange }
{
    match serve_words(alloc, words) {
        Ok(serve) => Ok(serve),
        Err(WordsFault::BadWords) => Err(Status::BadWords),
        Err(WordsFault::WantMemory) => Err(Status::WantMemory),
    }
}

// The same of words that ask for a run.
fn begin_by<'a, F: Files>(
    alloc: Global,
    words: ServeWords<'a>,
    files: &mut F,
) -> Result<Beginning<'a>, Status>
    requires { IsInRange words }
    ensures begins { BeginsBy words.entry result (F.contents files.old) (F.contents files.new) }
    ensures ranges { IfOk result (λ it. IsInRange it.words) }
    ensures contents { IfTold (F.contents files.old) (F.contents files.new) HoldsStill }
    ensures take_fault { HasCause (F.take_faults files.old) (F.take_faults files.new) (result ≡ Err Status.FileFault) }
    ensures no_file { HasCause (F.absents files.old) (F.absents files.new) (result ≡ Err Status.NoFile) }
    ensures too_long { HasCause (F.long_ones files.old) (F.long_ones files.new) (result ≡ Err Status.FileTooLong) }
    ensures puts { F.put_faults files.new ≡ F.put_faults files.old }
{
    let config = match take_config(alloc, words.file, files) {
        Ok(config) => config,
        Err(status) => return Err(status),
    };
    match opening(alloc, words.state, files) {
        Ok(store) => begin_with(alloc, words, config, store),
        Err(status) => Err(status),
    }
}

// The store that a run opens with: the one in the file of this name, or the empty one where none is named.
fn opening<F: Files>(alloc: Global, name: Option<&str>, files: &mut F) -> Result<Store, Status>
    ensures opens { OpensWith (option_map (λ n. n.now) name.entry) result (F.contents files.old) (F.contents files.new) }
    ensures contents { IfTold (F.contents files.old) (F.contents files.new) HoldsStill }
    ensures file_fault { HasCause (F.take_faults files.old) (F.take_faults files.new) (result ≡ Err Status.FileFault) }
    ensures no_file { HasCause (F.absents files.old) (F.absents files.new) (result ≡ Err Status.NoFile) }
    ensures too_long { HasCause (F.long_ones files.old) (F.long_ones files.new) (result ≡ Err Status.FileTooLong) }
    ensures puts { F.put_faults files.new ≡ F.put_faults files.old }
{
    match name {
        Some(name) => take_state(alloc, name, files),
        None => Ok(Store::new(alloc)),
    }
}

// What a run by the words, the configuration and the store is made of.
fn begin_with<'a>(
    alloc: Global,
    words: ServeWords<'a>,
    config: Config,
    store: Store,
) -> Result<Beginning<'a>, Status>
    requires ranges { IsInRange words }
    requires rules { KeepsRules config }
    ensures ranges { IfOk result (λ it. IsInRange it.words) }
    ensures words { IfOk result (λ it. it.words ≡ words.entry) }
    ensures core { IfOk result (λ it. it.core ≡ begun config words.entry.run words.entry.limit store) }
    ensures memory { IfErr result (λ status. status ≡ Status.WantMemory) }
{
    match Core::new(alloc, config, words.run, store, u64::from(words.limit)) {
        Ok(core) => Ok(Beginning { words, core }),
        Err(_) => Err(Status::WantMemory),
    }
}
