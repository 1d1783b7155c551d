//! The store and the journal of a run, put into files.
ghost use Rattle.std.specs.Prelude.{◌≡◌, Ok, option_map};
ghost use Rattle.command_words.specs.Serving.{AreApart, seen_serve};
ghost use Rattle.outside.specs.Cause.{HasCause};
ghost use Rattle.outside.specs.declared.keeping.Put.TheVariants.{Done, Failed};
ghost use Rattle.outside.specs.Told.{IfTold};
ghost use Rattle.poad_cmd.specs.Putting as spec;
ghost use Rattle.poad_cmd.specs.Putting.{Keeps, PutsFiles, PutsJournal, PutsState};

use command_words::ServeWords;
use outside::{Files, Put};
use poa_base::WantMemory;
use poa_core::Core;
use poa_journal::{print_parts, print_store};
use std::alloc::Global;

/// Puts the texts of the store and of the journal under the names that the words give, the second whatever came of the
/// first.
pub(crate) fn put_files<F: Files>(
    alloc: Global,
    words: &ServeWords<'_>,
    core: &Core,
    files: &mut F,
) -> Result<Put, WantMemory>
    requires { AreApart (seen_serve words.now).state (seen_serve words.now).journal }
    ensures puts { PutsFiles (seen_serve words.now) core.now result (F.contents files.old) (F.contents files.new) }
    ensures kept { result ≡ Ok Done → IfTold (F.contents files.old) (F.contents files.new) (Keeps (seen_serve words.now) core.now) }
    ensures failed { HasCause (F.put_faults files.old) (F.put_faults files.new) (result ≡ Ok Failed) }
    ensures done { result ≡ Ok Done → F.put_faults files.new ≡ F.put_faults files.old }
    ensures takes { F.take_faults files.new ≡ F.take_faults files.old }
    ensures absents { F.absents files.new ≡ F.absents files.old }
    ensures long_ones { F.long_ones files.new ≡ F.long_ones files.old }
{
    let state = put_state(alloc, words.state, core, files);
    let journal = put_journal(alloc, words.journal, core, files);
    both(state, journal)
}

// What came of two puts: want of memory where one met it, and else a fault where one failed.
fn both(first: Result<Put, WantMemory>, second: Result<Put, WantMemory>) -> Result<Put, WantMemory>
    ensures { result ≡ spec.both first second }
{
    match (first?, second?) {
        (Put::Done, Put::Done) => Ok(Put::Done),
        _ => Ok(Put::Failed),
    }
}

// Puts the text of the store under the name, if there is one.
fn put_state<F: Files>(
    alloc: Global,
    name: Option<&str>,
    core: &Core,
    files: &mut F,
) -> Result<Put, WantMemory>
    ensures puts { PutsState (option_map (λ n. n.now) name.entry) core.now result (F.contents files.old) (F.contents files.new) }
    ensures failed { HasCause (F.put_faults files.old) (F.put_faults files.new) (result ≡ Ok Failed) }
    ensures done { result ≡ Ok Done → F.put_faults files.new ≡ F.put_faults files.old }
    ensures takes { F.take_faults files.new ≡ F.take_faults files.old }
    ensures absents { F.absents files.new ≡ F.absents files.old }
    ensures long_ones { F.long_ones files.new ≡ F.long_ones files.old }
{
    match name {
        Some(name) => {
            let rows = print_store(alloc, core.store())?;
            Ok(files.put(name, rows.as_slice()))
        }
        None => Ok(Put::Done),
    }
}

// Puts the text of the journal under the name, if there is one.
fn put_journal<F: Files>(
    alloc: Global,
    name: Option<&str>,
    core: &Core,
    files: &mut F,
) -> Result<Put, WantMemory>
    ensures puts { PutsJournal (option_map (λ n. n.now) name.entry) core.now result (F.contents files.old) (F.contents files.new) }
    ensures failed { HasCause (F.put_faults files.old) (F.put_faults files.new) (result ≡ Ok Failed) }
    ensures done { result ≡ Ok Done → F.put_faults files.new ≡ F.put_faults files.old }
    ensures takes { F.take_faults files.new ≡ F.take_faults files.old }
    ensures absents { F.absents files.new ≡ F.absents files.old }
    ensures long_ones { F.long_ones files.new ≡ F.long_ones files.old }
{
    match name {
        Some(name) => {
            let text = print_parts(alloc, core.run(), core.opening(), core.entries())?;
            Ok(files.put(name, text.as_slice()))
        }
        None => Ok(Put::Done),
    }
}
