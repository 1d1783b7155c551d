//! What the active object map has for an object.
ghost use Rattle.std.specs.Prelude.{◌≡◌};
ghost use Rattle.history_standing.specs.Changes.{standing as stands_after};
ghost use Rattle.history_standing.specs.Situations as situations;
ghost use Rattle.journal_explain.specs.Objects as objects;

use crate::selection::Selection;
use core_run::Run;
use core_turns::slot_of;
use poa_base::Path;
use poa_choose::MapFact;

/// What the map has for the object that is asked for; nothing where none is.
pub(crate) fn slot_asked(run: &Run, asked: &Selection) -> MapFact
    ensures { result ≡ objects.slot_asked asked.now run.now.config run.now.run run.now.history }
{
    match asked {
        Selection::Object { path, oid } => slot_at(run, path, oid.as_slice()),
        Selection::Arrival(_)
        | Selection::Call { .. }
        | Selection::Picture { .. }
        | Selection::All => MapFact::Free,
    }
}

/// What the map of the adapter at a path has for an id; nothing where none stands there.
fn slot_at(run: &Run, path: &Path, oid: &[u8]) -> MapFact
    ensures { result ≡ objects.slot_at run.now.config run.now.run run.now.history path.now oid.now }
{
    match run.adapter_number(path) {
        Some(adapter) => slot_in(run, adapter, oid),
        None => MapFact::Free,
    }
}

/// What the map of the adapter of this number has for an id.
fn slot_in(run: &Run, adapter: u32, oid: &[u8]) -> MapFact
    ensures { result ≡ situations.slot_of run.now.config
        (stands_after run.now.config run.now.run run.now.history).activations adapter oid.now }
{
    run.keeps_laws();
    let state = run.state();
    let slot = slot_of(run.config(), &state.standing, adapter, oid);
    slot
}
