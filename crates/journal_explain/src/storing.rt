//! What is stored for an object.
ghost use Rattle.std.specs.Prelude.{◌≡◌, IfOk};
ghost use Rattle.poa_history.specs.Life.{opened};
ghost use Rattle.poa_history.specs.States.{stored as stored_for};
ghost use Rattle.journal_explain.specs.Objects as objects;

use crate::doing::Doing;
use crate::selection::Selection;
use core_run::Run;
use poa_base::{Oid, Path, State, TryClone, WantMemory};

/// What is stored for the object that is asked for; nothing where none is.
pub(crate) fn stored_asked(run: &Run, asked: &Selection) -> Result<Option<State>, WantMemory>
    ensures { IfOk result (λ state. state ≡ objects.stored_asked asked.now run.now.config run.now.run (opened run.now)
        run.now.history) }
{
    match asked {
        Selection::Object { path, oid } => stored_at(run, path, oid),
        Selection::Arrival(_)
        | Selection::Call { .. }
        | Selection::Picture { .. }
        | Selection::All => Ok(None),
    }
}

/// What is stored for an id of a path.
fn stored_at(run: &Run, path: &Path, oid: &Oid) -> Result<Option<State>, WantMemory>
    ensures { IfOk result (λ state. state ≡ stored_for run.now.config run.now.run (opened run.now) run.now.history path.now
        oid.now) }
{
    match run.store().get(path, oid) {
        Some(state) => Ok(Some(state.try_clone()?)),
        None => Ok(None),
    }
}

/// The same behind an entry that does this, where a servant was etherealized with it.
pub(crate) fn stored_by(
    run: &Run,
    asked: &Selection,
    doing: Doing,
) -> Result<Option<State>, WantMemory>
    ensures { IfOk result (λ state. state ≡ objects.stored_by doing (objects.stored_asked asked.now run.now.config run.now.run
        (opened run.now) run.now.history)) }
{
    match doing {
        Doing::Etherealizes => stored_asked(run, asked),
        _ => Ok(None),
    }
}
