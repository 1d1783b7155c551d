//! The activation by which a request is served.
ghost use Rattle.std.specs.Prelude.{◌≡◌, ◌&&◌, not, is_some};
ghost use Rattle.journal_explain.specs.Serving as serving;

use crate::activity::is_serving;
use crate::event::Event;
use core_run::Run;
use poa_base::{Entry, Verdict};

/// The activation that an entry has a request served by, as it stands.
pub(crate) fn served_with(entry: &Entry) -> Option<u32>
    ensures { result ≡ serving.served_with entry.now }
{
    match entry {
        Entry::Admit { verdict, .. } => serving_by(verdict),
        _ => None,
    }
}

fn serving_by(verdict: &Verdict) -> Option<u32>
    ensures { result ≡ serving.serving_by verdict.now }
{
    match verdict {
        Verdict::Serve(number) => Some(*number),
        _ => None,
    }
}

/// The activation that serves the call of this number behind an entry, where this one did before.
pub(crate) fn server_with(entry: &Entry, arrival: u64, before: Option<u32>) -> Option<u32>
    ensures { result ≡ serving.server_with entry.now arrival before }
{
    match entry {
        Entry::Admit {
            arrival: admitted,
            verdict,
            ..
        } if *admitted == arrival => server_of(verdict),
        _ => before,
    }
}

/// The activation that a verdict names.
fn server_of(verdict: &Verdict) -> Option<u32>
    ensures { result ≡ serving.server_of verdict.now }
{
    match verdict {
        Verdict::Serve(number) | Verdict::Incarnate(number) => Some(*number),
        _ => None,
    }
}

/// Whether an activation is active in a run.
pub(crate) fn serves(run: &Run, server: Option<u32>) -> bool
    ensures { result ≡ serving.serves run.now.config run.now.run run.now.history server }
{
    match server {
        Some(number) => is_serving(run, number),
        None => false,
    }
}

/// Whether an activation ends with an entry, by whether it was active before it and the run behind it.
pub(crate) fn ends(run: &Run, server: Option<u32>, active: bool) -> bool
    ensures { result ≡ is_some (serving.ended_where server active
        (serving.serves run.now.config run.now.run run.now.history server)) }
{
    match server {
        Some(number) => has_ended(run, number, active),
        None => false,
    }
}

/// That an activation ends with an entry, by whether it was active before it and the run behind it.
pub(crate) fn ended(run: &Run, server: Option<u32>, active: bool) -> Option<Event>
    ensures { result ≡ serving.ended_where server active
        (serving.serves run.now.config run.now.run run.now.history server) }
{
    match server {
        Some(number) if has_ended(run, number, active) => Some(Event::Ends(number)),
        _ => None,
    }
}

/// Whether an activation isn't active in a run, where it was before.
fn has_ended(run: &Run, number: u32, active: bool) -> bool
    ensures { result ≡ active && not
        (serving.is_serving run.now.config run.now.run run.now.history number) }
{
    active && !is_serving(run, number)
}
