//! How a session goes on.
use poa_base::SessionEnd;

/// How a session goes on behind a round.
#[derive(Clone, Copy, Drop)]
pub(crate) enum Flow {
    /// With the next round.
    On,
    /// It may end so, once everything is paid.
    Ends(SessionEnd),
    /// It ends so at once: a reply that was given couldn't be written, or a worker gave the run up.
    Broke(SessionEnd),
}
