//! What comes of `serve`.
ghost use Rattle.std.specs.Prelude.{◌≡◌, None};

use poa_core::Core;
use poad_files::Status;
use serve_run::Doors;

/// What comes of `serve`.
#[derive(Drop)]
pub struct Served<A> {
    pub status: Status,
    /// The doors that were handed in.
    pub doors: Doors<A>,
    /// The adapter with its journal. None where the run didn't begin.
    pub core: Option<Core>,
}

impl<A> Served<A> {
    /// Nothing was begun, for this reason.
    pub(crate) fn refused(status: Status, doors: Doors<A>) -> Self
        ensures { result ≡ record { status = status; doors = doors; core = None } }
    {
        Served {
            status,
            doors,
            core: None,
        }
    }
}
