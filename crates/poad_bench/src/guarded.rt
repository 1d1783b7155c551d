//! A core for std's `Mutex`: what a thread may ask of it stands in its type, as nothing else is known when it is taken.
ghost use Rattle.std.specs.Prelude.{◌≡◌, ◌<◌, ◌≤◌, ℕ, [], false};
ghost use Rattle.history_standing.specs.Arrivals.{connections};
ghost use Rattle.poa_history.specs.Legal.{has_left};

use crate::asking::SIZE;
use poa_base::Call;
use poa_core::{Collected, Core, StepOut};

/// A core from which no connection leaves.
#[derive(Drop)]
pub struct Guarded {
    core: Core,
    conns: u32,
    ghost entered: { conns ≤ connections core.history },
    ghost staying: { (c : ℕ) → has_left core.history c ≡ false },
}

impl Guarded {
    /// Guards a core before its first entry.
    pub fn new(core: Core) -> Guarded
        requires { core.history ≡ [] }
    {
        Guarded { core, conns: 0 }
    }

    /// A connection enters; none where it can't.
    pub fn enter(&mut self) -> Option<u32> {
        let conn = self.core.enter().ok()?;
        self.conns = conn.saturating_add(1);
        Some(conn)
    }

    /// Whether a call was taken.
    pub fn arrive(&mut self, conn: u32, call: Call) -> bool {
        conn < self.conns && self.core.arrive(conn, call, SIZE).is_ok()
    }

    /// Whether the worker below 16 made an entry.
    pub fn step(&mut self, worker: u32) -> bool
        requires { worker < 16 }
    {
        matches!(self.core.step(worker), Ok(StepOut::Did(_)))
    }

    /// Whether a reply was collected.
    pub fn collect(&mut self, conn: u32) -> bool {
        conn < self.conns && matches!(self.core.collect(conn), Collected::Reply { .. })
    }
}
