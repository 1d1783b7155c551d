//! Where threads sleep.
ghost use Rattle.std.specs.Prelude.{◌<◌};

/// Where a thread sleeps until there may be something for it.
#[derive(Clone, Copy, Drop)]
pub enum Bell {
    /// Where a worker waits for turns.
    Worker(u32),
    /// Where the session of a connection waits for replies. Connections share them.
    Connection(u32),
}

/// How many bells workers have.
const WORKERS: u32 = 32;

/// How many bells connections share.
pub(crate) const SLOTS: u32 = 64;

impl Bell {
    /// The number of the lock's bell.
    pub(crate) fn number(self) -> u32
        ensures { result < 96 }
    {
        match self {
            Bell::Worker(worker) => worker % WORKERS,
            Bell::Connection(conn) => WORKERS + conn % SLOTS,
        }
    }
}
