//! What is run.
ghost use Rattle.std.specs.Prelude.{◌<◌};

/// What the threads of one run do: each caller asks so many calls, and makes the turns of one of the workers.
#[derive(Clone, Copy)]
pub struct Plan {
    pub callers: u32,
    /// At least one, and at most 16.
    pub workers: u32,
    pub calls: u64,
}

impl Plan {
    /// The worker whose turns a caller makes.
    pub fn worker_of(self, caller: u32) -> u32
        ensures { result < 16 }
    {
        caller % self.workers.clamp(1, 16)
    }
}
