//! What a number of the generator asks for.
ghost use Rattle.std.specs.Prelude.{◌≡◌, ◌<◌};
ghost use Rattle.poad_load.specs.Schedule as schedule;

/// How a call comes, and which turns follow it.
#[derive(Clone, Copy, Drop)]
pub(crate) struct Draw {
    pub(crate) bits: u64,
}

impl Draw {
    /// Which of sixteen objects it concerns.
    pub(crate) fn object(self) -> u64
        ensures { result ≡ schedule.object self.bits }
    {
        self.bits / 4 % 16
    }

    /// Whether the administrator deactivates the object. Else a client asks it.
    pub(crate) fn is_command(self) -> bool
        ensures { result ≡ schedule.is_command self.bits }
    {
        self.bits / 64 % 16 == 0
    }

    /// Which of four clients asks.
    pub(crate) fn client(self) -> usize
        ensures { result ≡ schedule.client self.bits }
    {
        (self.bits % 4) as usize
    }

    /// Which of four workers takes turns.
    pub(crate) fn worker(self) -> u32
        ensures { result ≡ schedule.worker self.bits }
    {
        (self.bits / 1024 % 4) as u32
    }

    /// How many turns it takes.
    pub(crate) fn turns(self) -> u64
        ensures { result ≡ schedule.turns self.bits }
    {
        self.bits / 4096 % 8 + 1
    }
}
