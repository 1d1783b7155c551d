//! What a draw asks for.

/// A number below 2^31, which says what call comes and which turns follow.
#[derive(Clone, Copy, Drop)]
pub struct Draw {
    pub number: u64,
}

impl Draw {
    /// The object `t:oK` that the call concerns.
    pub fn object(self) -> u64 {
        self.number / 4 % 16
    }

    /// Whether the administrator deactivates the object, where else a client asks it.
    pub fn deactivates(self) -> bool {
        self.number / 64 % 16 == 0
    }

    /// The client that asks.
    pub fn client(self) -> u32 {
        (self.number % 4) as u32
    }

    /// The worker that takes turns.
    pub fn worker(self) -> u32 {
        (self.number / 1024 % 4) as u32
    }

    /// How many turns it takes.
    pub fn turns(self) -> u64 {
        self.number / 4096 % 8 + 1
    }
}
