//! What a thread does.

/// What a thread does.
#[derive(Clone, Copy, Drop)]
pub enum Task {
    /// Enters, asks so many calls one after the other, awaits each reply, and leaves.
    Caller { number: u32, calls: u32 },
    /// Enters, has the requests of all held, asks one, has them served again, so many times over, and leaves.
    Holder { rounds: u32 },
    /// Takes a worker's turns until all callers are done.
    Worker { worker: u32 },
    /// Takes so many turns, and gives the run up.
    Quitter { worker: u32, turns: u32 },
}
