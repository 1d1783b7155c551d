/// What the threads of one run do: each takes the lock so many times, and works under it and between.
#[derive(Clone, Copy)]
pub struct Plan {
    pub threads: u32,
    /// The rounds of each thread.
    pub rounds: u64,
    /// The steps of work under the lock.
    pub inside: u64,
    /// The steps of work between.
    pub outside: u64,
}
