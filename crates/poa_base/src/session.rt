//! How the serving of one connection ended.

/// The connection, and how it ended. No connection where none was entered.
#[derive(Clone, Copy, Drop)]
pub struct Session {
    pub conn: Option<u32>,
    pub end: SessionEnd,
}

/// How a session ended.
#[derive(Clone, Copy, Debug, Drop)]
pub enum SessionEnd {
    /// The input was read to its end, and every owed reply was written.
    Ended,
    /// A shutdown ended it.
    Shut,
    ReadFault,
    WriteFault,
    /// The first message that is bad starts at this byte.
    Malformed { at: u64 },
    /// The input ended inside a message, of which so many bytes came.
    Truncated { have: u64 },
    /// So many bytes were read, as many as a session reads.
    InputLimit { taken: u64 },
    /// The run's limit was met, at so many arrivals and bytes of arrivals.
    Limit { arrivals: u64, bytes: u64 },
    /// This worker abandoned the run.
    Abandoned { worker: u32 },
    WantMemory,
}
