//! How the serving of a source ended.

/// How the serving of a source ended.
#[derive(Clone, Copy)]
pub(crate) enum End {
    /// The source was read to its end with nothing left over, or to a CloseConnection, and every reply was written.
    Read,
    /// A read of the source failed.
    ReadFault,
    /// A write to the sink failed.
    WriteFault,
    /// The first bad message starts at this byte.
    Malformed { at: u64 },
    /// A call was refused: so many calls, and bytes of them, had arrived.
    Full { arrivals: u64, bytes: u64 },
    /// The source ended, and so many of its bytes belong to no whole message.
    Truncated { have: u64 },
    /// So many bytes were taken of the source, as many as are taken at most, and no message of them ends the serving.
    InputLimit { taken: u64 },
    /// No memory was left.
    WantMemory,
}
