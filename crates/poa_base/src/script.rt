//! The lines of a script that is replayed.
use crate::bytes::Bytes;
use crate::invocation::Datum;
use crate::name::Name;
use crate::oid::Oid;
use crate::path::Path;

/// A line of a script.
#[derive(Drop)]
pub enum ScriptLine {
    /// An empty line or a comment.
    Skipped,
    /// A request of this connection.
    Ask {
        conn: Name,
        id: u32,
        path: Path,
        oid: Oid,
        operation: Name,
        argument: Option<Datum>,
    },
    /// As many requests of this connection, with the ids from 1 on.
    Flood {
        conn: Name,
        count: u32,
        path: Path,
        oid: Oid,
        operation: Name,
        argument: Option<Datum>,
    },
    /// Bytes that come over this connection.
    Feed {
        conn: Name,
        bytes: Bytes,
    },
    /// This connection ends.
    End {
        conn: Name,
    },
    /// An administrator's line.
    Admin {
        conn: Name,
        words: Bytes,
    },
    /// One turn of a worker.
    Step {
        worker: u32,
    },
    /// Turns of a worker until it has nothing to do.
    Run {
        worker: u32,
    },
    /// The replies that this connection is owed.
    Collect {
        conn: Name,
    },
    /// The stored states are printed.
    Store,
    /// The journal is printed.
    Journal,
}
