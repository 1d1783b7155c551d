//! The steps of a script.
ghost use Rattle.std.specs.Prelude.{◌≡◌};
ghost use Rattle.replay_script.specs.Whole.{asked};

use poa_base::{Bytes, Datum, Name, Oid, Path};

/// What a line has done. A connection is the place of its name among the connections of the script.
#[derive(Drop)]
pub enum Step {
    /// A request comes over this connection.
    Ask {
        connection: usize,
        id: u32,
        path: Path,
        oid: Oid,
        operation: Name,
        argument: Option<Datum>,
    },
    /// Bytes come over this connection.
    Feed {
        connection: usize,
        bytes: Bytes,
    },
    /// This connection ends.
    End {
        connection: usize,
    },
    /// An administrator's line comes over this connection: 1 to 4,096 bytes, which begin and end with a word, and
    /// may be no command.
    Admin {
        connection: usize,
        words: Bytes,
    },
    /// One turn of a worker, whose number is below 16.
    Step {
        worker: u32,
    },
    /// Turns of a worker, whose number is below 16, until it has nothing to do.
    Run {
        worker: u32,
    },
    /// The replies that this connection is owed are printed.
    Collect {
        connection: usize,
    },
    /// The stored states are printed.
    Store,
    /// The journal is printed.
    Journal,
}

/// A request but for its id.
#[derive(Clone, Drop)]
pub(crate) struct Request {
    pub(crate) connection: usize,
    pub(crate) path: Path,
    pub(crate) oid: Oid,
    pub(crate) operation: Name,
    pub(crate) argument: Option<Datum>,
}

impl Request {
    /// The step that asks it.
    pub(crate) fn ask(self, id: u32) -> Step
        ensures { result ≡ asked self id }
    {
        let Request {
            connection,
            path,
            oid,
            operation,
            argument,
        } = self;
        Step::Ask {
            connection,
            id,
            path,
            oid,
            operation,
            argument,
        }
    }
}

/// A step and the number of its line, from 1 on.
#[derive(Drop)]
pub struct ScriptStep {
    pub line: u64,
    pub step: Step,
}
