//! How a run of naming contexts ended.

use poad_files::Status;

/// How a run of naming contexts ended.
#[derive(Clone, Copy, Drop)]
pub enum NamesEnd {
    /// The source was read to its end with nothing left over, or to a CloseConnection, and every reply was written.
    Ended,
    /// A read of the source failed.
    ReadFault,
    /// A write to the sink failed.
    WriteFault,
    /// The first bad message starts at this byte.
    Malformed { at: u64 },
    /// The source ended, and so many of its bytes belong to no whole message.
    Truncated { have: u64 },
    /// So many bytes were taken of the source, as many as a run takes at most, and no message of them ends the run.
    InputLimit { taken: u64 },
    /// No memory was left.
    WantMemory,
}

impl From<NamesEnd> for Status {
    ghost use Rattle.std.specs.Prelude.{◌≡◌};
    ghost use Rattle.poad_answer.specs.NamesRun.{status_of};

    ghost from_gives = { λ end status. status ≡ status_of end };

    fn from(end: NamesEnd) -> Status {
        match end {
            NamesEnd::Ended => Status::Ok,
            NamesEnd::ReadFault => Status::ReadFault,
            NamesEnd::WriteFault => Status::WriteFault,
            NamesEnd::Malformed { at } => Status::Malformed { at },
            NamesEnd::Truncated { have } => Status::Truncated { have },
            NamesEnd::InputLimit { taken } => Status::InputLimit { taken },
            NamesEnd::WantMemory => Status::WantMemory,
        }
    }
}
