//! How a command ended.
ghost use Rattle.std.specs.Prelude.{◌≡◌};
ghost use Rattle.poad_files.specs.Statuses.{status_number};

use crate::fault_line::write_fault;
use crate::illegal_line::write_illegal;
use conf_toml::ConfFault;
use ior_text::{IorFault, LocFault};
use poa_base::Bytes;
use std::fmt;

/// How a command ended: each status has a number, with which the program ends, and a line.
#[derive(PartialEq, Eq, Drop)]
pub enum Status {
    /// The input was read to its end, and every owed reply was written.
    Ok,
    /// The words are no command.
    BadWords,
    /// The bytes of the file are no configuration.
    ConfigRefused(ConfFault),
    /// This line of the script is no line of a script.
    ScriptRefused { line: u64 },
    /// The text is no reference.
    TextRefused(IorFault),
    /// A read of the source failed.
    ReadFault,
    /// A write to the sink failed.
    WriteFault,
    /// A file couldn't be read or written.
    FileFault,
    /// The first bad message of the input starts at this byte.
    Malformed { at: u64 },
    /// The input ended inside a message, of which so many bytes came.
    Truncated { have: u64 },
    /// So many calls are held at the end.
    Held { count: u64 },
    /// The limit of the run was met, at so many calls and bytes of calls.
    Limit { arrivals: u64, bytes: u64 },
    /// A door failed.
    ListenFault,
    /// A thread couldn't be started.
    NoThread,
    /// No memory was left.
    WantMemory,
    /// No file of that name is there.
    NoFile,
    /// The file is longer than its limit.
    FileTooLong,
    /// This line of the state file is no line of a state file.
    StateRefused { line: u64 },
    /// So many bytes were read, as many as a run reads.
    InputLimit { taken: u64 },
    /// This entry of the journal, counted from 0, is the first that isn't legal. Beside it the number of its line, and the
    /// line of the one entry that would have been allowed there, which is empty where there is none.
    Illegal { entry: u64, line: u64, due: Bytes },
    /// What was read and written over this connection isn't a session of it that ended well, by its journal.
    NoMatch { conn: u32 },
    /// This line of the journal is no line of a journal.
    JournalRefused { line: u64 },
    /// The last reference of a call has no profile by which it can be asked.
    NoProfile,
    /// One forward more came than a call follows, which is `hops`.
    TooManyHops { hops: u32 },
    /// No link could be opened to a server.
    ConnectFault,
    /// A server closed the connection before it answered.
    Closed,
    /// What a server said is no answer to the request, or not of the kind that was asked for.
    BadReply,
    /// A server said nothing for so many reads.
    NoAnswer { quiets: u32 },
    /// The text begins as a corbaloc text, and is none.
    LocRefused(LocFault),
    /// The reference has no corbaloc text.
    NoLoc,
}

impl Status {
    /// The number of the status, 0 for `Ok`.
    pub fn number(&self) -> u8
        ensures { result ≡ status_number self.now }
    {
        match self {
            Status::Ok => 0,
            Status::BadWords => 2,
            Status::ConfigRefused(_) => 3,
            Status::ScriptRefused { .. } => 4,
            Status::TextRefused(_) => 5,
            Status::ReadFault => 6,
            Status::WriteFault => 7,
            Status::FileFault => 8,
            Status::Malformed { .. } => 9,
            Status::Truncated { .. } => 10,
            Status::Held { .. } => 11,
            Status::Limit { .. } => 12,
            Status::ListenFault => 13,
            Status::NoThread => 14,
            Status::WantMemory => 15,
            Status::NoFile => 16,
            Status::FileTooLong => 17,
            Status::StateRefused { .. } => 18,
            Status::InputLimit { .. } => 19,
            Status::Illegal { .. } => 21,
            Status::NoMatch { .. } => 22,
            Status::JournalRefused { .. } => 23,
            Status::NoProfile => 24,
            Status::TooManyHops { .. } => 25,
            Status::ConnectFault => 26,
            Status::Closed => 27,
            Status::BadReply => 28,
            Status::NoAnswer { .. } => 29,
            Status::LocRefused(_) => 30,
            Status::NoLoc => 31,
        }
    }
}

impl fmt::Display for Status {
    fn fmt<W: fmt::Write>(&self, f: &mut fmt::Formatter<W>) -> fmt::Result {
        match self {
            Status::Ok => write!(f, "ok"),
            Status::BadWords => write!(f, "bad words"),
            Status::ConfigRefused(fault) => write_fault(f, fault),
            Status::ScriptRefused { line } => write!(f, "script: line {line}"),
            Status::TextRefused(fault) => write!(f, "{fault}"),
            Status::ReadFault => write!(f, "read fault"),
            Status::WriteFault => write!(f, "write fault"),
            Status::FileFault => write!(f, "file fault"),
            Status::Malformed { at } => write!(f, "malformed at {at}"),
            Status::Truncated { have } => write!(f, "truncated {have}"),
            Status::Held { count } => write!(f, "held {count}"),
            Status::Limit { arrivals, bytes } => write!(f, "limit {arrivals} {bytes}"),
            Status::ListenFault => write!(f, "listen fault"),
            Status::NoThread => write!(f, "no thread"),
            Status::WantMemory => write!(f, "want of memory"),
            Status::NoFile => write!(f, "no file"),
            Status::FileTooLong => write!(f, "file too long"),
            Status::StateRefused { line } => write!(f, "state: line {line}"),
            Status::InputLimit { taken } => write!(f, "input limit {taken}"),
            Status::Illegal { entry, line, due } => write_illegal(f, *entry, *line, due),
            Status::NoMatch { conn } => write!(f, "no match {conn}"),
            Status::JournalRefused { line } => write!(f, "journal: line {line}"),
            Status::NoProfile => write!(f, "no profile"),
            Status::TooManyHops { hops } => write!(f, "too many hops {hops}"),
            Status::ConnectFault => write!(f, "connect fault"),
            Status::Closed => write!(f, "closed"),
            Status::BadReply => write!(f, "bad reply"),
            Status::NoAnswer { quiets } => write!(f, "no answer {quiets}"),
            Status::LocRefused(fault) => write!(f, "{fault}"),
            Status::NoLoc => write!(f, "no corbaloc"),
        }
    }
}
