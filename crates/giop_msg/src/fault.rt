//! Why a message asks nothing.
use crate::view_fault::ViewFault;
use std::alloc::AllocError;
use std::error::Error;
use std::fmt;

/// Why a message asks nothing of a server.
#[derive(Clone, Copy, Debug)]
pub enum MsgFault {
    /// The fields of a Request, CancelRequest or LocateRequest can't be read.
    Malformed,
    /// A Reply, a LocateReply or a MessageError.
    NotForServer,
    /// No memory was left for the call.
    WantMemory,
}

impl From<AllocError> for MsgFault {
    ghost use Rattle.std.specs.Prelude.{◌≡◌};
    ghost use Rattle.giop_msg.specs.declared.fault.MsgFault.TheVariants.{WantMemory};

    ghost from_gives = { λ _ e. e ≡ WantMemory };

    fn from(_refused: AllocError) -> MsgFault {
        MsgFault::WantMemory
    }
}

impl From<ViewFault> for MsgFault {
    ghost use Rattle.std.specs.Prelude.{◌≡◌};
    ghost use Rattle.giop_msg.specs.Seen.{told_by};

    ghost from_gives = { λ seen fault. fault ≡ told_by seen };

    fn from(seen: ViewFault) -> MsgFault {
        match seen {
            ViewFault::Malformed => MsgFault::Malformed,
            ViewFault::NotForServer => MsgFault::NotForServer,
        }
    }
}

impl fmt::Display for MsgFault {
    fn fmt<W: fmt::Write>(&self, f: &mut fmt::Formatter<W>) -> fmt::Result {
        match self {
            MsgFault::Malformed => write!(f, "the message can't be read"),
            MsgFault::NotForServer => write!(f, "the message isn't for a server"),
            MsgFault::WantMemory => write!(f, "out of memory"),
        }
    }
}

impl Error for MsgFault {}
