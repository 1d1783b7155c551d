//! Why a message that is seen where it lies asks nothing.
use cdr_core::PartFault;
use std::error::Error;
use std::fmt;

/// Why a message asks nothing of a server. No view lacks memory.
#[derive(Clone, Copy, Debug)]
pub enum ViewFault {
    /// The fields of a Request, CancelRequest or LocateRequest can't be read.
    Malformed,
    /// A Reply, a LocateReply or a MessageError.
    NotForServer,
}

/// A part of a message that can't be read.
#[derive(Clone, Copy)]
pub(crate) struct Unreadable;

impl From<PartFault> for Unreadable {
    fn from(_refused: PartFault) -> Unreadable {
        Unreadable
    }
}

impl From<Unreadable> for ViewFault {
    ghost use Rattle.std.specs.Prelude.{◌≡◌};
    ghost use Rattle.giop_msg.specs.declared.view_fault.ViewFault.TheVariants.{Malformed};

    ghost from_gives = { λ _ fault. fault ≡ Malformed };

    fn from(_part: Unreadable) -> ViewFault {
        ViewFault::Malformed
    }
}

impl fmt::Display for ViewFault {
    fn fmt<W: fmt::Write>(&self, f: &mut fmt::Formatter<W>) -> fmt::Result {
        match self {
            ViewFault::Malformed => write!(f, "the message can't be read"),
            ViewFault::NotForServer => write!(f, "the message isn't for a server"),
        }
    }
}

impl Error for ViewFault {}
