ghost use Rattle.std.specs.Prelude.{◌≡◌};
ghost use Rattle.cdr_core.specs.Fault.{refusal};
ghost use Rattle.cdr_core.specs.declared.fault.CdrFault.TheVariants.{WantMemory};

use crate::part_fault::PartFault;
use std::alloc::AllocError;
use std::error::Error;
use std::fmt;

/// Why a read was refused. A refused read leaves its reader as it was.
#[derive(Clone, Copy, Debug)]
pub enum CdrFault {
    /// Fewer bytes are left behind the padding than the field has: `need` is the size of the number, or the
    /// length that was read for the bytes of a string or a sequence; `have` is what is left behind the
    /// padding, and 0 where the padding itself isn't whole. For `skip_to` both count the padding itself.
    Short { need: u64, have: u64 },
    /// A boolean is an octet 0 or 1 (CORBA 3.3 Part 2, section 9.3.1), and this octet is above 1.
    BadBool { value: u8 },
    /// A string of a length above 0 doesn't end in NUL (CORBA 3.3 Part 2, section 9.3.2).
    NoNul,
    /// No memory was left for the bytes of the field.
    WantMemory,
}

impl From<AllocError> for CdrFault {
    ghost from_gives = { λ _ e. e ≡ WantMemory };

    fn from(_refused: AllocError) -> CdrFault {
        CdrFault::WantMemory
    }
}

impl From<PartFault> for CdrFault {
    ghost from_gives = { λ part fault. fault ≡ refusal part };

    fn from(part: PartFault) -> CdrFault {
        match part {
            PartFault::Short { need, have } => CdrFault::Short { need, have },
            PartFault::BadBool { value } => CdrFault::BadBool { value },
            PartFault::NoNul => CdrFault::NoNul,
        }
    }
}

impl fmt::Display for CdrFault {
    fn fmt<W: fmt::Write>(&self, f: &mut fmt::Formatter<W>) -> fmt::Result {
        match self {
            CdrFault::Short { need, have } => write!(
                f,
                "{need} bytes are needed and {have} are left"
            ),
            CdrFault::BadBool { value } => write!(f, "{value} is no boolean"),
            CdrFault::NoNul => write!(f, "a string doesn't end in NUL"),
            CdrFault::WantMemory => write!(f, "out of memory"),
        }
    }
}

impl Error for CdrFault {}
