use std::error::Error;
use std::fmt;

/// Why a read was refused. A refused read leaves its view as it was.
#[derive(Clone, Copy, Debug)]
pub enum PartFault {
    /// Fewer bytes are left behind the padding than the field has: `need` is the size of the number, or the
    /// length that was read for the bytes of a string or a sequence; `have` is what is left behind the
    /// padding, and 0 where the padding itself isn't whole. For `skip_to` both count the padding itself.
    Short { need: u64, have: u64 },
    /// A boolean is an octet 0 or 1 (CORBA 3.3 Part 2, section 9.3.1), and this octet is above 1.
    BadBool { value: u8 },
    /// A string of a length above 0 doesn't end in NUL (CORBA 3.3 Part 2, section 9.3.2).
    NoNul,
}

impl fmt::Display for PartFault {
    fn fmt<W: fmt::Write>(&self, f: &mut fmt::Formatter<W>) -> fmt::Result {
        match self {
            PartFault::Short { need, have } => write!(
                f,
                "{need} bytes are needed and {have} are left"
            ),
            PartFault::BadBool { value } => write!(f, "{value} is no boolean"),
            PartFault::NoNul => write!(f, "a string doesn't end in NUL"),
        }
    }
}

impl Error for PartFault {}
