//! The header of a part.
ghost use Rattle.std.specs.Prelude.{◌≡◌, ◌&&◌, ◌+◌, ◌≤◌, length, not};
ghost use Rattle.giop_frame.specs.Part.{header_of, id_of, ulong_at, id_end, opens, continues};

/// The minor version of GIOP 1.2, the newest. Its fragments alone tell the message that they continue.
pub(crate) const NEWEST_MINOR: u8 = 2;
/// Type 0, which may be fragmented.
pub(crate) const REQUEST: u8 = 0;
/// Type 3, which may be fragmented.
pub(crate) const LOCATE_REQUEST: u8 = 3;
/// Type 7, the last one.
pub(crate) const FRAGMENT: u8 = 7;
/// The bytes of a header.
pub(crate) const HEADER: usize = 12;
/// The bytes of a header and the request id behind it.
pub(crate) const HEADER_AND_ID: usize = 16;

/// What a header says behind its magic and major version: CORBA 3.3 Part 2, 9.4.1.
#[derive(Clone, Copy)]
pub(crate) struct Header {
    /// The minor version.
    pub(crate) minor: u8,
    /// Whether numbers are little-endian: bit 0 of the flags.
    pub(crate) little: bool,
    /// Whether fragments follow: bit 1 of the flags, which version 1.0 hasn't.
    pub(crate) more: bool,
    /// The type of the message.
    pub(crate) kind: u8,
    /// The bytes behind the header.
    pub(crate) size: u32,
}

impl Header {
    /// The header at the front of these bytes.
    #[tactic(auto, unfolding(crate::specs::Part::header_of, crate::specs::Part::is_little))]
    pub(crate) fn read(part: &[u8]) -> Self
        requires { HEADER ≤ length part.now }
        ensures { result ≡ header_of part.now }
    {
        let minor = part[5];
        let flags = part[6];
        let little = flags & 1 == 1;
        Header {
            minor,
            little,
            more: minor != 0 && flags & 2 == 2,
            kind: part[7],
            size: ulong_at(part, 8, little),
        }
    }

    /// Whether this part is the first of a fragmented message, which is of version 1.2.
    pub(crate) fn opens(self) -> bool
        ensures { result ≡ opens self }
    {
        self.more
            && self.minor == NEWEST_MINOR
            && (self.kind == REQUEST || self.kind == LOCATE_REQUEST)
    }

    /// Whether this part is a Fragment.
    pub(crate) fn continues(self) -> bool
        ensures { result ≡ continues self }
    {
        self.kind == FRAGMENT
    }

    /// Whether this part is a message: no fragment, and none follows.
    pub(crate) fn is_alone(self) -> bool
        ensures { result ≡ (not self.more && not (continues self)) }
    {
        !self.more && !self.continues()
    }

    /// How many bytes of the part have to be seen before its id is known, where it matters.
    pub(crate) fn id_end(self) -> usize
        ensures { result ≡ id_end self }
    {
        if self.opens() || self.continues() {
            HEADER_AND_ID
        } else {
            HEADER
        }
    }
}

/// The request id behind a header.
#[tactic(auto, unfolding(crate::specs::Part::id_of, crate::specs::Part::is_little))]
pub(crate) fn id_of(part: &[u8]) -> u32
    requires { HEADER_AND_ID ≤ length part.now }
    ensures { result ≡ id_of part.now }
{
    ulong_at(part, HEADER, part[6] & 1 == 1)
}

/// The ulong at a place, in either byte order.
#[tactic(auto, unfolding(crate::specs::Part::ulong_at))]
fn ulong_at(part: &[u8], place: usize, little: bool) -> u32
    requires { place + 4 ≤ length part.now }
    ensures { result ≡ ulong_at little part.now place }
{
    let bytes = [
        part[place],
        part[place + 1],
        part[place + 2],
        part[place + 3],
    ];
    if little {
        u32::from_le_bytes(bytes)
    } else {
        u32::from_be_bytes(bytes)
    }
}
