//! Addresses in a text, lent.
ghost use Rattle.std.specs.Prelude.{◌≡◌, option_map};
ghost use Rattle.std.specs.Option.{option_copied};
ghost use Rattle.ior_text.specs.Address.{address_of, behind_protocol, is_protocol as is_protocol_of, minor_of};
ghost use Rattle.ior_text.specs.CorbalocSeen.{seen_address};

use crate::cut::cut;
use crate::endpoint_view::{EndpointView, view_endpoint};

/// An address, lent from a text.
#[derive(Clone, Copy)]
pub struct AddressView<'a> {
    pub minor: u8,
    pub endpoint: EndpointView<'a>,
}

/// The address that a text is.
pub(crate) fn view_address(text: &[u8]) -> Option<AddressView<'_>>
    ensures { option_map seen_address result ≡ address_of text.now }
{
    let rest = protocol_behind(text)?;
    let (front, back) = cut(rest, b'@');
    let Some(place) = back else {
        let endpoint = view_endpoint(front)?;
        return Some(AddressView { minor: 0, endpoint });
    };
    let minor = minor(front)?;
    let endpoint = view_endpoint(place)?;
    Some(AddressView { minor, endpoint })
}

// What stands behind the protocol.
fn protocol_behind(text: &[u8]) -> Option<&[u8]>
    ensures { option_copied result ≡ behind_protocol text.now }
{
    let (protocol, rest) = cut(text, b':');
    if is_protocol(protocol) { rest } else { None }
}

fn is_protocol(word: &[u8]) -> bool
    ensures { result ≡ is_protocol_of word.now }
{
    word.is_empty() || word == b"iiop".as_slice()
}

// The minor version of GIOP 1.0, 1.1 or 1.2.
fn minor(word: &[u8]) -> Option<u8>
    ensures { result ≡ minor_of word.now }
{
    if word == b"1.0".as_slice() {
        Some(0)
    } else if word == b"1.1".as_slice() {
        Some(1)
    } else if word == b"1.2".as_slice() {
        Some(2)
    } else {
        None
    }
}
