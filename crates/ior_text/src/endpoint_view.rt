//! Endpoints in a text, lent.
ghost use Rattle.std.specs.Prelude.{◌≡◌, option_map};
ghost use Rattle.std.specs.List.{list_all};
ghost use Rattle.ior_text.specs.Endpoint.{endpoint_of, is_host as is_host_of, is_host_byte as is_host_byte_of};
ghost use Rattle.ior_text.specs.CorbalocSeen.{seen_endpoint};

use crate::cut::cut;
use crate::port::port;

/// The port where none is written.
const DEFAULT_PORT: u16 = 2809;

/// A host and a port, lent from a text.
#[derive(Clone, Copy)]
pub struct EndpointView<'a> {
    pub host: &'a [u8],
    pub port: u16,
}

/// A host, and the port behind it.
pub(crate) fn view_endpoint(text: &[u8]) -> Option<EndpointView<'_>>
    ensures { option_map seen_endpoint result ≡ endpoint_of text.now }
{
    let (host, back) = cut(text, b':');
    if !is_host(host) {
        return None;
    }
    let port = match back {
        None => DEFAULT_PORT,
        Some(word) => port(word)?,
    };
    Some(EndpointView { host, port })
}

/// Whether a text is a host: 1 to 255 letters, digits, `.` and `-`.
pub(crate) fn is_host(word: &[u8]) -> bool
    ensures { result ≡ is_host_of word.now }
{
    !word.is_empty() && word.len() <= 255 && has_host_bytes(word)
}

fn has_host_bytes(word: &[u8]) -> bool
    ensures { result ≡ list_all is_host_byte_of word.now }
{
    word.iter().all(|c| is_host_byte(*c))
}

fn is_host_byte(c: u8) -> bool
    ensures { result ≡ is_host_byte_of c }
{
    c.is_ascii_alphanumeric() || c == b'.' || c == b'-'
}
