//! From a text to an address.
ghost use Rattle.std.specs.Prelude.{◌≡◌, IfOk};
ghost use Rattle.ior_text.specs.Address.{address_of};

use crate::address::Address;
use crate::address_view::view_address;
use poa_base::{Bytes, Endpoint, WantMemory};
use std::alloc::Global;

/// The address that a text is; none where it is no address.
pub(crate) fn read_address(alloc: Global, text: &[u8]) -> Result<Option<Address>, WantMemory>
    ensures { IfOk result (λ found. found ≡ address_of text.now) }
{
    let Some(view) = view_address(text) else {
        return Ok(None);
    };
    let host = Vec::from_slice(alloc, view.endpoint.host)?;
    let endpoint = Endpoint {
        host: Bytes::from_vec(host),
        port: view.endpoint.port,
    };
    Ok(Some(Address {
        minor: view.minor,
        endpoint,
    }))
}
