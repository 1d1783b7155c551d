//! The location that a reference tells.
ghost use Rattle.std.specs.Prelude.{◌≡◌, true, List, MatchOption, IfOk};
ghost use Rattle.ior_text.specs.declared.body.ProfileBody.{ProfileBody};
ghost use Rattle.ior_text.specs.declared.address.Address.{Address};
ghost use Rattle.ior_text.specs.declared.location.Location.{Location};
ghost use Rattle.ior_text.specs.AddressText.{is_address as is_address_of};
ghost use Rattle.ior_text.specs.CorbalocProfile.{body_of};
ghost use Rattle.ior_text.specs.Reference.{IsAt, AreAt, IsLocated};

use crate::address::Address;
use crate::body::{ProfileBody, read_body};
use crate::endpoint_view::is_host;
use crate::key::key_of;
use crate::location::Location;
use poa_base::{Endpoint, Ior, Items, Profile, WantMemory};
use std::alloc::Global;

/// The location of a reference; none where it has no profile, or one that isn't of IIOP 1.0 to 1.2, can't be read, has a
/// host or port outside the grammar, or another key than the first.
pub(crate) fn locate(alloc: Global, ior: &Ior) -> Result<Option<Location>, WantMemory>
    ensures { IfOk result (λ found.
        MatchOption found ((location : Location) → IsLocated ior.now location → ⊥)
        (λ location. IsLocated ior.now location)) }
{
    let Some(key) = key_of(alloc, ior, 0)? else {
        return Ok(None);
    };
    let Some(addresses) = addresses_with(alloc, ior.profiles.as_slice(), key.as_slice())? else {
        return Ok(None);
    };
    Ok(Some(Location { addresses, key }))
}

// The addresses of profiles with this key.
fn addresses_with(
    alloc: Global,
    profiles: &[Profile],
    key: &[u8],
) -> Result<Option<Items<Address>>, WantMemory>
    ensures { IfOk result (λ found. MatchOption found
        ((addresses : List Address) → AreAt key.now addresses profiles.now → ⊥)
        (λ addresses. AreAt key.now addresses profiles.now)) }
{
    let mut addresses = Items::new(alloc);
    for profile in profiles {
        let Some(address) = address_with(alloc, profile, key)? else {
            return Ok(None);
        };
        addresses.push(address)?;
    }
    Ok(Some(addresses))
}

// The address of a profile with this key.
fn address_with(alloc: Global, profile: &Profile, key: &[u8]) -> Result<Option<Address>, WantMemory>
    ensures { IfOk result (λ found. MatchOption found
        ((address : Address) → IsAt key.now address profile.now → ⊥)
        (λ address. IsAt key.now address profile.now)) }
{
    let Some(body) = read_body(alloc, profile)? else {
        return Ok(None);
    };
    Ok(address_in(body, key))
}

// The address in a profile's body, where it has this key.
fn address_in(body: ProfileBody, key: &[u8]) -> Option<Address>
    ensures { MatchOption result
        ((address : Address) → body ≡ body_of address key.now → is_address_of address ≡ true → ⊥)
        (λ address. (body ≡ body_of address key.now) × (is_address_of address ≡ true)) }
{
    if body.major != 1 || body.key.as_slice() != key {
        return None;
    }
    let address = Address {
        minor: body.minor,
        endpoint: Endpoint {
            host: body.host,
            port: body.port,
        },
    };
    if is_address(&address) {
        Some(address)
    } else {
        None
    }
}

// Whether a corbaloc text can tell the address.
fn is_address(address: &Address) -> bool
    ensures { result ≡ is_address_of address.now }
{
    address.minor <= 2 && is_host(address.endpoint.host.as_slice()) && address.endpoint.port >= 1
}
