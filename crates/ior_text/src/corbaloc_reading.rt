//! From a text to a reference.
ghost use Rattle.std.specs.Prelude.{◌≡◌, ◌-◌, ◌≤◌, length, ◌⊎◌, IfOk, IfErr, Ok, Err};
ghost use Rattle.ior_text.specs.Gives.{Gives};
ghost use Rattle.ior_text.specs.CorbalocText.{listed_at, location_of};
ghost use Rattle.ior_text.specs.Reference.{reference_of};

use crate::address::Address;
use crate::address_reading::read_address;
use crate::corbaloc_fault::LocFault;
use crate::cut::cut;
use crate::key_reading::read_key;
use crate::location::Location;
use crate::reference::write_reference;
use poa_base::{Ior, Items};
use std::alloc::Global;

/// What a corbaloc text begins with.
const SCHEME: &[u8] = b"corbaloc:";

/// The reference of a corbaloc text: with an empty type id, and for each address an IIOP profile of its version with the
/// text's key. The faults, of which the first that applies is told: `NoScheme`, the text doesn't begin with `corbaloc:`;
/// `BadAddress`, the address that begins at the byte `at` is none, the first that isn't; `BadKey`, the byte `at` of the key
/// string is wrong, the first that is. `WantMemory`: no memory was left for the reference.
pub fn read_corbaloc(alloc: Global, text: &[u8]) -> Result<Ior, LocFault>
    ensures ior { IfOk result (λ ior. reference_of text.now ≡ Ok ior) }
    ensures fault { IfErr result
        (λ fault. (fault ≡ LocFault.WantMemory) ⊎ (reference_of text.now ≡ Err fault)) }
{
    let location = read_location(alloc, text)?;
    let ior = write_reference(alloc, &location)?;
    Ok(ior)
}

// The location that a text tells.
fn read_location(alloc: Global, text: &[u8]) -> Result<Location, LocFault>
    ensures { Gives result (location_of text.now) }
{
    if !text.starts_with(SCHEME) {
        return Err(LocFault::NoScheme);
    }
    let (list, back) = cut(&text[SCHEME.len()..], b'/');
    let addresses = read_addresses(alloc, list, SCHEME.len() + list.len())?;
    let key = read_key(alloc, text, back.unwrap_or(&[]))?;
    Ok(Location { addresses, key })
}

// The addresses of a list that ends at this place in the text.
fn read_addresses(alloc: Global, list: &[u8], end: usize) -> Result<Items<Address>, LocFault>
    requires { length list.now ≤ end }
    ensures { Gives result (listed_at (end - length list.now) list.now) }
{
    let mut addresses = Items::new(alloc);
    let mut rest = list;
    loop {
        let (word, back) = cut(rest, b',');
        let Some(address) = read_address(alloc, word)? else {
            return Err(LocFault::BadAddress {
                at: (end - rest.len()) as u64,
            });
        };
        addresses.push(address)?;
        let Some(behind) = back else {
            return Ok(addresses);
        };
        rest = behind;
    }
}
