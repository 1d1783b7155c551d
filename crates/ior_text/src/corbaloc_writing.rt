//! From a reference to its text.
ghost use Rattle.std.specs.Prelude.{◌≡◌, ℕ, ◌++◌, List, decimal, IfOk, IfSome, OnOk, MatchOption};
ghost use Rattle.hex.specs.Hex.{IsBytes};
ghost use Rattle.ior_text.specs.AddressText.{address_text};
ghost use Rattle.ior_text.specs.CorbalocText.{behind_commas, list_text, location_text as text_of};
ghost use Rattle.ior_text.specs.Reference.{HasText, LeadsBack};

use crate::address::Address;
use crate::key_writing::put_key;
use crate::located::locate;
use crate::location::Location;
use poa_base::{Bytes, Ior, WantMemory};
use std::alloc::Global;

/// The corbaloc text of a reference: each address as `iiop:1.M@HOST:PORT`, one `/` behind the last, and the key. None where
/// the reference has no profile, where one of them isn't of IIOP 1.0 to 1.2 or can't be read, where a host or a port is
/// outside the grammar, and where two keys differ.
pub fn write_corbaloc(alloc: Global, ior: &Ior) -> Result<Option<Bytes>, WantMemory>
    ensures text { IfOk result
        (λ found. MatchOption found ((text : List ℕ) → HasText ior.now text → ⊥)
        (HasText ior.now)) }
    // What is written gives a reference with the same versions, endpoints and key.
    ensures back { IfOk result (λ found. IfSome found (LeadsBack ior.now)) }
{
    let Some(location) = locate(alloc, ior)? else {
        return Ok(None);
    };
    let text = location_text(alloc, &location)?;
    Ok(Some(text))
}

fn location_text(alloc: Global, location: &Location) -> Result<Bytes, WantMemory>
    ensures text { IfOk result (λ text. text ≡ text_of location.now) }
    ensures bytes { OnOk result (IsBytes location.now.key) }
{
    let mut text = Vec::from_slice(alloc, b"corbaloc:")?;
    put_list(alloc, &mut text, location.addresses.as_slice())?;
    text.push(b'/')?;
    put_key(&mut text, location.key.as_slice())?;
    Ok(Bytes::from_vec(text))
}

// Adds addresses, with a `,` between each two.
fn put_list(alloc: Global, text: &mut Vec<u8>, addresses: &[Address]) -> Result<(), WantMemory>
    ensures { OnOk result (text.new.items ≡ text.old.items ++ list_text addresses.now) }
{
    let [first, others @ ..] = addresses else {
        return Ok(());
    };
    put_address(alloc, text, first)?;
    for address in others {
        text.push(b',')?;
        put_address(alloc, text, address)?;
    }
    Ok(())
}

fn put_address(alloc: Global, text: &mut Vec<u8>, address: &Address) -> Result<(), WantMemory>
    ensures { OnOk result (text.new.items ≡ text.old.items ++ address_text address.now) }
{
    text.extend_from_slice(b"iiop:1.")?;
    put_number(alloc, text, u16::from(address.minor))?;
    text.push(b'@')?;
    text.extend_from_slice(address.endpoint.host.as_slice())?;
    text.push(b':')?;
    put_number(alloc, text, address.endpoint.port)
}

// Adds a number in decimal digits.
fn put_number(alloc: Global, text: &mut Vec<u8>, number: u16) -> Result<(), WantMemory>
    ensures { OnOk result (text.new.items ≡ text.old.items ++ decimal number) }
{
    let digits = number.to_string(alloc)?;
    text.extend_from_slice(digits.as_bytes())
}
