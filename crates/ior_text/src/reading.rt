//! From a text to a reference.
ghost use Rattle.std.specs.Prelude.{◌≡◌, ◌⊎◌, IfOk, IfErr, Ok, Err, Result};
ghost use Rattle.poa_base.specs.declared.Ior.{Ior};
ghost use Rattle.ior_text.specs.declared.fault.IorFault.{IorFault};
ghost use Rattle.ior_text.specs.Text.{behind_prefix, bytes_of, digit_fault, TextGives};
ghost use Rattle.ior_text.specs.Written.{ior_text, IsIor};
ghost use Rattle.std.specs.Option.{option_copied};
ghost use Rattle.hex.specs.Hex.{decode_of};

use crate::encapsulation::read_encapsulation;
use crate::fault::IorFault;
use hex::FromHexError;
use poa_base::Ior;
use std::alloc::Global;

/// Reads a reference. The faults, of which the first that applies is told: `NoPrefix`, the text doesn't
/// begin with `IOR:`; `OddDigits`, an odd number of digits follows; `BadDigit`, the byte `at` of the text
/// is no digit; `Malformed`, the first field of the encapsulation that can't be read begins at its byte
/// `at`. `WantMemory`: no memory was left for the reference.
pub fn read_ior(alloc: Global, text: &[u8]) -> Result<Ior, IorFault>
    ensures ior { IfOk result (λ ior. TextGives text.now (Ok ior)) }
    ensures fault { IfErr result (λ fault. (fault ≡ IorFault.WantMemory) ⊎ TextGives text.now (Err fault)) }
    // What a text gives is answered, and nothing else, unless memory runs out.
    ensures only { (answer : Result Ior IorFault) → TextGives text.now answer
        → (result ≡ answer) ⊎ (result ≡ Err IorFault.WantMemory) }
    // The text that is written of a reference is read as that reference, unless memory runs out.
    ensures back { (ior : Ior) → IsIor ior → text.now ≡ ior_text ior
        → (result ≡ Ok ior) ⊎ (result ≡ Err IorFault.WantMemory) }
{
    read_text(alloc, text)
}

/// The reference of a text, or its first fault.
fn read_text(alloc: Global, text: &[u8]) -> Result<Ior, IorFault>
    ensures ior { IfOk result (λ ior. TextGives text.now (Ok ior)) }
    ensures fault { IfErr result (λ fault. (fault ≡ IorFault.WantMemory) ⊎ TextGives text.now (Err fault)) }
{
    let bytes = read_bytes(alloc, text)?;
    read_encapsulation(alloc, &bytes)
}

/// The bytes that the digits of a text stand for.
fn read_bytes(alloc: Global, text: &[u8]) -> Result<Vec<u8>, IorFault>
    ensures bytes { IfOk result (λ bytes. bytes_of text.now ≡ Ok bytes.items) }
    ensures fault { IfErr result (λ fault. (fault ≡ IorFault.WantMemory) ⊎ (bytes_of text.now ≡ Err fault)) }
{
    let Some(digits) = strip_prefix(text) else {
        return Err(IorFault::NoPrefix);
    };
    match hex::decode(alloc, digits) {
        Ok(bytes) => Ok(bytes),
        Err(fault) => Err(fault_of(digits, fault)),
    }
}

/// What stands behind `IOR:`.
fn strip_prefix(text: &[u8]) -> Option<&[u8]>
    ensures { option_copied result ≡ behind_prefix text.now }
{
    match text {
        [b'I' | b'i', b'O' | b'o', b'R' | b'r', b':', digits @ ..] => Some(digits),
        _ => None,
    }
}

/// A fault of the digits, by its place in the text. No digits are of a wrong number for `decode` but an odd one.
fn fault_of(digits: &[u8], fault: FromHexError) -> IorFault
    requires { (fault ≡ FromHexError.OutOfMemory) ⊎ (decode_of digits.now ≡ Err fault) }
    ensures { result ≡ digit_fault fault }
{
    match fault {
        FromHexError::InvalidHexCharacter { c: _, index } => IorFault::BadDigit {
            at: index as u64 + 4,
        },
        FromHexError::OddLength | FromHexError::InvalidStringLength => IorFault::OddDigits,
        FromHexError::OutOfMemory => IorFault::WantMemory,
    }
}
