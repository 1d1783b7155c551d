//! From an object key to its key string.
ghost use Rattle.std.specs.Prelude.{◌≡◌, ◌++◌, OnOk};
ghost use Rattle.hex.specs.Hex.{IsBytes};
ghost use Rattle.ior_text.specs.KeyString.{byte_text, key_text};

use crate::key_reading::stands_for_itself;
use poa_base::WantMemory;

/// Adds the key string of a key.
pub(crate) fn put_key(text: &mut Vec<u8>, key: &[u8]) -> Result<(), WantMemory>
    ensures added { OnOk result (text.new.items ≡ text.old.items ++ key_text key.now) }
    ensures bytes { IsBytes key.now }
{
    for byte in key {
        put_byte(text, *byte)?;
    }
    Ok(())
}

// Adds a byte as itself, or by `%` and two hexadecimal digits.
fn put_byte(text: &mut Vec<u8>, byte: u8) -> Result<(), WantMemory>
    ensures { OnOk result (text.new.items ≡ text.old.items ++ byte_text byte) }
{
    if stands_for_itself(byte) {
        text.push(byte)?;
        return Ok(());
    }
    let mut digits = [0; 2];
    hex::encode_to_slice(&[byte], &mut digits).unwrap();
    text.push(b'%')?;
    text.extend_from_slice(&digits)
}
