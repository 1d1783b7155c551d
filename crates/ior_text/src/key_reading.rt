//! From a key string to an object key.
ghost use Rattle.std.specs.Prelude.{◌≡◌, ◌≢◌, ◌-◌, ◌<◌, ◌≤◌, [], ◌∷◌, length, option_map, MatchOption};
ghost use Rattle.std.specs.Result.{result_ok};
ghost use Rattle.hex.specs.Hex.{decode_of};
ghost use Rattle.ior_text.specs.Gives.{Gives};
ghost use Rattle.ior_text.specs.KeyString.{BeginsWith, IsWrong, key_at, stands_for_itself as stands_for_itself_of};

use crate::corbaloc_fault::LocFault;
use poa_base::Bytes;
use std::alloc::Global;

/// The key that a key string writes, whose end is the end of the text.
pub(crate) fn read_key(alloc: Global, text: &[u8], key_string: &[u8]) -> Result<Bytes, LocFault>
    requires { length key_string.now ≤ length text.now }
    ensures { Gives result (key_at (length text.now - length key_string.now) key_string.now) }
{
    let mut key = Vec::new(alloc);
    let mut rest = key_string;
    while !rest.is_empty() {
        let Some((byte, behind)) = first_byte(rest) else {
            return Err(LocFault::BadKey {
                at: (text.len() - rest.len()) as u64,
            });
        };
        key.push(byte)?;
        rest = behind;
    }
    Ok(Bytes::from_vec(key))
}

// The byte that a key string begins with, and what stands behind it.
fn first_byte(text: &[u8]) -> Option<(u8, &[u8])>
    requires { 0 < length text.now }
    ensures { MatchOption result (IsWrong text.now) (λ x. BeginsWith x.0 x.1.now text.now) }
{
    match text {
        [b'%', behind @ ..] => escaped(behind),
        [byte, behind @ ..] => plain(*byte, behind),
        [] => None,
    }
}

// The byte whose digits stand in front, which stand behind a `%`.
fn escaped(text: &[u8]) -> Option<(u8, &[u8])>
    ensures { MatchOption result (IsWrong (37 ∷ text.now))
        (λ x. BeginsWith x.0 x.1.now (37 ∷ text.now)) }
{
    let [high, low, behind @ ..] = text else {
        return None;
    };
    let byte = pair(*high, *low)?;
    Some((byte, behind))
}

// The byte in front, where it stands for itself.
fn plain(byte: u8, behind: &[u8]) -> Option<(u8, &[u8])>
    requires { byte ≢ 37 }
    ensures { MatchOption result (IsWrong (byte ∷ behind.now))
        (λ x. BeginsWith x.0 x.1.now (byte ∷ behind.now)) }
{
    if stands_for_itself(byte) {
        Some((byte, behind))
    } else {
        None
    }
}

// The byte of two hexadecimal digits.
fn pair(high: u8, low: u8) -> Option<u8>
    ensures { option_map (λ byte. byte ∷ []) result ≡ result_ok (decode_of (high ∷ low ∷ [])) }
{
    let mut byte = [0];
    hex::decode_to_slice(&[high, low], &mut byte).ok()?;
    Some(byte[0])
}

/// Whether a byte stands for itself in a key string.
pub(crate) fn stands_for_itself(byte: u8) -> bool
    ensures { result ≡ stands_for_itself_of byte }
{
    byte.is_ascii_alphanumeric() || b";/:?@&=+$,-_.!~*'()".contains(&byte)
}
