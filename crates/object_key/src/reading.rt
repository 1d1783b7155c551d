//! From octets to a key: what is seen, copied.
ghost use Rattle.std.specs.Prelude.{◌≡◌, ◌≢◌, IfOk, MatchResult};
ghost use Rattle.poa_base.specs.declared.Key.{Key};
ghost use Rattle.object_key.specs.Spelling.{key_spelling, IsKey};

use crate::fault::KeyFault;
use crate::viewing::view_key;
use poa_base::Key;
use std::alloc::Global;

/// Reads a key: what [`view_key`] sees, with one copy of each part. `BadKey`: no key is spelled so.
/// `WantMemory`: no memory was left for the key.
pub fn read_key(alloc: Global, bytes: &[u8]) -> Result<Key, KeyFault>
    // What is read is a key, and the bytes are its spelling, to the last one.
    ensures spelled { IfOk result (λ key. IsKey key × (key_spelling key ≡ bytes.now)) }
    ensures bad { result ≡ Err KeyFault.BadKey → (key : Key) → IsKey key → key_spelling key ≢ bytes.now }
    // The spelling of a key is read as that key, unless memory runs out.
    ensures back { (key : Key) → IsKey key → key_spelling key ≡ bytes.now
        → MatchResult result (λ found. found ≡ key) (λ fault. fault ≡ KeyFault.WantMemory) }
{
    let Ok(view) = view_key(bytes) else {
        return Err(KeyFault::BadKey);
    };
    Ok(view.to_key(alloc)?)
}
