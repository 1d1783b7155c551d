//! The core, and the call that is asked.
ghost use Rattle.std.specs.Prelude.{◌≡◌, IfOk, [], reverse};

use crate::fault::Fault;
use conf_toml::read_config;
use poa_base::{Body, Bytes, Call, Head, Store, WantMemory};
use poa_core::Core;
use std::alloc::Global;

/// One object of the map, in an adapter with persistent references.
const OBJECT: &[u8] = b"root = \"active\"
[[servant]]
name = \"r\"
kind = \"register\"
[[adapter]]
path = \"/d\"
policies = [\"PERSISTENT\", \"USER_ID\"]
boot = true
[[object]]
adapter = \"/d\"
id = \"t:x\"
servant = \"r\"
";

/// The bytes of a message that asks `add`.
pub const SIZE: u64 = 72;

/// A core over the object, before its first entry.
pub fn core(alloc: Global) -> Result<Core, Fault>
    ensures { IfOk result (λ core. core.history ≡ []) }
{
    let Ok(config) = read_config(alloc, OBJECT) else {
        return Err(Fault);
    };
    Ok(Core::new(alloc, config, 1, Store::new(alloc), 4_000_000)?)
}

/// `add 1` on the object.
pub fn add_one(alloc: Global) -> Result<Call, WantMemory> {
    Ok(Call::Request {
        head: Head {
            id: 1,
            minor: 2,
            little: true,
            flags: 3,
            locate: false,
        },
        target: Some(Bytes::from_vec(Vec::from_slice(alloc, b"POA\x01\x01\x01\x01d\x00\x01x")?)),
        operation: Bytes::from_vec(Vec::from_slice(alloc, b"add")?),
        body: Body {
            bytes: Bytes::from_vec(Vec::from_slice(alloc, b"\x01\0\0\0\0\0\0\0")?),
            little: true,
            base: 64,
        },
    })
}
