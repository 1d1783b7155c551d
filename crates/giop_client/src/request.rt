//! The request that a client writes.
ghost use Rattle.std.specs.Prelude.{◌≡◌, ◌≤◌, IfOk};
ghost use Rattle.giop_answer.specs.declared.kind.TheConstants.{MINOR};
ghost use Rattle.giop_msg.specs.Ask.{request_bytes};
ghost use Rattle.giop_client.specs.Request.{ask_of};

use crate::target::Target;
use giop_msg::write_request;
use poa_base::{Ask, Bytes, Datum, Head, WantMemory};
use std::alloc::Global;

/// The response flags of a request that is answered with all that comes of it.
pub(crate) const WITH_TARGET: u8 = 3;

/// The bytes of the request of this number to the target: little-endian, and of the version that is spoken with it.
pub(crate) fn request(
    alloc: Global,
    target: &Target,
    operation: &[u8],
    argument: &Option<Datum>,
    number: u32,
) -> Result<Bytes, WantMemory>
    requires { target.now.minor ≤ MINOR }
    ensures { IfOk result
        (λ bytes. bytes ≡ request_bytes (ask_of target.now operation.now argument.now number)) }
{
    let ask = ask(alloc, target, operation, argument, number)?;
    write_request(alloc, &ask)
}

// What is asked, with a copy of each part.
fn ask(
    alloc: Global,
    target: &Target,
    operation: &[u8],
    argument: &Option<Datum>,
    number: u32,
) -> Result<Ask, WantMemory>
    ensures { IfOk result (λ ask. ask ≡ ask_of target.now operation.now argument.now number) }
{
    Ok(Ask {
        head: Head {
            id: number,
            minor: target.minor,
            little: true,
            flags: WITH_TARGET,
            locate: false,
        },
        key: target.key.clone()?,
        operation: Bytes::copy_of(alloc, operation)?,
        argument: argument.clone()?,
    })
}
