//! The replies that send a client elsewhere.
ghost use Rattle.std.specs.Prelude.{◌≡◌, option_copied, IfOk};
ghost use Rattle.poa_history.specs.Replies as replies;

use poa_base::{Bytes, Call, Endpoint, Reply, WantMemory};
use poa_history::calls::target_of;
use std::alloc::Global;

/// The client is to ask the endpoint for the same key.
pub fn forwarded_to(
    alloc: Global,
    call: Option<&Call>,
    endpoint: &Endpoint,
) -> Result<Reply, WantMemory>
    ensures { IfOk result
        (λ reply. reply ≡ replies.forwarded_to (option_copied call.entry) endpoint.now) }
{
    let key = match target_of(call) {
        Some(bytes) => bytes.clone()?,
        None => Bytes::new(alloc),
    };
    Ok(Reply::Forward {
        endpoint: endpoint.clone()?,
        key,
    })
}
