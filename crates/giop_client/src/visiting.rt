//! A link to a server, used for one request.
ghost use Rattle.std.specs.Prelude.{◌≡◌};
ghost use Rattle.outside.specs.Told.{IfTold};
ghost use Rattle.giop_client.specs.Counting.{IsLater};
ghost use Rattle.giop_client.specs.Ending.{Suffers, BlamesStep};
ghost use Rattle.giop_client.specs.Talking.{Talks, Visited};

use crate::call_end::CallEnd;
use crate::listening::listen;
use crate::step::Step;
use outside::{Connector, Link, Opened, write_all};
use poa_base::Endpoint;
use std::alloc::Global;

/// Opens a link to the endpoint, asks the request of this id by it, hears the answer and closes it.
pub(crate) fn visit<C: Connector>(
    alloc: Global,
    connector: &mut C,
    endpoint: &Endpoint,
    request: &[u8],
    id: u32,
) -> Step
    ensures visited { IfTold (C.calls connector.old) (C.calls connector.new)
        (Visited endpoint.now request.now id result) }
    ensures later { IsLater (C.tally connector.old) (C.tally connector.new) }
    ensures cause { BlamesStep result (C.tally connector.old) (C.tally connector.new) }
{
    match connector.dial(endpoint) {
        Opened::Failed => Step::End(CallEnd::ConnectFault),
        Opened::Link(mut link) => {
            let step = talk(alloc, &mut link, request, id);
            connector.close(link);
            step
        }
    }
}

// Writes the request to the link, and hears the answer.
fn talk<L: Link>(alloc: Global, link: &mut L, request: &[u8], id: u32) -> Step
    ensures talks { Talks request.now id (L.shown link.old) (L.shown link.new) result }
    ensures cause { Suffers result (L.shown link.new) }
{
    if !write_all(link, request) {
        return Step::End(CallEnd::WriteFault);
    }
    listen(alloc, link, id)
}
