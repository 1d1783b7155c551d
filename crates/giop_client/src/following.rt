//! A call that follows forwards.
ghost use Rattle.std.specs.Prelude.{◌≡◌, ◌≤◌};
ghost use Rattle.outside.specs.Told.{IfTold};
ghost use Rattle.giop_client.specs.Counting.{IsLater, Blames};
ghost use Rattle.giop_client.specs.Ending.{BlamesStep};
ghost use Rattle.giop_client.specs.Journey.{Follows};
ghost use Rattle.giop_client.specs.Talking.{Asks};

use crate::call_end::CallEnd;
use crate::followed::Followed;
use crate::request::request;
use crate::step::Step;
use crate::target::Target;
use crate::visiting::visit;
use outside::Connector;
use poa_base::{Datum, Ior};
use std::alloc::Global;

/// So many forwards may be followed.
pub const MOST_HOPS: u32 = 16;

/// Asks the object of the reference to do the operation, over one link after the other: where a server answers with
/// LOCATION_FORWARD, the reference that it brings is asked next, and at most `hops` forwards are followed. Each link takes
/// one request, with ids from 1 on, and is closed behind it.
///
/// The end is said exactly, by what the last link gave: see [`CallEnd`]. A fault is told only where the connector's count
/// of it rose in this call.
pub fn follow<C: Connector>(
    alloc: Global,
    connector: &mut C,
    ior: &Ior,
    operation: &[u8],
    argument: &Option<Datum>,
    hops: u32,
) -> Followed
    requires { hops ≤ MOST_HOPS }
    ensures follows { IfTold (C.calls connector.old) (C.calls connector.new)
        (Follows operation.now argument.now hops ior.now result) }
    ensures later { IsLater (C.tally connector.old) (C.tally connector.new) }
    ensures cause { Blames result.end (C.tally connector.old) (C.tally connector.new) }
{
    let mut next = match ask(alloc, connector, ior, operation, argument, 1) {
        Step::On(next) => next,
        Step::End(end) => return Followed { hops: 0, end },
    };
    for followed in 0..hops {
        match ask(alloc, connector, &next, operation, argument, followed + 2) {
            Step::On(further) => next = further,
            Step::End(end) => {
                return Followed {
                    hops: followed + 1,
                    end,
                };
            }
        }
    }
    Followed {
        hops,
        end: CallEnd::TooManyHops { hops },
    }
}

// Asks the object of the reference by the request of this number.
fn ask<C: Connector>(
    alloc: Global,
    connector: &mut C,
    reference: &Ior,
    operation: &[u8],
    argument: &Option<Datum>,
    number: u32,
) -> Step
    ensures asks { IfTold (C.calls connector.old) (C.calls connector.new)
        (Asks operation.now argument.now number reference.now result) }
    ensures later { IsLater (C.tally connector.old) (C.tally connector.new) }
    ensures cause { BlamesStep result (C.tally connector.old) (C.tally connector.new) }
{
    let target = match Target::of(alloc, reference) {
        Ok(Some(target)) => target,
        Ok(None) => return Step::End(CallEnd::NoProfile),
        Err(_) => return Step::End(CallEnd::WantMemory),
    };
    match request(alloc, &target, operation, argument, number) {
        Ok(bytes) => visit(alloc, connector, &target.endpoint, bytes.as_slice(), number),
        Err(_) => Step::End(CallEnd::WantMemory),
    }
}
