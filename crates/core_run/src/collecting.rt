//! Connections are given their replies.
ghost use Rattle.core_run.specs.Gives.{Gives};
ghost use Rattle.core_run.specs.Kept.{IsKept, life};

use crate::inside::Inside;
use crate::quieting::quiet;
use core_outboxes::Filed;
use poa_base::Entry;

/// A connection is given its next reply, if there is one. Takes no memory.
pub fn collect(inside: &mut Inside, conn: u32) -> Option<Filed>
    requires { IsKept inside.old }
    ensures kept { IsKept inside.new }
    ensures given { Gives conn (life inside.old) result (life inside.new) }
{
    let Some(filed) = inside.desk.collect(conn) else {
        return None;
    };
    let arrival = filed.arrival;
    quiet(inside, Entry::Collect { conn, arrival });
    Some(filed)
}
