//! Connections enter and leave.
ghost use Rattle.std.specs.Prelude.{◌≡◌, ◌<◌, if◌then◌else◌, nat_lt, Some, None, OnOk, OnErr};
ghost use Rattle.poa_base.specs.declared.Entry.TheVariants.{Entered, Left};
ghost use Rattle.history_standing.specs.Arrivals.{connections};
ghost use Rattle.poa_history.specs.Legal.{IsOpen};
ghost use Rattle.core_arrivals.specs.Tallies.{TallyTells};
ghost use Rattle.poa_history.specs.Life.{with_entry};
ghost use Rattle.core_run.specs.Agrees.{history};
ghost use Rattle.core_run.specs.Kept.{IsKept, life};

use crate::inside::Inside;
use crate::quieting::quiet;
use crate::room::make_room;
use core_arrivals::Tally;
use poa_base::{Entry, WantMemory};

/// How many connections a run has at most.
const CONNECTIONS: u64 = 4_000_000;

/// The number of the next connection; none where the run had all that it may.
pub fn next_number(tally: &Tally) -> Option<u32>
    ensures { TallyTells tally.now
        (λ h. result ≡ (if nat_lt (connections h) 4000000 then Some (connections h) else None)) }
{
    let conns = core_arrivals::connections(tally);
    if conns < CONNECTIONS {
        u32::try_from(conns).ok()
    } else {
        None
    }
}

/// A connection enters with the next number; or nothing changes.
pub fn enter(inside: &mut Inside, conn: u32) -> Result<(), WantMemory>
    requires kept { IsKept inside.old }
    requires next { (conn ≡ connections (history inside.old)) × (conn < 4000000) }
    ensures kept { IsKept inside.new }
    ensures ok { OnOk result (life inside.new ≡ with_entry (Entered conn) (life inside.old)) }
    ensures err { OnErr result (life inside.new ≡ life inside.old) }
{
    make_room(inside)?;
    quiet(inside, Entry::Entered { conn });
    Ok(())
}

/// A connection leaves. Takes no memory.
pub fn leave(inside: &mut Inside, conn: u32)
    requires kept { IsKept inside.old }
    requires conn { IsOpen (history inside.old) conn }
    ensures kept { IsKept inside.new }
    ensures left { life inside.new ≡ with_entry (Left conn) (life inside.old) }
{
    quiet(inside, Entry::Left { conn });
    inside.desk.leave(conn);
}
