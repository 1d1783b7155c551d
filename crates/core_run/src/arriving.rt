//! Calls arrive, or fill the run.
ghost use Rattle.std.specs.Prelude.{◌≡◌, OnOk, OnErr};
ghost use Rattle.poa_base.specs.declared.Entry.TheVariants.{Arrive, Filled};
ghost use Rattle.poa_history.specs.Legal.{MayArrive, MayFill};
ghost use Rattle.poa_history.specs.Life.{with_entry};
ghost use Rattle.core_outboxes.specs.Desk.{HasRoomForOne};
ghost use Rattle.core_run.specs.Agrees.{history};
ghost use Rattle.core_run.specs.Arriving as arriving;
ghost use Rattle.core_run.specs.Kept.{IsKept, IsReady, life};

use crate::inside::Inside;
use crate::quieting::quiet;
use crate::room::make_room_for_call;
use core_outboxes::{Owing, asks, head_of, number_of};
use poa_base::{Call, Entry, WantMemory};

/// The row of a call that asks a reply.
fn row_of(arrival: u64, conn: u32, call: &Call) -> Option<Owing>
    ensures { result ≡ arriving.row_of arrival conn call.now }
{
    if asks(call) {
        Some(Owing {
            arrival,
            conn,
            number: number_of(Some(call)),
            head: head_of(call),
            wait: None,
        })
    } else {
        None
    }
}

/// A call for which there is room arrives.
fn place(inside: &mut Inside, conn: u32, call: Call, size: u64)
    requires ready { IsReady inside.old }
    requires desk { HasRoomForOne conn inside.old.desk }
    requires may { MayArrive inside.old.limit (history inside.old) conn size call }
    ensures kept { IsKept inside.new }
    ensures placed { life inside.new ≡ with_entry (Arrive conn size call) (life inside.old) }
{
    let row = row_of(inside.tables.tally.arrivals, conn, &call);
    quiet(inside, Entry::Arrive { conn, size, call });
    if let Some(row) = row {
        inside.desk.owe(row);
    }
}

/// A call of so many bytes arrives on a connection; or nothing changes.
pub fn arrive(inside: &mut Inside, conn: u32, call: Call, size: u64) -> Result<(), WantMemory>
    requires kept { IsKept inside.old }
    requires may { MayArrive inside.old.limit (history inside.old) conn size call }
    ensures kept { IsKept inside.new }
    ensures ok { OnOk result
        (life inside.new ≡ with_entry (Arrive conn size call) (life inside.old)) }
    ensures err { OnErr result (life inside.new ≡ life inside.old) }
{
    if make_room_for_call(inside, conn).is_err() {
        drop(call);
        return Err(WantMemory);
    }
    place(inside, conn, call, size);
    Ok(())
}

/// The first call that isn't taken fills the run. Takes no memory.
pub fn fill(inside: &mut Inside, conn: u32, size: u64)
    requires kept { IsKept inside.old }
    requires may { MayFill inside.old.limit (history inside.old) conn size }
    ensures kept { IsKept inside.new }
    ensures filled { life inside.new ≡ with_entry (Filled conn size) (life inside.old) }
{
    quiet(inside, Entry::Filled { conn, size });
}
