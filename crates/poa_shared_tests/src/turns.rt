//! Two writers that take turns, and sleep at bells while it is the other's.
ghost use Rattle.std.specs.Prelude.{◌≡◌, ◌<◌, ℕ};
ghost use Rattle.seat_lock.specs.Seats.{view, IsFree, IsSeatOf};
ghost use Rattle.poa_shared_tests.specs.Notes.{IsWriter};

use crate::diary::{Diary, Note};
use crate::shared::{count, enter, write};
use seat_lock::{Seat, SeatLock, WantMemory};
use std::sync::Wait;
use std::time::Duration;

/// Longer than the runs of these tests: a ring that is lost is seen.
const LONG_SECONDS: u64 = 600;

/// Sleeps at the bell until there are so many entries.
pub fn wait_for<R: Wait>(
    rt: &R,
    lock: &SeatLock<Diary>,
    seat: &mut Seat<Diary>,
    bell: u32,
    entries: u64,
)
    requires free { IsSeatOf lock.now seat.old × IsFree seat.old }
    requires bell { bell < 96 }
    ensures free { IsSeatOf lock.now seat.new × IsFree seat.new }
    ensures writer { (w : ℕ) → IsWriter (view seat.old) w → IsWriter (view seat.new) w }
{
    for _ in rt.forever() {
        let heard = lock.listen(seat, bell);
        if count(rt, lock, seat) >= entries {
            return;
        }
        lock.sleep(rt, bell, heard, Duration::from_secs(LONG_SECONDS));
    }
    unreachable!()
}

/// Enters, and makes so many entries, each after one of the other writer's. `me` is 0 or 1; the first writes first.
pub fn take_turns<R: Wait>(
    rt: &R,
    lock: &SeatLock<Diary>,
    seat: &mut Seat<Diary>,
    me: u32,
    turns: u32,
) -> Result<(), WantMemory>
    requires free { IsSeatOf lock.now seat.old × IsFree seat.old }
    requires me { me < 2 }
    ensures { IsSeatOf lock.now seat.new × IsFree seat.new }
{
    let other = 1 - me;
    let (writer, _) = enter(rt, lock, seat)?;
    lock.ring(seat, other);
    for turn in 0..turns {
        wait_for(rt, lock, seat, me, 2 + 2 * turn as u64 + me as u64);
        let entry = Note {
            writer,
            number: turn as u64 + 1,
        };
        write(rt, lock, seat, entry)?;
        lock.ring(seat, other);
    }
    Ok(())
}
