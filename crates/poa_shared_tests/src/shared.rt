//! A diary under the lock. Each call takes it once and puts it back once.
ghost use Rattle.std.specs.Prelude.{◌≡◌, IfOk, OnErr, length, ℕ};
ghost use Rattle.seat_lock.specs.Seats.{view, IsFree, IsSeatOf};
ghost use Rattle.poa_shared_tests.specs.Notes.{note, IsWriter, Makes};

use crate::diary::{Diary, Note};
use seat_lock::{Seat, SeatLock, WantMemory};
use std::sync::Wait;

/// Enters a new writer. Gives its number and the position of its first entry.
pub fn enter<R: Wait>(
    rt: &R,
    lock: &SeatLock<Diary>,
    seat: &mut Seat<Diary>,
) -> Result<(u64, u64), WantMemory>
    requires { IsSeatOf lock.now seat.old × IsFree seat.old }
    ensures free { IsSeatOf lock.now seat.new × IsFree seat.new }
    ensures ok { IfOk result (λ r. Makes (view seat.old) (note r.0 0) r.1 (view seat.new)) }
    ensures writer { IfOk result (λ r. IsWriter (view seat.new) r.0) }
    ensures err { OnErr result
        (((view seat.new).mine ≡ (view seat.old).mine)
        × ((view seat.new).room ≡ (view seat.old).room)) }
{
    let mut diary = lock.take(rt, seat);
    let at = diary.notes.len() as u64;
    let entered = diary.enter();
    lock.put(seat, diary);
    Ok((entered?, at))
}

/// Makes an entry of a writer whose first entry the seat made. Gives its position.
pub fn write<R: Wait>(
    rt: &R,
    lock: &SeatLock<Diary>,
    seat: &mut Seat<Diary>,
    entry: Note,
) -> Result<u64, WantMemory>
    requires free { IsSeatOf lock.now seat.old × IsFree seat.old }
    requires writer { IsWriter (view seat.old) entry.writer }
    ensures free { IsSeatOf lock.now seat.new × IsFree seat.new }
    ensures ok { IfOk result (λ at. Makes (view seat.old) entry at (view seat.new)) }
    ensures writer { IsWriter (view seat.new) entry.writer }
    ensures err { OnErr result
        (((view seat.new).mine ≡ (view seat.old).mine)
        × ((view seat.new).room ≡ (view seat.old).room)) }
{
    let mut diary = lock.take(rt, seat);
    let at = diary.notes.len() as u64;
    let added = diary.add(entry);
    lock.put(seat, diary);
    added?;
    Ok(at)
}

/// How many entries there are.
pub fn count<R: Wait>(rt: &R, lock: &SeatLock<Diary>, seat: &mut Seat<Diary>) -> u64
    requires { IsSeatOf lock.now seat.old × IsFree seat.old }
    ensures free { IsSeatOf lock.now seat.new × IsFree seat.new }
    ensures count { result ≡ length (view seat.new).seen }
    ensures same { ((view seat.new).mine ≡ (view seat.old).mine)
        × ((view seat.new).room ≡ (view seat.old).room) }
    ensures writer { (w : ℕ) → IsWriter (view seat.old) w → IsWriter (view seat.new) w }
{
    let diary = lock.take(rt, seat);
    let count = diary.notes.len() as u64;
    lock.put(seat, diary);
    count
}
