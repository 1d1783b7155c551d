//! Many threads that write one diary.
ghost use Rattle.std.specs.Prelude.{◌≡◌, ◌+◌, ◌++◌, ◌<◌, ◌≤◌, IfOk};
ghost use Rattle.std.specs.Thread.{IsSync};
ghost use Rattle.seat_lock.specs.Seats.{view, IsFree, IsSeatOf};

use crate::diary::{Diary, Note};
use crate::shared::{enter, write};
use seat_lock::{Seat, SeatLock, WantMemory};
use std::alloc::Global;
use std::sync::Wait;
use std::thread;
use std::thread::Threads;

/// What one writer made: the positions of its entries, in their order.
#[derive(Drop)]
pub struct Made {
    pub writer: u64,
    pub positions: Vec<u64>,
}

/// Enters a writer and makes so many entries more. Gives the positions of them all, which are what the seat made.
pub fn write_one<R: Wait>(
    rt: &R,
    alloc: Global,
    lock: &SeatLock<Diary>,
    seat: &mut Seat<Diary>,
    notes: u64,
) -> Result<Made, WantMemory>
    requires { IsSeatOf lock.now seat.old × IsFree seat.old }
    ensures free { IsSeatOf lock.now seat.new × IsFree seat.new }
    ensures room { (view seat.new).room ≡ (view seat.old).room }
    ensures made { IfOk result
        (λ made. (view seat.new).mine ≡ (view seat.old).mine ++ made.positions.items) }
{
    let mut positions = Vec::new(alloc);
    let (writer, first) = enter(rt, lock, seat)?;
    positions.push(first)?;
    for number in 0..notes {
        let entry = Note {
            writer,
            number: number + 1,
        };
        positions.push(write(rt, lock, seat, entry)?)?;
    }
    Ok(Made { writer, positions })
}

/// As many threads at once as there are writers, each with a seat of its own. All seats are joined in the end.
pub fn write_all<R: Threads + Wait + Sync>(
    rt: &R,
    alloc: Global,
    lock: &SeatLock<Diary>,
    mut seat: Seat<Diary>,
    writers: u32,
    notes: u64,
) -> (Seat<Diary>, Result<Vec<Made>, WantMemory>)
    requires seat { IsSeatOf lock.now seat × IsFree seat }
    requires room { writers ≤ (view seat).room }
    ensures free { IsSeatOf lock.now result.0 × IsFree result.0 }
    ensures room { (view result.0).room ≡ (view seat).room }
{
    if writers == 0 {
        return (seat, Ok(Vec::new(alloc)));
    }
    let mut other = lock.split(&mut seat);
    let ((other, one), (mut seat, more)) = thread::join(
        rt,
        move || -> (Seat<Diary>, Result<Made, WantMemory>)
            requires { IsSeatOf lock.now other × IsFree other }
            ensures { IsSeatOf lock.entry.now result.0 × IsFree result.0
                × ((view result.0).room ≡ (view other).room) }
        {
            let made = write_one(rt, alloc, lock, &mut other, notes);
            (other, made)
        },
        move || -> (Seat<Diary>, Result<Vec<Made>, WantMemory>)
            requires { IsSync R.row × IsSeatOf lock.now seat × IsFree seat × (0 < writers)
                × (writers ≤ (view seat).room + 1) }
            ensures { IsSeatOf lock.entry.now result.0 × IsFree result.0
                × ((view result.0).room ≡ (view seat).room) }
        { write_all(rt, alloc, lock, seat, writers - 1, notes) },
    );
    lock.join(&mut seat, other);
    (seat, both(one, more))
}

fn both(
    one: Result<Made, WantMemory>,
    more: Result<Vec<Made>, WantMemory>,
) -> Result<Vec<Made>, WantMemory> {
    let one = one?;
    let mut all = more?;
    all.push(one)?;
    Ok(all)
}
