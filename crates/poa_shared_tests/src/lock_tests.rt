//! Real threads over one diary.

use crate::diary::{Diary, Note};
use crate::turns::take_turns;
use crate::writers::{Made, write_all};
use seat_lock::SeatLock;
use std::alloc::{AllocError, Global};
use std::sync::Wait;
use std::test::Fail;
use std::thread;
use std::thread::Threads;
use std::time::Duration;

/// Lets so many threads write, and gives the diary with what each of them says that it made.
fn written<R: Threads + Wait + Sync>(
    rt: &R,
    alloc: Global,
    writers: u32,
    notes: u64,
) -> Result<(Diary, Vec<Made>), AllocError> {
    let (lock, seat) = SeatLock::new(alloc, Diary::new(alloc))?;
    let (mut seat, made) = write_all(rt, alloc, &lock, seat, writers.min(1024), notes);
    let diary = lock.take(rt, &mut seat);
    Ok((diary, made?))
}

/// Marks the place, if it isn't marked yet.
fn mark(found: &mut [bool], at: usize) -> bool {
    match found.get_mut(at) {
        Some(place) if !*place => {
            *place = true;
            true
        }
        _ => false,
    }
}

/// Whether the writer's positions are those of its entries, in their order, and nobody else's.
fn marks_its_own(diary: &Diary, found: &mut [bool], one: &Made) -> bool {
    let mut least = 0;
    for (number, at) in one.positions.iter().enumerate() {
        let wanted = Note {
            writer: one.writer,
            number: number as u64,
        };
        let here = *at as usize;
        if *at < least || diary.notes.get(here) != Some(&wanted) || !mark(found, here) {
            return false;
        }
        least = *at;
    }
    true
}

/// Whether each entry is there once, and each writer made so many.
fn is_whole(
    alloc: Global,
    diary: &Diary,
    made: &[Made],
    entries: usize,
) -> Result<bool, AllocError> {
    let mut found = Vec::from_elem(alloc, false, diary.notes.len())?;
    for one in made {
        if one.positions.len() != entries || !marks_its_own(diary, found.as_mut_slice(), one) {
            return Ok(false);
        }
    }
    Ok(found.iter().all(|there| *there))
}

#[test]
fn two_threads_write_each_entry_once(rt: HostRuntime) -> Result<(), Fail> {
    let (diary, made) = written(&rt, rt.alloc(), 2, 2000)?;
    assert!(rt; made.len() == 2 && is_whole(rt.alloc(), &diary, made.as_slice(), 2001)?);
    Ok(())
}

#[test]
fn sixteen_threads_write_each_entry_once(rt: HostRuntime) -> Result<(), Fail> {
    let (diary, made) = written(&rt, rt.alloc(), 16, 500)?;
    assert!(rt; made.len() == 16 && is_whole(rt.alloc(), &diary, made.as_slice(), 501)?);
    Ok(())
}

#[test]
fn sixty_four_threads_write_each_entry_once(rt: HostRuntime) -> Result<(), Fail> {
    let (diary, made) = written(&rt, rt.alloc(), 64, 200)?;
    assert!(rt; made.len() == 64 && is_whole(rt.alloc(), &diary, made.as_slice(), 201)?);
    Ok(())
}

// More threads than there are words on which they sleep, so that several share a word.
#[test]
fn two_hundred_threads_share_the_words(rt: HostRuntime) -> Result<(), Fail> {
    let (diary, made) = written(&rt, rt.alloc(), 200, 50)?;
    assert!(rt; made.len() == 200 && is_whole(rt.alloc(), &diary, made.as_slice(), 51)?);
    Ok(())
}

/// Two threads take turns. Each sleeps at its own bell.
fn by_turns<R: Threads + Wait + Sync>(
    rt: &R,
    alloc: Global,
    turns: u32,
) -> Result<Diary, AllocError> {
    let (lock, mut seat) = SeatLock::new(alloc, Diary::new(alloc))?;
    let mut first = lock.split(&mut seat);
    let mut second = lock.split(&mut seat);
    let (one, two) = thread::join(
        rt,
        || take_turns(rt, &lock, &mut first, 0, turns),
        || take_turns(rt, &lock, &mut second, 1, turns),
    );
    one?;
    two?;
    Ok(lock.take(rt, &mut seat))
}

#[test]
fn writers_take_turns_by_bells(rt: HostRuntime) -> Result<(), Fail> {
    let diary = by_turns(&rt, rt.alloc(), 3000)?;
    assert!(rt; diary.notes.len() == 6002);
    let first = diary.notes[2].writer;
    let in_turn = (2..diary.notes.len()).all(|at| (diary.notes[at].writer == first)
        == (at % 2 == 0));
    assert!(rt; in_turn);
    Ok(())
}

// A ring changes the number that was heard, so a sleep that comes after it returns at once.
#[test]
fn a_ring_outdates_what_was_heard(rt: HostRuntime) -> Result<(), Fail> {
    let alloc = rt.alloc();
    let (lock, mut seat) = SeatLock::new(alloc, Diary::new(alloc))?;
    assert!(rt; !lock.ring(&mut seat, 95));
    let heard = lock.listen(&mut seat, 95);
    assert!(rt; lock.listen(&mut seat, 95) == heard);
    assert!(rt; lock.ring(&mut seat, 95));
    assert!(rt; !lock.ring(&mut seat, 95));
    lock.sleep(&rt, 95, heard, Duration::from_secs(600));
    assert!(rt; lock.listen(&mut seat, 95) != heard);
    Ok(())
}

// A sleep at a bell that nobody rings ends with its time.
#[test]
fn a_sleep_ends_with_its_time(rt: HostRuntime) -> Result<(), Fail> {
    let alloc = rt.alloc();
    let (lock, mut seat) = SeatLock::new(alloc, Diary::new(alloc))?;
    let heard = lock.listen(&mut seat, 0);
    lock.sleep(&rt, 0, heard, Duration::from_millis(5));
    assert!(rt; lock.ring(&mut seat, 0));
    Ok(())
}
