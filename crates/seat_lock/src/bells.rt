//! Bells: sleeping until there may be something to do, for callers that found nothing under the lock.
//!
//! Who waits listens first, then looks under the lock, and sleeps only if it found nothing. Who changes something puts the value back first, and then rings. So either the look sees the change,
//! or the sleep sees the ring.
ghost use Rattle.std.specs.Prelude.{◌≡◌, ◌<◌, ◌≤◌};
ghost use Rattle.seat_lock.specs.Seats.{IsSeatOf, IsUnchanged};

use crate::chronicle::Chronicle;
use crate::lock::{Seat, SeatLock};
use crate::words::{BELLS, FIRST_BELL, LINE, WORDS};
use std::sync::Wait;
use std::time::Duration;

impl<T: Chronicle> SeatLock<T> {
    /// The word of a bell.
    fn word_of(&self, bell: u32) -> usize
        requires { bell < BELLS }
        ensures { (2 ≤ result) × (result < WORDS) }
    {
        FIRST_BELL + LINE * (bell as usize)
    }

    /// Says that one is about to sleep at the bell. The answer is for `sleep`: any ring from now on makes it outdated.
    pub fn listen(&self, seat: &mut Seat<T>, bell: u32) -> u32
        requires lock { IsSeatOf self.now seat.old }
        requires bell { bell < BELLS }
        ensures { IsUnchanged seat.old seat.new }
    {
        self.mark(seat, self.word_of(bell))
    }

    /// Sleeps until the bell rings, for `most` at most. It returns at once if the bell rang since the `listen` that gave `heard`, and may return for no reason.
    pub fn sleep<R: Wait>(&self, rt: &R, bell: u32, heard: u32, most: Duration)
        requires { bell < BELLS }
    {
        self.table
            .shared
            .park_timeout(rt, self.word_of(bell), heard, most);
    }

    /// Wakes those who sleep at the bell or are about to. Answers whether there may be one: exactly where someone listened since the last ring.
    pub fn ring(&self, seat: &mut Seat<T>, bell: u32) -> bool
        requires lock { IsSeatOf self.now seat.old }
        requires bell { bell < BELLS }
        ensures { IsUnchanged seat.old seat.new }
    {
        self.wake(seat, self.word_of(bell))
    }
}
