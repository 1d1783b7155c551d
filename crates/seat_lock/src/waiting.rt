//! Sleeping until one's turn, and waking the next in line.
//!
//! A thread sleeps on the word of its ticket, and there are 64 such words, so each turn wakes one thread alone unless more than 64 wait. A word's low bit says that a thread
//! sleeps or is about to; the rest counts the wakes. Who waits sets the bit, looks once more, and sleeps only while the word is as it left it. Who passes the turn on raises
//! the number served first and reads the word then, so one of the two sees what the other did. Each wake makes the word a number that it never was: with a plain flag,
//! two tickets that share a word can mark it, clear it and mark it again, and the first one sleeps for ever on a flag that looks the same.
ghost use Rattle.std.specs.Prelude.{◌≡◌, ◌<◌, ◌≤◌, ◌∷◌, true, false, Some};
ghost use Rattle.seat_lock.specs.Seats.{view, IsSame, IsSeatOf, IsUnchanged};
ghost use Rattle.seat_lock.specs.Steps.{IsTurned};
ghost use Rattle.seat_lock.specs.declared.view.Stage.TheVariants.{Waiting};

use crate::chronicle::Chronicle;
use crate::lock::{Seat, SeatLock};
use crate::plays::{Look, Mark};
use crate::words::{FIRST_BELL, FIRST_LANE, LANES, LINE, NEXT, SERVED, WORDS};
use std::hint;
use std::sync::Wait;

/// How many in line look for a while before they sleep: a turn that passes between threads that look costs a tenth of one that has to wake a thread.
const NEAR: u64 = 3;

/// How often they look. That is some ten microseconds, about what it takes to wake a thread, so the line comes to rest again after one that slept.
const SPINS: u32 = 400;

impl<T: Chronicle> SeatLock<T> {
    /// The word on which the holder of a ticket sleeps.
    fn lane_of(&self, ticket: u64) -> usize
        ensures { (2 ≤ result) × (result < FIRST_BELL) }
    {
        FIRST_LANE + LINE * ((ticket % LANES) as usize)
    }

    /// Looks for a little while, if the ticket is one of the next few.
    fn spin(&self, ticket: u64) {
        for _ in 0..SPINS {
            let ahead = ticket.wrapping_sub(self.table.shared.peek(SERVED));
            if ahead == 0 || NEAR < ahead {
                return;
            }
            hint::spin_loop();
        }
    }

    /// Whether the ticket is served. If so, the value is the seat's.
    fn look(&self, seat: &mut Seat<T>, ticket: u64) -> bool
        requires lock { IsSeatOf self.now seat.old }
        requires waits { ((view seat.old).stage ≡ Waiting) × ((view seat.old).ticket ≡ ticket) }
        ensures lock { IsSame seat.old seat.new }
        ensures turn { result ≡ true → IsTurned T.givens T.history T.owner seat.old.me ticket seat.new.me }
        ensures no { result ≡ false → seat.new.me ≡ seat.old.me }
    {
        self.table.shared.load::<Look>(seat, SERVED) == ticket
    }

    /// Says that one sleeps on the word, and gives the word's low half as it stands then.
    pub(crate) fn mark(&self, seat: &mut Seat<T>, word: usize) -> u32
        requires lock { IsSeatOf self.now seat.old }
        requires word { (2 ≤ word) × (word < WORDS) }
        ensures { IsUnchanged seat.old seat.new }
    {
        let found = self.table.shared.fetch_or::<Mark>(seat, word, 1);
        ((found | 1) % (1 << 32)) as u32
    }

    /// Wakes those who sleep on the word, and answers whether it was marked.
    pub(crate) fn wake(&self, seat: &mut Seat<T>, word: usize) -> bool
        requires lock { IsSeatOf self.now seat.old }
        requires word { (2 ≤ word) × (word < WORDS) }
        ensures { IsUnchanged seat.old seat.new }
    {
        let shared = &self.table.shared;
        if shared.peek(word) % 2 == 0 {
            return false;
        }
        shared.fetch_add::<Mark>(seat, word, 1);
        shared.wake_all(word);
        true
    }

    /// Wakes the holder of the ticket, if it sleeps.
    fn call(&self, seat: &mut Seat<T>, ticket: u64)
        requires { IsSeatOf self.now seat.old }
        ensures { IsUnchanged seat.old seat.new }
    {
        self.wake(seat, self.lane_of(ticket));
    }

    /// Wakes the holder of the ticket that is served now, and ahead the one after it. Nobody is called where no more tickets are drawn: who draws one later finds this number served.
    pub(crate) fn call_next(&self, seat: &mut Seat<T>, served: u64)
        requires { IsSeatOf self.now seat.old }
        ensures { IsUnchanged seat.old seat.new }
    {
        if self.table.shared.peek(NEXT) != served {
            self.call(seat, served);
            self.call(seat, served.wrapping_add(1));
        }
    }

    /// Waits until the ticket is served.
    pub(crate) fn wait_for<R: Wait>(&self, rt: &R, seat: &mut Seat<T>, ticket: u64)
        requires lock { IsSeatOf self.now seat.old }
        requires waits { ((view seat.old).stage ≡ Waiting) × ((view seat.old).ticket ≡ ticket) }
        ensures lock { IsSame seat.old seat.new }
        ensures turn { IsTurned T.givens T.history T.owner seat.old.me ticket seat.new.me }
    {
        if !self.look(seat, ticket) {
            self.sleep_until(rt, seat, ticket);
        }
    }

    /// The same, once the ticket was found not to be served.
    #[cold]
    #[inline(never)]
    fn sleep_until<R: Wait>(&self, rt: &R, seat: &mut Seat<T>, ticket: u64)
        requires lock { IsSeatOf self.now seat.old }
        requires waits { ((view seat.old).stage ≡ Waiting) × ((view seat.old).ticket ≡ ticket) }
        ensures lock { IsSame seat.old seat.new }
        ensures turn { IsTurned T.givens T.history T.owner seat.old.me ticket seat.new.me }
    {
        let lane = self.lane_of(ticket);
        for _ in rt.forever() {
            self.spin(ticket);
            if self.look(seat, ticket) {
                return;
            }
            let expected = self.mark(seat, lane);
            if self.look(seat, ticket) {
                return;
            }
            self.table.shared.park(rt, lane, expected);
        }
        unreachable!()
    }
}
