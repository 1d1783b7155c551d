//! Bells: who waits listens first, then looks under the lock, and sleeps only if there was nothing; who changes something
//! puts the core back and lets the front go first, and then rings. No clause speaks of waiting; a sleep ends after a second
//! at the latest.
ghost use Rattle.std.specs.Prelude.{◌≡◌};
ghost use Rattle.seat_lock.specs.Seats.{IsUnchanged};
ghost use Rattle.poa_shared.specs.Seats.{IsIdle};

use crate::bell::{Bell, SLOTS};
use crate::news::News;
use crate::shared::{Seat, Shared};
use outside::Alarm;
use poa_base::WantMemory;
use std::sync::Wait;
use std::time::Duration;

/// How many workers a run has at most.
const WORKERS: u32 = 16;

impl Shared {
    /// Says that one is about to wait at the bell; the answer is for `sleep`.
    pub fn listen(&self, seat: &mut Seat, bell: Bell) -> u32
        requires { IsIdle self.now seat.old }
        ensures same { IsUnchanged seat.old seat.new }
    {
        self.lock.listen(seat, bell.number())
    }

    /// Waits until the bell rings, where it didn't since `listen` gave `heard`; a second at most.
    pub fn sleep<R: Wait>(&self, rt: &R, bell: Bell, heard: u32) {
        self.lock
            .sleep(rt, bell.number(), heard, Duration::from_secs(1));
    }

    /// From now on replies for the connection ring its link's alarm.
    pub fn hang<R: Wait>(&self, rt: &R, conn: u32, alarm: Alarm) -> Result<(), WantMemory> {
        self.belfry.hang(rt, conn, alarm)
    }

    /// The connection's link is about to be let go.
    pub fn take_down<R: Wait>(&self, rt: &R, conn: u32) {
        self.belfry.take_down(rt, conn);
    }

    /// Says that a read of the connection's link is about to wait.
    pub fn attend(&self, conn: u32) {
        self.belfry.listen(conn);
    }

    /// Wakes one worker that sleeps, where one does.
    pub fn wake_worker(&self, seat: &mut Seat)
        requires { IsIdle self.now seat.old }
        ensures { IsUnchanged seat.old seat.new }
    {
        for worker in 0..WORKERS {
            if self.lock.ring(seat, Bell::Worker(worker).number()) {
                return;
            }
        }
    }

    /// Wakes another worker than this one, where one sleeps: this one is about to wait elsewhere than at its bell. What it
    /// was rung for, and what came with that, may still be there.
    pub fn wake_another(&self, seat: &mut Seat, worker: u32)
        requires { IsIdle self.now seat.old }
        ensures { IsUnchanged seat.old seat.new }
    {
        // While its own mark stands, a ring would stop there.
        self.lock.ring(seat, Bell::Worker(worker).number());
        self.wake_worker(seat);
    }

    /// Wakes all workers that sleep.
    pub fn wake_workers(&self, seat: &mut Seat)
        requires { IsIdle self.now seat.old }
        ensures { IsUnchanged seat.old seat.new }
    {
        for worker in 0..WORKERS {
            self.lock.ring(seat, Bell::Worker(worker).number());
        }
    }

    /// Wakes the sessions that wait for replies of a slot.
    fn wake_slot<R: Wait>(&self, rt: &R, seat: &mut Seat, slot: u32)
        requires { IsIdle self.now seat.old }
        ensures { IsUnchanged seat.old seat.new }
    {
        self.belfry.ring(rt, slot);
        self.lock.ring(seat, Bell::Connection(slot).number());
    }

    /// Wakes all that sleep: a shutdown was admitted, or a worker gave the run up.
    pub fn wake_all<R: Wait>(&self, rt: &R, seat: &mut Seat)
        requires { IsIdle self.now seat.old }
        ensures { IsUnchanged seat.old seat.new }
    {
        self.wake_workers(seat);
        for slot in 0..SLOTS {
            self.wake_slot(rt, seat, slot);
        }
    }

    /// Wakes the workers whom they concern.
    fn tell_workers(&self, seat: &mut Seat, news: &News)
        requires { IsIdle self.now seat.old }
        ensures { IsUnchanged seat.old seat.new }
    {
        if news.is_for_workers {
            self.wake_workers(seat);
        } else if news.is_for_worker {
            self.wake_worker(seat);
        }
    }

    /// Wakes those whom arrivals and turns concern.
    pub fn tell<R: Wait>(&self, rt: &R, seat: &mut Seat, news: &News)
        requires { IsIdle self.now seat.old }
        ensures { IsUnchanged seat.old seat.new }
    {
        if news.is_for_all {
            self.wake_all(rt, seat);
            return;
        }
        self.tell_workers(seat, news);
        if news.is_for_no_slot() {
            return;
        }
        for slot in 0..SLOTS {
            if news.is_for(slot) {
                self.wake_slot(rt, seat, slot);
            }
        }
    }
}
