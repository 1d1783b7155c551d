//! The alarms of links that wait for input and for replies at once.
use crate::bell::SLOTS;
use outside::Alarm;
use poa_base::WantMemory;
use std::alloc::Global;
use std::sync::atomic::{AtomicBool, Ordering};
use std::sync::{Mutex, Wait};

/// The alarms of the connections that share a slot.
#[derive(Drop)]
struct Slot {
    /// Whether one of them may wait.
    listens: AtomicBool,
    alarms: Mutex<Vec<(u32, Alarm)>>,
}

/// The alarms of all connections that are served.
#[derive(Drop)]
pub(crate) struct Belfry {
    slots: Vec<Slot>,
}

impl Belfry {
    /// A belfry without alarms.
    pub(crate) fn new(alloc: Global) -> Result<Belfry, WantMemory> {
        let mut slots = Vec::with_capacity(alloc, SLOTS as usize)?;
        for _ in 0..SLOTS {
            slots.push(Slot {
                listens: AtomicBool::new(false),
                alarms: Mutex::new(Vec::new(alloc)),
            })?;
        }
        Ok(Belfry { slots })
    }

    /// Hangs the alarm of a connection's link.
    pub(crate) fn hang<R: Wait>(&self, rt: &R, conn: u32, alarm: Alarm) -> Result<(), WantMemory> {
        if let Some(slot) = self.slots.get((conn % SLOTS) as usize) {
            slot.alarms.lock(rt).push((conn, alarm))?;
        }
        Ok(())
    }

    /// Takes the alarm of a connection down.
    pub(crate) fn take_down<R: Wait>(&self, rt: &R, conn: u32) {
        if let Some(slot) = self.slots.get((conn % SLOTS) as usize) {
            slot.alarms.lock(rt).retain(|(other, _)| *other != conn);
        }
    }

    /// Says that the connection's link is about to wait.
    pub(crate) fn listen(&self, conn: u32) {
        if let Some(slot) = self.slots.get((conn % SLOTS) as usize) {
            slot.listens.store(true, Ordering::SeqCst);
        }
    }

    /// Rings the alarms of a slot, where one of its links waits or is about to.
    pub(crate) fn ring<R: Wait>(&self, rt: &R, slot: u32) {
        if let Some(slot) = self.slots.get((slot % SLOTS) as usize) {
            if slot.listens.load(Ordering::SeqCst) && slot.listens.swap(false, Ordering::SeqCst) {
                for (_, alarm) in slot.alarms.lock(rt).iter() {
                    alarm.ring();
                }
            }
        }
    }
}
