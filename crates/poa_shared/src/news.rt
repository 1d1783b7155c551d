//! Whom a turn concerns.
use crate::bell::SLOTS;
use core_outboxes::Fresh;
use poa_core::Phase;

// The bits of `Fresh::others` are those of slots.
const _: () = prove!(SLOTS == 64);

/// Whom to wake after arrivals and turns, once the place before the lock is let go.
#[derive(Clone, Copy, Drop)]
pub struct News {
    /// The connection of the one who tells: he looks for its replies himself.
    own: Option<u32>,
    /// A bit for each slot of connections.
    pub(crate) slots: u64,
    /// Whether one worker may have something to do.
    pub(crate) is_for_worker: bool,
    /// Whether every worker may have something to do.
    pub(crate) is_for_workers: bool,
    /// Whether everybody is concerned.
    pub(crate) is_for_all: bool,
    /// Whether it is seen that the worker of the turn makes no entry behind it.
    pub(crate) is_last_turn: bool,
}

impl News {
    /// Nobody.
    pub fn none() -> News {
        News {
            own: None,
            slots: 0,
            is_for_worker: false,
            is_for_workers: false,
            is_for_all: false,
            is_last_turn: false,
        }
    }

    /// Nobody, and nobody by replies on this connection, which is that of the one who tells.
    pub fn besides(conn: u32) -> News {
        News {
            own: Some(conn),
            ..News::none()
        }
    }

    /// Notes that a call arrived, which any worker may admit.
    pub fn note_call(&mut self) {
        self.is_for_worker = true;
    }

    /// Whether calls arrived for which no worker has looked yet.
    pub fn has_calls(&self) -> bool {
        self.is_for_worker
    }

    /// Notes that no worker has anything to do.
    pub fn note_idle(&mut self) {
        self.is_for_worker = false;
        self.is_for_workers = false;
    }

    /// Notes to whom an entry gave replies, and whether it is seen that its worker makes none behind it. A command may have made
    /// calls ready for any worker.
    pub(crate) fn note(&mut self, fresh: Fresh, is_last_turn: bool) {
        if let Some(conn) = fresh.first {
            if self.own != Some(conn) {
                self.slots |= 1 << (conn % SLOTS);
            }
        }
        self.slots |= fresh.others;
        self.is_for_workers |= fresh.has_answer;
        self.is_last_turn = is_last_turn;
    }

    /// Notes the phase before and after a turn: that a shutdown was admitted concerns everybody.
    pub(crate) fn note_phase(&mut self, before: Phase, after: Phase) {
        if before != after {
            self.is_for_all = true;
        }
    }

    /// Whether no connection is concerned.
    pub(crate) fn is_for_no_slot(&self) -> bool {
        self.slots == 0
    }

    /// Whether a slot of connections is concerned.
    pub(crate) fn is_for(&self, slot: u32) -> bool {
        (self.slots >> (slot % SLOTS)) & 1 == 1
    }
}
