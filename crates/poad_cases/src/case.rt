//! What is asked of a command or of a run of the server.
ghost use Rattle.std.specs.Prelude.{◌≡◌, IfOk, vec_len};

use crate::dial_case::DialCase;
use crate::door_case::DoorCase;
use crate::link_case::LinkCase;
use crate::memory_door::MemDoor;
use crate::signal::Signal;
use anyhow::{Context, Result};
use poad_cmd::Doors;
use std::alloc::Global;

/// The words of a command line, standard input and output, the doors, what fails, and what is printed beside the doors.
#[derive(Drop)]
pub struct Case {
    pub alloc: Global,
    /// The line with which it began.
    pub title: Vec<u8>,
    pub words: Vec<String>,
    pub streams: LinkCase,
    /// The links that `call` opens.
    pub dials: Vec<DialCase>,
    pub lanes: Vec<DoorCase>,
    pub administrators: DoorCase,
    /// Whether the administrators' door is in work, and not the last lane.
    pub is_at_administrators: bool,
    pub failing_takes: Vec<u64>,
    pub failing_puts: Vec<u64>,
    pub failing_starts: Vec<u64>,
    /// How many bytes are to be written to a link until the first worker that serves goes on.
    pub held_for: Option<usize>,
    /// Whether what was written to the lanes is printed together.
    pub is_together: bool,
    /// How many calls the run of a script takes, where that isn't the most.
    pub limit: Option<u64>,
    /// The name under which the journal is kept that a script prints; what the command writes isn't printed then.
    pub kept: Option<String>,
    /// The kinds of entries whose numbers are printed, or none of them for all kinds.
    pub counted: Option<Vec<String>>,
    /// The kinds of entries whose order is printed.
    pub ordered: Vec<String>,
    /// Whether what is stored is printed.
    pub has_store: bool,
    /// The files whose contents are printed.
    pub contents: Vec<String>,
}

impl Case {
    /// A case with no words and no doors, in which nothing fails.
    pub fn new(alloc: Global, title: Vec<u8>) -> Self {
        Case {
            alloc,
            title,
            words: Vec::new(alloc),
            streams: LinkCase::new(alloc),
            dials: Vec::new(alloc),
            lanes: Vec::new(alloc),
            administrators: DoorCase::new(alloc),
            is_at_administrators: false,
            failing_takes: Vec::new(alloc),
            failing_puts: Vec::new(alloc),
            failing_starts: Vec::new(alloc),
            held_for: None,
            is_together: false,
            limit: None,
            kept: None,
            counted: None,
            ordered: Vec::new(alloc),
            has_store: false,
            contents: Vec::new(alloc),
        }
    }

    /// The door in work.
    pub fn door(&mut self) -> Result<&mut DoorCase> {
        if self.is_at_administrators {
            return Ok(&mut self.administrators);
        }
        self.lanes.last_mut().context("no door yet")
    }

    /// The link in work: where no door is the last that `call` opens, or standard input and output.
    pub fn link(&mut self) -> Result<&mut LinkCase> {
        if self.is_at_administrators || !self.lanes.is_empty() {
            return self.door()?.links.last_mut().context("no link yet");
        }
        match self.dials.last_mut() {
            Some(dial) => Ok(&mut dial.link),
            None => Ok(&mut self.streams),
        }
    }

    /// Whether its words begin with this one.
    pub fn is_of(&self, command: &str) -> bool {
        self.words
            .first()
            .is_some_and(|word| word.as_str() == command)
    }

    /// The doors, with so many lanes. A link raises the signal, if there is one, when the worker that is held may go on.
    pub fn doors(&self, count: u32, signal: Option<&Signal>) -> Result<Doors<MemDoor>>
        ensures { IfOk result (λ doors. vec_len doors.lanes ≡ count) }
    {
        let hold = signal.zip(self.held_for);
        let mut lanes = Vec::new(self.alloc);
        while lanes.len() < count as usize {
            let lane = match self.lanes.get(lanes.len()) {
                Some(door) => door.door(hold)?,
                None => DoorCase::new(self.alloc).door(hold)?,
            };
            lanes.push(lane)?;
        }
        let admin = self.administrators.door(hold)?;
        Ok(Doors { admin, lanes })
    }
}
