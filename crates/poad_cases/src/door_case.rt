//! What is asked of a door.
use crate::link_case::LinkCase;
use crate::memory_door::MemDoor;
use crate::signal::Signal;
use anyhow::Result;
use std::alloc::Global;

/// The links that come in at a door, and which calls of it fail.
#[derive(Drop)]
pub struct DoorCase {
    alloc: Global,
    pub links: Vec<LinkCase>,
    pub failing: Vec<u64>,
}

impl DoorCase {
    /// A door at which nobody comes in, and of which no call fails.
    pub fn new(alloc: Global) -> Self {
        DoorCase {
            alloc,
            links: Vec::new(alloc),
            failing: Vec::new(alloc),
        }
    }

    /// The door. Its links raise the signal, if there is one, when so many bytes were written to them.
    pub fn door(&self, hold: Option<(&Signal, usize)>) -> Result<MemDoor> {
        let mut links = Vec::new(self.alloc);
        for link in &self.links {
            links.push(link.link(hold)?)?;
        }
        Ok(MemDoor::new(self.alloc, links, self.failing.clone()?)?)
    }
}
