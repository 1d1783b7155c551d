//! A door in memory.
ghost use Rattle.std.specs.Prelude.{◌≡◌, [], Some, IfOk};

use crate::memory_link::MemLink;
use outside::{Acceptor, Door};
use poa_base::{Session, WantMemory};
use std::alloc::Global;
use std::collections::VecDeque;
use std::marker::Model;

/// Gives the links of a list, one after the other, with a list of the calls of `next` that fail, and keeps those
/// that are given back. The room for these is made with the door.
#[derive(Drop)]
pub struct MemDoor {
    links: VecDeque<MemLink>,
    failing: Vec<u64>,
    calls: u64,
    faults: u64,
    ends: u64,
    out: usize,
    back: Vec<(MemLink, Session)>,
}

impl Model for MemDoor {
    ghost use Rattle.std.specs.Prelude.{◌+◌, ◌≤◌, length, vec_len, vec_capacity};
    ghost use Rattle.poad_cases.specs.Porch.{Porch};

    ghost Value = { Porch };

    ghost view = { λ d. record {
      standing = record { left = d.links.items; out = d.out; back = d.back.items };
      faults = d.faults;
      ends = d.ends;
    } };

    ghost invariant = { λ d. length d.links.items + d.out + vec_len d.back ≤ vec_capacity d.back };
}

impl MemDoor {
    /// A door to these links. `failing` lists the calls of `next` that fail, counted from 0. `WantMemory` where no
    /// memory was left for those that are given back.
    pub fn new(alloc: Global, links: Vec<MemLink>, failing: Vec<u64>) -> Result<Self, WantMemory>
        ensures { IfOk result (λ d. d ≡ record { standing = record { left = links.items; out = 0; back = [] }; faults = 0; ends = 0 }) }
    {
        let back = Vec::with_capacity(alloc, links.len())?;
        Ok(MemDoor {
            links: VecDeque::from_vec(links),
            failing,
            calls: 0,
            faults: 0,
            ends: 0,
            out: 0,
            back,
        })
    }

    /// The links given back, with how their sessions ended, in their order.
    pub fn returned(&self) -> &[(MemLink, Session)]
        ensures { result.now ≡ self.now.standing.back }
    {
        self.back.as_slice()
    }
}

impl Acceptor for MemDoor {
    type Link = MemLink;

    ghost standing = { λ d. Some d.standing };

    ghost faults = { λ d. d.faults };

    ghost quiets = { λ _. 0 };

    ghost ends = { λ d. d.ends };

    fn next(&mut self) -> Door<MemLink> {
        let call = self.calls;
        self.calls = call.saturating_add(1);
        if self.failing.contains(&call) {
            self.faults = self.faults.saturating_add(1);
            return Door::Failed;
        }
        let Some(link) = self.links.pop_front() else {
            self.ends = self.ends.saturating_add(1);
            return Door::End;
        };
        self.out += 1;
        Door::Link(link)
    }

    fn give_back(&mut self, link: MemLink, session: Session) {
        self.out -= 1;
        self.back.push_reserved((link, session));
    }
}
