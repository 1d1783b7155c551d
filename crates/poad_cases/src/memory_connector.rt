//! A connector in memory.
ghost use Rattle.std.specs.Prelude.{◌≡◌, ◌∷◌, [], Some, IfOk, MatchOption};

use crate::memory_link::MemLink;
use crate::next_link::{NextLink, Opening};
use outside::{Connector, Opened};
use poa_base::{Endpoint, WantMemory};
use std::alloc::Global;
use std::collections::VecDeque;
use std::marker::Model;

/// Opens the links of a list, in their order, and keeps those that are closed. A dial to another endpoint than that of the
/// next link is a fault. The room for what is opened and closed is made with the connector.
#[derive(Drop)]
pub struct MemConnector {
    alloc: Global,
    left: VecDeque<NextLink>,
    opened: Vec<Opening>,
    closed: Vec<MemLink>,
    dial_faults: u64,
    read_faults: u64,
    write_faults: u64,
    quiets: u64,
}

impl Model for MemConnector {
    ghost use Rattle.std.specs.Prelude.{◌+◌, ◌≤◌, length, vec_len, vec_capacity};
    ghost use Rattle.poad_cases.specs.Wires.{Wires, calls_of};

    ghost Value = { Wires };

    ghost view = { λ c. record {
      calls = calls_of c.opened.items c.closed.items;
      tally = record {
        dial_faults = c.dial_faults;
        read_faults = c.read_faults;
        write_faults = c.write_faults;
        quiets = c.quiets;
      };
    } };

    ghost invariant = { λ c. (length c.left.items + vec_len c.opened ≤ vec_capacity c.opened)
        × (length c.left.items + vec_len c.opened ≤ vec_capacity c.closed) × (vec_len c.closed ≤ vec_len c.opened) };
}

impl MemConnector {
    /// A connector of these links. `WantMemory` where no memory was left for those that are opened and closed.
    pub fn new(alloc: Global, links: Vec<NextLink>) -> Result<Self, WantMemory> {
        let opened = Vec::with_capacity(alloc, links.len())?;
        let closed = Vec::with_capacity(alloc, links.len())?;
        Ok(MemConnector {
            alloc,
            left: VecDeque::from_vec(links),
            opened,
            closed,
            dial_faults: 0,
            read_faults: 0,
            write_faults: 0,
            quiets: 0,
        })
    }

    /// The links that were opened, in their order.
    pub fn opened(&self) -> &[Opening] {
        self.opened.as_slice()
    }

    /// The links that were closed, in their order.
    pub fn closed(&self) -> &[MemLink] {
        self.closed.as_slice()
    }
}

impl Connector for MemConnector {
    type Link = MemLink;

    ghost calls = { λ c. Some c.calls };

    ghost tally = { λ c. c.tally };

    fn dial(&mut self, endpoint: &Endpoint) -> Opened<MemLink> {
        let Some(next) = next_to(&mut self.left, endpoint) else {
            self.dial_faults = self.dial_faults.saturating_add(1);
            return Opened::Failed;
        };
        let (opening, link) = next.open(self.alloc, endpoint);
        self.opened.push_reserved(opening);
        Opened::Link(link)
    }

    fn close(&mut self, link: MemLink) {
        let counts = link.counts();
        self.read_faults = self.read_faults.saturating_add(counts.read_faults);
        self.write_faults = self.write_faults.saturating_add(counts.write_faults);
        self.quiets = self.quiets.saturating_add(counts.quiets);
        self.closed.push_reserved(link);
    }
}

// The next link, where it is to this endpoint.
fn next_to(left: &mut VecDeque<NextLink>, endpoint: &Endpoint) -> Option<NextLink>
    ensures { MatchOption result (left.new.items ≡ left.old.items) (λ next. left.old.items ≡ next ∷ left.new.items) }
{
    match left.front() {
        Some(next) if next.endpoint == *endpoint => left.pop_front(),
        _ => None,
    }
}
