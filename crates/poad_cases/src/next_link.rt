//! A link in memory that is still to be opened.
ghost use Rattle.std.specs.Prelude.{◌≡◌, [], Some};

use crate::memory_link::MemLink;
use poa_base::Endpoint;
use std::alloc::Global;
use std::snapshot::Snapshot;

/// A link to an endpoint that is still to be opened: the bytes that it gives, in which pieces, and which of its calls
/// fail or find nothing.
#[derive(Drop)]
pub struct NextLink {
    pub endpoint: Endpoint,
    pub text: Vec<u8>,
    pub pieces: Vec<usize>,
    pub failing_reads: Vec<u64>,
    pub quiet_reads: Vec<u64>,
    pub failing_writes: Vec<u64>,
}

/// What is remembered of a link that was opened: its endpoint, by which it was dialled, and the bytes that it had to give.
#[derive(Drop)]
pub struct Opening {
    pub endpoint: Endpoint,
    pub dialed: Snapshot<Endpoint>,
    pub text: Snapshot<Vec<u8>>,
}

impl NextLink {
    /// The link, opened by a dial to this endpoint.
    pub fn open(self, alloc: Global, dialed: &Endpoint) -> (Opening, MemLink)
        ensures dialed { result.0.dialed.value ≡ dialed.now }
        ensures text { result.1.left ≡ Some result.0.text.value.items }
        ensures took { result.1.held ≡ Some [] }
    {
        let NextLink {
            endpoint,
            text,
            pieces,
            failing_reads,
            quiet_reads,
            failing_writes,
        } = self;
        let opening = Opening {
            endpoint,
            dialed: Snapshot::of(dialed),
            text: Snapshot::of(&text),
        };
        let link = MemLink::new(alloc, text, pieces);
        let link = link
            .failing(failing_reads, failing_writes)
            .quiet(quiet_reads);
        (opening, link)
    }
}
