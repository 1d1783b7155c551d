//! The buffers of a session.
ghost use Rattle.std.specs.Prelude.{◌<◌, length, IfOk};

use crate::replies::Replies;
use poa_base::WantMemory;
use std::alloc::Global;

/// How much a read takes at most.
const PIECE: usize = 65_536;

/// What a session reads into and what it writes from. It keeps both from round to round, so that a round takes no memory
/// for them once they have grown.
#[derive(Drop)]
pub(crate) struct Buffers {
    /// The room for what is read.
    pub piece: Vec<u8>,
    /// The replies of a round.
    pub replies: Replies,
}

impl Buffers {
    /// Room for a whole piece, and no replies.
    pub(crate) fn new(alloc: Global) -> Result<Buffers, WantMemory>
        ensures { IfOk result (λ made. 0 < length made.piece.items) }
    {
        let piece = Vec::from_elem(alloc, 0u8, PIECE)?;
        let replies = Replies::new(alloc);
        Ok(Buffers { piece, replies })
    }
}
