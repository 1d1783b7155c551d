//! What is asked of a link that `call` opens.
use crate::link_case::LinkCase;
use crate::next_link::NextLink;
use anyhow::Result;
use poa_base::Endpoint;

/// A link that is opened by a dial to this endpoint.
#[derive(Drop)]
pub struct DialCase {
    pub endpoint: Endpoint,
    pub link: LinkCase,
}

impl DialCase {
    /// The link, still to be opened.
    pub fn next_link(&self) -> Result<NextLink> {
        let link = &self.link;
        Ok(NextLink {
            endpoint: self.endpoint.clone()?,
            text: link.input()?,
            pieces: link.pieces.clone()?,
            failing_reads: link.failing_reads.clone()?,
            quiet_reads: link.quiet_reads.clone()?,
            failing_writes: link.failing_writes.clone()?,
        })
    }
}
