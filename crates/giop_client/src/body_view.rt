//! The body of a reply, where it lies.
ghost use Rattle.std.specs.Prelude.{◌≡◌, IfOk};
ghost use Rattle.giop_client.specs.Reply.{body_start};
ghost use Rattle.giop_client.specs.Reading.{seen_body};

use cdr_core::{Reader, WantMemory};
use poa_base::{Body, Bytes};
use std::alloc::Global;

/// The body of a reply, where it lies in its message.
#[derive(Clone, Copy)]
pub(crate) struct BodyView<'a> {
    pub bytes: &'a [u8],
    pub little: bool,
    /// How many bytes of the message stand before `bytes`.
    pub base: u64,
}

impl<'a> BodyView<'a> {
    /// A reader of the fields of the body.
    pub(crate) fn reader(self) -> Reader<'a>
        ensures { result ≡ body_start (seen_body self.entry) }
    {
        Reader::new(self.bytes, self.little, self.base % 8)
    }

    /// A copy that outlives the message.
    pub(crate) fn copy(self, alloc: Global) -> Result<Body, WantMemory>
        ensures { IfOk result (λ body. body ≡ seen_body self.entry) }
    {
        Ok(Body {
            bytes: Bytes::copy_of(alloc, self.bytes)?,
            little: self.little,
            base: self.base,
        })
    }
}
