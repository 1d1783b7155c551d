//! Files whose contents are taken twice, and read once.
ghost use Rattle.std.specs.Prelude.{◌≡◌, ℕ, ◌<◌, ◌≤◌, length, Option, None, Some, IfSome};

use outside::{Files, Put, Taken};
use poa_base::Bytes;
use std::alloc::{AllocError, Global};

/// Files over others. What is taken is kept for the next take of the same name, so that a file that can be read only
/// once, as a pipe, serves both. They tell no content, and count as the others do.
#[derive(Drop)]
pub(crate) struct KeptFiles<F> {
    alloc: Global,
    files: F,
    kept: Option<Kept>,
}

// A content that was taken, and its name.
#[derive(Drop)]
struct Kept {
    name: String,
    content: Bytes,
}

impl<F: Files> KeptFiles<F> {
    /// Those files, of which nothing is kept yet.
    pub(crate) fn new(alloc: Global, files: F) -> Self {
        KeptFiles {
            alloc,
            files,
            kept: None,
        }
    }

    // The content that is kept of this name, where it is within the limit. It isn't kept any longer.
    fn kept(&mut self, name: &str, limit: u64) -> Option<Bytes>
        ensures files { self.new.files ≡ self.old.files }
        ensures within { IfSome result (λ content. length content ≤ limit) }
    {
        let kept = self.kept.take()?;
        if kept.name.as_str() != name || kept.content.as_slice().len() as u64 > limit {
            return None;
        }
        Some(kept.content)
    }

    // Keeps a content.
    fn keep(&mut self, name: &str, content: &[u8]) -> Result<(), AllocError>
        ensures files { self.new.files ≡ self.old.files }
    {
        self.kept = Some(Kept {
            name: String::from_str(self.alloc, name)?,
            content: Bytes::from_vec(Vec::from_slice(self.alloc, content)?),
        });
        Ok(())
    }
}

impl<F: Files> Files for KeptFiles<F> {
    ghost contents = { λ _. None };

    ghost take_faults = { λ f. F.take_faults f.files };

    ghost put_faults = { λ f. F.put_faults f.files };

    ghost absents = { λ f. F.absents f.files };

    ghost long_ones = { λ f. F.long_ones f.files };

    fn take(&mut self, name: &str, limit: u64) -> Taken {
        if let Some(content) = self.kept(name, limit) {
            return Taken::Bytes(content);
        }
        match self.files.take(name, limit) {
            Taken::Bytes(content) => match self.keep(name, content.as_slice()) {
                Ok(()) => Taken::Bytes(content),
                Err(_) => Taken::WantMemory,
            },
            taken => taken,
        }
    }

    fn put(&mut self, name: &str, content: &[u8]) -> Put {
        self.kept = None;
        self.files.put(name, content)
    }
}
