//! What has to be known of words before the doors of a server are made.
ghost use Rattle.std.specs.Prelude.{IfOk};
ghost use Rattle.command_words.specs.Serving.{IsPlan, serve_in};

use crate::fault::WordsFault;
use crate::serving::serve_words;
use std::alloc::{AllocError, Global};

/// What has to be known of the words of `serve` before its doors are made.
#[derive(Clone, Copy)]
pub struct Plan<'a> {
    /// The name of the file with the configuration.
    pub file: &'a str,
    pub lanes: u32,
    pub workers: u32,
}

/// The plan of the words: none exactly where they aren't words of `serve`. `AllocError` where no memory was left.
pub fn plan_of<'a>(alloc: Global, words: &'a [String]) -> Result<Option<Plan<'a>>, AllocError>
    ensures { IfOk result (IsPlan (serve_in words.now)) }
{
    match serve_words(alloc, words) {
        Ok(serve) => Ok(Some(Plan {
            file: serve.file,
            lanes: serve.lanes,
            workers: serve.workers,
        })),
        Err(WordsFault::BadWords) => Ok(None),
        Err(WordsFault::WantMemory) => Err(AllocError),
    }
}
