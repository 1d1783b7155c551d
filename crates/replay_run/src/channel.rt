//! The connections of a script.
ghost use Rattle.std.specs.Prelude.{IfOk};
ghost use Rattle.replay_run.specs.Playing.{AreFresh, IsFresh};

use poa_base::{Name, WantMemory};
use session_laws::{Input, Peer};
use std::alloc::Global;

/// A connection of a script.
#[derive(Drop)]
pub(crate) struct Channel {
    pub(crate) name: Name,
    /// Its number, once it entered.
    pub(crate) number: Option<u32>,
    /// What came of its stream of messages, and isn't read yet.
    pub(crate) input: Input,
    /// How many lines of an administrator came.
    pub(crate) lines: u64,
    /// No more bytes are read.
    pub(crate) dropped: bool,
    /// It has left.
    pub(crate) ended: bool,
}

/// The connections of these names, before their first lines.
pub(crate) fn channels_of(alloc: Global, names: &[Name]) -> Result<Vec<Channel>, WantMemory>
    ensures { IfOk result (λ all. AreFresh names.now all.items) }
{
    let mut all = Vec::with_capacity(alloc, names.len())?;
    for name in names {
        all.push(channel_of(alloc, name.clone()?))?;
    }
    Ok(all)
}

fn channel_of(alloc: Global, name: Name) -> Channel
    ensures { IsFresh name result }
{
    Channel {
        name,
        number: None,
        input: Input::new(alloc, Peer::Client),
        lines: 0,
        dropped: false,
        ended: false,
    }
}
