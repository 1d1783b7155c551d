//! The bytes that come over a connection, and the calls of their messages.
ghost use Rattle.std.specs.Prelude.{◌≡◌, IfOk, OnOk, false};
ghost use Rattle.poa_history.specs.Legal.{IsOpen};
ghost use Rattle.replay_run.specs.Reading.{Feeds, Grows, ReadsOn};
ghost use Rattle.replay_run.specs.Keeping.{ReadsNext, Tells};

use crate::channel::Channel;
use crate::player::Player;
use crate::printing::print_bad;
use poa_base::WantMemory;
use session_laws::{Input, Told};
use std::alloc::Global;

/// The most bytes that an input takes.
const MOST: u64 = 1 << 40;

impl Channel {
    /// Bytes come over a connection: the messages that they make whole are read.
    pub(crate) fn feed(
        &mut self,
        alloc: Global,
        player: &mut Player,
        conn: u32,
        bytes: &[u8],
    ) -> Result<(), WantMemory>
        requires { self.old.ended ≡ false → IsOpen player.old.core.history conn }
        ensures { OnOk result
            (Tells (Feeds bytes.now conn) player.old player.new self.old self.new) }
    {
        if self.dropped || self.ended {
            return Ok(());
        }
        take_in(&mut self.input, bytes)?;
        self.read_on(alloc, player, conn)
    }

    // Reads the messages that stand whole.
    fn read_on(&mut self, alloc: Global, player: &mut Player, conn: u32) -> Result<(), WantMemory>
        requires { IsOpen player.old.core.history conn }
        ensures { OnOk result (Tells (ReadsOn conn) player.old player.new self.old self.new) }
    {
        // No memory holds so many messages.
        for _ in 0..u64::MAX {
            if !self.read_next(alloc, player, conn)? {
                return Ok(());
            }
        }
        Err(WantMemory)
    }

    // Reads what stands next. Whether more may stand behind it.
    fn read_next(
        &mut self,
        alloc: Global,
        player: &mut Player,
        conn: u32,
    ) -> Result<bool, WantMemory>
        requires { IsOpen player.old.core.history conn }
        ensures tells { IfOk result
            (λ more. Tells (ReadsNext more conn) player.old player.new self.old self.new) }
        ensures open_ { IsOpen player.new.core.history conn }
    {
        match self.input.next(alloc)? {
            Told::Call { call, size } => {
                player.call(self.name.as_slice(), conn, call, size)?;
                Ok(true)
            }
            Told::Nothing => Ok(true),
            Told::More { .. } => Ok(false),
            Told::Closed => {
                self.dropped = true;
                Ok(false)
            }
            Told::Bad { at } => {
                self.dropped = true;
                print_bad(&mut player.printed, self.name.as_slice(), at)?;
                Ok(false)
            }
        }
    }
}

// Takes bytes in behind those that came.
fn take_in(input: &mut Input, bytes: &[u8]) -> Result<(), WantMemory>
    ensures { OnOk result (Grows input.old bytes.now input.new) }
{
    // No script has so many bytes, and no `load` feeds so many.
    if bytes.len() as u64 > MOST - input.taken() {
        return Err(WantMemory);
    }
    input.feed(bytes)
}
