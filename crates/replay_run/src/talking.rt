//! The lines of connections.
ghost use Rattle.std.specs.Prelude.{◌≡◌, ◌<◌, ◌+◌, false, None, IfOk, OnOk};
ghost use Rattle.history_standing.specs.Arrivals.{connections};
ghost use Rattle.poa_history.specs.Legal.{IsOpen};
ghost use Rattle.replay_run.specs.Talking.{Collects, Commands, TalkEnds, OnLine, Talks, is_sized as is_sized_line};
ghost use Rattle.session_laws.specs.Calls.{Each, IsSaid};
ghost use Rattle.replay_run.specs.Keeping.{Keeps, Meets, Shows, Tells};

use crate::channel::Channel;
use crate::full::Full;
use crate::line::Line;
use crate::player::Player;
use crate::printing::print_limit;
use admin_line::read_line;
use poa_base::{Call, WantMemory};
use poa_core::EnterFault;
use std::alloc::Global;

/// The most bytes that an administrator's line has.
const LONGEST: usize = 4096;

/// A line comes to the connection at this place, which enters where it is its first.
pub(crate) fn take_line(
    alloc: Global,
    player: &mut Player,
    channels: &mut Vec<Channel>,
    place: usize,
    line: Line<'_>,
) -> Result<(), WantMemory>
    requires { Keeps player.old channels.old.items }
    ensures shows { OnOk result
        (Shows (OnLine (Talks line.entry) place) player.old player.new channels.old.items
        channels.new.items) }
    ensures keeps { OnOk result (Keeps player.new channels.new.items) }
{
    let Some(channel) = channels.get_mut(place) else {
        return Ok(());
    };
    let Some(conn) = channel.meet(player)? else {
        return Ok(());
    };
    channel.talk(alloc, player, conn, line)?;
    Ok(())
}

impl Channel {
    // The number of a connection to which a line comes. None, and that printed, where it can't enter.
    fn meet(&mut self, player: &mut Player) -> Result<Option<u32>, WantMemory>
        ensures { IfOk result (λ met. Meets met player.old player.new self.old self.new) }
    {
        match self.number {
            Some(conn) => Ok(Some(conn)),
            None => self.let_in(player),
        }
    }

    // A connection enters.
    fn let_in(&mut self, player: &mut Player) -> Result<Option<u32>, WantMemory>
        requires { self.old.number ≡ None }
        ensures { IfOk result (λ met. Meets met player.old player.new self.old self.new) }
    {
        match player.core.enter() {
            Ok(conn) => {
                self.number = Some(conn);
                Ok(Some(conn))
            }
            Err(
                EnterFault::Limit {
                    arrivals,
                    bytes,
                    ..
                },
            ) => {
                let full = Full { arrivals, bytes };
                player.turned_away = player.turned_away.or(Some(full));
                print_limit(&mut player.printed, self.name.as_slice())?;
                Ok(None)
            }
            Err(EnterFault::WantMemory) => Err(WantMemory),
        }
    }

    // A line of a connection with this number.
    fn talk(
        &mut self,
        alloc: Global,
        player: &mut Player,
        conn: u32,
        line: Line<'_>,
    ) -> Result<(), WantMemory>
        requires entered { conn < connections player.old.core.history }
        requires said { Each IsSaid player.old.core.history }
        requires open_ { self.old.ended ≡ false → IsOpen player.old.core.history conn }
        ensures { OnOk result
            (Tells (Talks line.entry conn) player.old player.new self.old self.new) }
    {
        match line {
            Line::Bytes(bytes) => self.feed(alloc, player, conn, bytes),
            Line::Words(words) => self.command(alloc, player, conn, words),
            Line::End => {
                self.end(player, conn);
                Ok(())
            }
            Line::Collect => {
                self.collect(alloc, player, conn)?;
                Ok(())
            }
        }
    }

    // An administrator's line comes.
    fn command(
        &mut self,
        alloc: Global,
        player: &mut Player,
        conn: u32,
        words: &[u8],
    ) -> Result<(), WantMemory>
        requires { self.old.ended ≡ false → IsOpen player.old.core.history conn }
        ensures { OnOk result
            (Tells (Commands words.now conn) player.old player.new self.old self.new) }
    {
        if self.ended || !is_sized(words) {
            return Ok(());
        }
        let command = read_line(alloc, words)?;
        let number = next_number(self.lines)?;
        self.lines = number;
        let size = words.len() as u64;
        let call = Call::Line { number, command };
        player.call(self.name.as_slice(), conn, call, size)?;
        Ok(())
    }

    // The connection leaves.
    fn end(&mut self, player: &mut Player, conn: u32)
        requires { self.old.ended ≡ false → IsOpen player.old.core.history conn }
        ensures { Tells (TalkEnds conn) player.old player.new self.old self.new }
    {
        if self.ended {
            return;
        }
        self.ended = true;
        player.core.leave(conn);
    }

    // The connection's replies are collected.
    fn collect(&mut self, alloc: Global, player: &mut Player, conn: u32) -> Result<(), WantMemory>
        requires entered { conn < connections player.old.core.history }
        requires said { Each IsSaid player.old.core.history }
        ensures { OnOk result
            (Tells (Collects conn) player.old player.new self.old self.new) }
    {
        player.collect_all(alloc, self.name.as_slice(), conn)?;
        Ok(())
    }
}

// Whether an administrator's line has so many bytes.
fn is_sized(words: &[u8]) -> bool
    ensures { result ≡ is_sized_line words.now }
{
    0 < words.len() && words.len() <= LONGEST
}

// The number of the line behind so many.
fn next_number(lines: u64) -> Result<u64, WantMemory>
    ensures { IfOk result (λ n. n ≡ lines + 1) }
{
    // No memory holds so many lines.
    if lines == u64::MAX {
        return Err(WantMemory);
    }
    Ok(lines + 1)
}
