//! The end of a script.
ghost use Rattle.std.specs.Prelude.{◌≡◌, ◌<◌, ℕ, OnOk};
ghost use Rattle.history_standing.specs.Arrivals.{connections};
ghost use Rattle.replay_run.specs.Working.{Rests, Then};
ghost use Rattle.replay_run.specs.Playing.{CollectsEach, CollectsOf};
ghost use Rattle.session_laws.specs.Calls.{Each, IsSaid};
ghost use Rattle.replay_run.specs.Keeping.{AllEntered, Keeps};
ghost use Rattle.replay_run.specs.Effects.{Works};

use crate::channel::Channel;
use crate::player::Player;
use poa_base::WantMemory;
use std::alloc::Global;

/// All workers run until none has anything to do, and then each connection's replies are collected.
pub(crate) fn finish(
    alloc: Global,
    player: &mut Player,
    channels: &[Channel],
) -> Result<(), WantMemory>
    requires { Keeps player.old channels.now }
    ensures { OnOk result (Works (Then Rests (CollectsEach channels.now)) player.old player.new) }
{
    player.settle()?;
    collect_each(alloc, player, channels)?;
    Ok(())
}

// Collects the replies of each connection, in their order.
fn collect_each(alloc: Global, player: &mut Player, channels: &[Channel]) -> Result<(), WantMemory>
    requires entered { AllEntered channels.now player.old.core.history }
    requires said { Each IsSaid player.old.core.history }
    ensures { OnOk result (Works (CollectsEach channels.now) player.old player.new) }
{
    for channel in channels {
        channel.collect_of(alloc, player)?;
    }
    Ok(())
}

impl Channel {
    // Collects the replies of a connection, if it entered.
    fn collect_of(&self, alloc: Global, player: &mut Player) -> Result<(), WantMemory>
        requires entered { (n : ℕ) → self.now.number ≡ Some n
            → n < connections player.old.core.history }
        requires said { Each IsSaid player.old.core.history }
        ensures { OnOk result
            (Works (CollectsOf self.now.name self.now.number) player.old player.new) }
    {
        match self.number {
            Some(conn) => player.collect_all(alloc, self.name.as_slice(), conn),
            None => Ok(()),
        }
    }
}
