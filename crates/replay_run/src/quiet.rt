//! Steps of scripts, played one by one, of which nothing is printed.
ghost use Rattle.std.specs.Prelude.{◌≡◌, ◌<◌, ◌≤◌, ◌++◌, ℕ, Some, IfOk, OnOk};
ghost use Rattle.poa_policy.specs.Kept.{KeepsRules};
ghost use Rattle.session_laws.specs.Calls.{Each, IsGivenTo, IsSaid};
ghost use Rattle.history_standing.specs.Arrivals.{connections};
ghost use Rattle.replay_run.specs.Collecting.{CollectsAll};
ghost use Rattle.replay_run.specs.Working.{Rests};
ghost use Rattle.replay_run.specs.Keeping.{AllEntered};
ghost use Rattle.replay_run.specs.Playing.{IsOpening, OnLife, Plays};
ghost use Rattle.replay_run.specs.Quiet.{Gathers, GathersEach, GathersOf, HasGivens, IsInPlay, PutsBehind, Quietly, message_of, world_of};

use crate::channel::{Channel, channels_of};
use crate::player::Player;
use crate::replaying::{play, player_of};
use poa_base::{Config, Head, Name, Reply, WantMemory};
use poa_core::{Collected, Core};
use replay_script::Step;
use session_laws::put_reply;
use std::alloc::Global;

/// A run of a configuration on which steps of scripts are played one by one, with connections that have names. Nothing
/// of what the steps would print is kept.
#[derive(Drop)]
pub struct QuietPlay {
    alloc: Global,
    player: Player,
    channels: Vec<Channel>,
}

impl QuietPlay {
    /// A run of a configuration that takes so many arrivals, from 1 to 4,000,000, with nothing stored before, and
    /// connections of these names, none of which has entered.
    pub fn new(
        alloc: Global,
        config: Config,
        limit: u64,
        names: &[Name],
    ) -> Result<Self, WantMemory>
        requires rules { KeepsRules config }
        requires limit { (1 ≤ limit) × (limit ≤ 4000000) }
        ensures opens { IfOk result (λ quiet. IsOpening config limit names.now (world_of quiet)) }
        ensures in_play { IfOk result IsInPlay }
    {
        let player = player_of(alloc, config, limit)?;
        let channels = channels_of(alloc, names)?;
        Ok(QuietPlay {
            alloc,
            player,
            channels,
        })
    }

    /// Plays a step of a script.
    pub fn play(&mut self, step: &Step) -> Result<(), WantMemory>
        requires { IsInPlay self.old }
        ensures plays { OnOk result
            (Quietly (Plays step.now) (world_of self.old) (world_of self.new)) }
        ensures givens { OnOk result (HasGivens (world_of self.old).life (world_of self.new).life) }
        ensures in_play { OnOk result (IsInPlay self.new) }
    {
        play(self.alloc, &mut self.player, &mut self.channels, step)?;
        self.player.printed.clear();
        Ok(())
    }

    /// All workers run, again and again until none has anything to do.
    pub fn settle(&mut self) -> Result<(), WantMemory>
        requires { IsInPlay self.old }
        ensures rests { OnOk result
            (Quietly (OnLife Rests) (world_of self.old) (world_of self.new)) }
        ensures givens { OnOk result (HasGivens (world_of self.old).life (world_of self.new).life) }
        ensures in_play { OnOk result (IsInPlay self.new) }
    {
        self.player.settle()?;
        self.player.printed.clear();
        Ok(())
    }

    /// Collects the replies that each connection is owed, in their order, and puts the messages among them behind
    /// other bytes. The answer to an administrator's line is no message.
    pub fn gather(&mut self, out: &mut Vec<u8>) -> Result<(), WantMemory>
        requires { IsInPlay self.old }
        ensures gathers { OnOk result
            (PutsBehind Gathers out.old.items out.new.items (world_of self.old)
            (world_of self.new)) }
        ensures givens { OnOk result (HasGivens (world_of self.old).life (world_of self.new).life) }
        ensures in_play { OnOk result (IsInPlay self.new) }
    {
        gather_each(self.alloc, &mut self.player.core, &self.channels, out)
    }

    /// The run.
    pub fn core(&self) -> &Core
        ensures { result.now ≡ (world_of self.now).life }
    {
        &self.player.core
    }
}

// The same of these connections.
fn gather_each(
    alloc: Global,
    core: &mut Core,
    channels: &[Channel],
    out: &mut Vec<u8>,
) -> Result<(), WantMemory>
    requires entered { AllEntered channels.now core.old.history }
    requires said { Each IsSaid core.old.history }
    ensures { OnOk result
        (PutsBehind (GathersEach channels.now) out.old.items out.new.items core.old core.new) }
{
    for channel in channels {
        channel.gather(alloc, core, out)?;
    }
    Ok(())
}

impl Channel {
    // The same of this connection.
    fn gather(&self, alloc: Global, core: &mut Core, out: &mut Vec<u8>) -> Result<(), WantMemory>
        requires entered { (n : ℕ) → self.now.number ≡ Some n → n < connections core.old.history }
        requires said { Each IsSaid core.old.history }
        ensures { OnOk result
            (PutsBehind (GathersOf self.now.number) out.old.items out.new.items core.old core.new) }
    {
        match self.number {
            Some(conn) => gather_all(alloc, core, conn, out),
            None => Ok(()),
        }
    }
}

// The same of a connection with this number.
fn gather_all(
    alloc: Global,
    core: &mut Core,
    conn: u32,
    out: &mut Vec<u8>,
) -> Result<(), WantMemory>
    requires entered { conn < connections core.old.history }
    requires said { Each IsSaid core.old.history }
    ensures { OnOk result
        (PutsBehind (CollectsAll message_of conn) out.old.items out.new.items core.old core.new) }
{
    // No memory holds so many replies.
    for _ in 0..u64::MAX {
        match core.collect(conn) {
            Collected::Reply { head, reply, .. } => put_message(alloc, out, &head, &reply)?,
            Collected::Nothing { .. } => return Ok(()),
        }
    }
    Err(WantMemory)
}

// Puts the message of a reply behind other bytes.
fn put_message(
    alloc: Global,
    out: &mut Vec<u8>,
    head: &Head,
    reply: &Reply,
) -> Result<(), WantMemory>
    requires { IsGivenTo head.now reply.now }
    ensures { OnOk result (out.new.items ≡ out.old.items ++ message_of head.now reply.now) }
{
    if let Reply::Answer { .. } = reply {
        return Ok(());
    }
    put_reply(alloc, out, head, reply)
}
