//! The replies that a connection is given.
ghost use Rattle.std.specs.Prelude.{◌≡◌, ◌<◌, ◌++◌, IfOk, OnOk};
ghost use Rattle.session_laws.specs.Calls.{Each, IsGivenTo, IsSaid};
ghost use Rattle.history_standing.specs.Arrivals.{connections};
ghost use Rattle.replay_run.specs.Lines.{reply_line};
ghost use Rattle.replay_run.specs.Collecting.{CollectsAll};
ghost use Rattle.replay_run.specs.Effects.{CollectsNext, Works};

use crate::player::Player;
use crate::printing::{print_answer, print_bytes};
use giop_answer::write_reply;
use poa_base::{Head, Reply, WantMemory};
use poa_core::Collected;
use std::alloc::Global;

impl Player {
    /// Collects the replies of a connection until none is decided, and prints them.
    pub fn collect_all(&mut self, alloc: Global, name: &[u8], conn: u32) -> Result<(), WantMemory>
        requires entered { conn < connections self.old.core.history }
        requires said { Each IsSaid self.old.core.history }
        ensures { OnOk result (Works (CollectsAll (reply_line name.now) conn) self.old self.new) }
    {
        // No memory holds so many replies.
        for _ in 0..u64::MAX {
            if !self.collect_next(alloc, name, conn)? {
                return Ok(());
            }
        }
        Err(WantMemory)
    }

    // Collects the next reply of a connection, and prints it. Whether there was one.
    fn collect_next(&mut self, alloc: Global, name: &[u8], conn: u32) -> Result<bool, WantMemory>
        requires entered { conn < connections self.old.core.history }
        requires said { Each IsSaid self.old.core.history }
        ensures next { IfOk result (λ more. CollectsNext more name.now conn self.old self.new) }
        ensures entered { conn < connections self.new.core.history }
        ensures said { Each IsSaid self.new.core.history }
    {
        match self.core.collect(conn) {
            Collected::Reply { head, reply, .. } => {
                self.print_reply(alloc, name, &head, &reply)?;
                Ok(true)
            }
            Collected::Nothing { .. } => Ok(false),
        }
    }

    // Prints a reply.
    fn print_reply(
        &mut self,
        alloc: Global,
        name: &[u8],
        head: &Head,
        reply: &Reply,
    ) -> Result<(), WantMemory>
        requires { IsGivenTo head.now reply.now }
        ensures core { self.new.core ≡ self.old.core }
        ensures filled { self.new.filled ≡ self.old.filled }
        ensures turned_away { self.new.turned_away ≡ self.old.turned_away }
        ensures printed { OnOk result
            (self.new.printed.items
            ≡ self.old.printed.items ++ reply_line name.now head.now reply.now) }
    {
        if let Reply::Answer { number, answer } = reply {
            return print_answer(&mut self.printed, name, *number, answer);
        }
        let bytes = write_reply(alloc, head, reply)?;
        print_bytes(&mut self.printed, name, bytes.as_slice())
    }
}
