//! What hears a peer.
ghost use Rattle.std.specs.Prelude.{◌≡◌, ◌+◌, ◌++◌, ◌<◌, ◌≤◌, ◌^◌, ℕ, List, [], length, IfOk, OnOk, OnErr};
ghost use Rattle.session_laws.specs.Hearing.{Heard, Stop, message_limit};
ghost use Rattle.session_laws.specs.Expecting.{Expects, OfFramer, OfLines};
ghost use Rattle.session_laws.specs.HearingPieces.{AsTold, Asks, IsLimited, KnowsFirst, OfEar, TakesBytes, reach_of, unread_of};
ghost use Rattle.session_laws.specs.Sessions.{ClosesIn};
ghost use Rattle.session_laws.specs.declared.peer.Peer.{Peer as Peers};
ghost use Rattle.giop_frame.specs.Framer.{HasFirst, reach};

use crate::line_cutter::LineCutter;
use crate::peer::Peer;
use crate::told::Told;
use giop_answer::kind::MINOR;
use giop_frame::{Framer, Message, Next};
use giop_msg::{Incoming, MsgFault, read_call};
use poa_base::WantMemory;
use poa_base::limits::MESSAGE_LIMIT;
use std::alloc::Global;

/// What hears a peer.
#[derive(Drop)]
pub enum Ear {
    /// The messages of a client.
    Messages(Framer),
    /// The lines of an administrator.
    Lines(LineCutter),
}

impl Ear {
    /// An ear that was fed nothing.
    pub fn new(alloc: Global, peer: Peer) -> Ear
        ensures expects { Expects peer (OfEar result) [] [] }
        ensures first { KnowsFirst peer result [] }
        ensures limited { IsLimited result }
        ensures reached { reach_of result ≡ 0 }
    {
        match peer {
            Peer::Client => Ear::Messages(Framer::new(alloc, MESSAGE_LIMIT)),
            Peer::Administrator => Ear::Lines(LineCutter::new(alloc)),
        }
    }

    /// Puts a piece behind the bytes fed so far. Where no memory is left, nothing is fed.
    pub fn feed(&mut self, piece: &[u8]) -> Result<(), WantMemory>
        requires { reach_of self.old + length piece.now < 2 ^ 62 }
        ensures fed { OnOk result
            ((next : List ℕ) (more : List Heard) (stop : Stop) → OfEar self.new next more stop
            → OfEar self.old (piece.now ++ next) more stop) }
        ensures first { OnOk result ((peer : Peers) (text : List ℕ)
            → KnowsFirst peer self.old text → KnowsFirst peer self.new (text ++ piece.now)) }
        ensures limited { IsLimited self.old → IsLimited self.new }
        ensures reached { reach_of self.new ≤ reach_of self.old + length piece.now }
        ensures refused { OnErr result (self.new ≡ self.old) }
    {
        match self {
            Ear::Messages(framer) => framer.feed(piece),
            Ear::Lines(lines) => lines.feed(piece),
        }
    }

    /// What is heard next. Where no memory is left, it is lost.
    pub fn next(&mut self, alloc: Global) -> Result<Told, WantMemory>
        requires { IsLimited self.old }
        ensures told { IfOk result (λ t. AsTold t (OfEar self.old) (OfEar self.new)) }
        ensures first { (peer : Peers) (text : List ℕ) → KnowsFirst peer self.old text
            → KnowsFirst peer self.new text }
        ensures shorter { IfOk result
            (λ t. TakesBytes t (unread_of self.old) (unread_of self.new)) }
        ensures limited { IsLimited self.new }
        ensures reached { reach_of self.new ≤ reach_of self.old }
    {
        match self {
            Ear::Messages(framer) => next_message(alloc, framer),
            Ear::Lines(lines) => lines.next(alloc),
        }
    }

    /// The minor version in which the peer is told that its connection is closed. What isn't read is given up.
    pub fn closing_minor(self) -> Result<u8, WantMemory>
        ensures first { IfOk result (λ minor. (peer : Peers) (text : List ℕ)
            → KnowsFirst peer self text → ClosesIn peer text minor) }
        ensures known { IfOk result (λ minor. minor ≤ 2) }
    {
        match self {
            Ear::Messages(framer) => {
                let mut framer = framer;
                framer.first_minor()
            }
            Ear::Lines(_) => Ok(MINOR),
        }
    }
}

// What a client's messages say next.
fn next_message(alloc: Global, framer: &mut Framer) -> Result<Told, WantMemory>
    requires { framer.old.limit ≡ message_limit }
    ensures told { IfOk result (λ t. AsTold t (OfFramer framer.old) (OfFramer framer.new)) }
    ensures first { (text : List ℕ) → HasFirst message_limit text framer.old
        → HasFirst message_limit text framer.new }
    ensures shorter { IfOk result
        (λ t. TakesBytes t (length framer.old.unread) (length framer.new.unread)) }
    ensures limited { framer.new.limit ≡ message_limit }
    ensures reached { reach framer.new ≤ reach framer.old }
{
    match framer.next()? {
        Next::Message(message) => read(alloc, &message),
        Next::NeedMore { have } => Ok(Told::More { have }),
        Next::Bad { at, .. } => Ok(Told::Bad { at }),
    }
}

// What a message asks.
fn read(alloc: Global, message: &Message) -> Result<Told, WantMemory>
    requires { length message.now.bytes ≤ 1048588 }
    ensures { IfOk result (Asks message.now) }
{
    match read_call(alloc, message) {
        Ok(Incoming::Call(call)) => {
            let size = message.bytes().len() as u64;
            Ok(Told::Call { call, size })
        }
        Ok(Incoming::Cancel { .. }) => Ok(Told::Nothing),
        Ok(Incoming::Closing) => Ok(Told::Closed),
        Err(MsgFault::WantMemory) => Err(WantMemory),
        Err(_) => Ok(Told::Bad { at: message.at() }),
    }
}
