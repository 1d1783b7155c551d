//! The bytes of a peer, as they come.
ghost use Rattle.std.specs.Prelude.{◌≡◌, ◌+◌, ◌++◌, ◌≤◌, ◌^◌, ℕ, List, [], length, IfOk, OnOk, OnErr};
ghost use Rattle.session_laws.specs.Hearing.{Heard, Stop};
ghost use Rattle.session_laws.specs.Expecting.{Expects};
ghost use Rattle.session_laws.specs.HearingPieces.{AsTold, KnowsFirst, OfIntake, TakesBytes, unread_of};
ghost use Rattle.session_laws.specs.Sessions.{ClosesIn};
ghost use Rattle.session_laws.specs.declared.peer.Peer.{Peer as Peers};

use crate::ear::Ear;
use crate::peer::Peer;
use crate::told::Told;
use poa_base::WantMemory;
use std::alloc::Global;
use std::marker::Model;

/// The bytes of a peer, as they come, and what stands whole in them. At most 2^40 bytes are taken.
#[derive(Drop)]
pub struct Input {
    ear: Ear,
    taken: u64,
}

impl Model for Input {
    ghost use Rattle.std.specs.Prelude.{◌≤◌, ◌^◌};
    ghost use Rattle.session_laws.specs.HearingPieces.{Intake, IsLimited, reach_of};

    ghost Value = { Intake };

    ghost view = { λ i. record { ear = i.ear; taken = i.taken } };

    ghost invariant = { λ i. IsLimited i.ear × (reach_of i.ear ≤ i.taken) × (i.taken ≤ 2 ^ 40) };
}

impl Input {
    /// Nothing has come of this peer.
    pub fn new(alloc: Global, peer: Peer) -> Self
        ensures expects { Expects peer (OfIntake result) [] [] }
        ensures first { KnowsFirst peer result.ear [] }
        ensures taken { result.taken ≡ 0 }
    {
        Input {
            ear: Ear::new(alloc, peer),
            taken: 0,
        }
    }

    /// How many bytes were taken.
    pub fn taken(&self) -> u64
        ensures taken { result ≡ self.now.taken }
        ensures few { result ≤ 2 ^ 40 }
    {
        self.taken
    }

    /// Takes a piece more. Where no memory is left, nothing is taken.
    pub fn feed(&mut self, piece: &[u8]) -> Result<(), WantMemory>
        requires { self.old.taken + length piece.now ≤ 2 ^ 40 }
        ensures fed { OnOk result
            ((next : List ℕ) (more : List Heard) (stop : Stop) → OfIntake self.new next more stop
            → OfIntake self.old (piece.now ++ next) more stop) }
        ensures first { OnOk result ((peer : Peers) (text : List ℕ)
            → KnowsFirst peer self.old.ear text
            → KnowsFirst peer self.new.ear (text ++ piece.now)) }
        ensures taken { OnOk result (self.new.taken ≡ self.old.taken + length piece.now) }
        ensures refused { OnErr result (self.new ≡ self.old) }
    {
        self.ear.feed(piece)?;
        self.taken += piece.len() as u64;
        Ok(())
    }

    /// What the bytes say next. Where no memory is left for it, it is lost.
    pub fn next(&mut self, alloc: Global) -> Result<Told, WantMemory>
        ensures told { IfOk result (λ t. AsTold t (OfIntake self.old) (OfIntake self.new)) }
        ensures first { (peer : Peers) (text : List ℕ) → KnowsFirst peer self.old.ear text
            → KnowsFirst peer self.new.ear text }
        ensures shorter { IfOk result
            (λ t. TakesBytes t (unread_of self.old.ear) (unread_of self.new.ear)) }
        ensures taken { self.new.taken ≡ self.old.taken }
    {
        self.ear.next(alloc)
    }

    /// The minor version of the message that closes the peer's connection: that of the first message of what was taken,
    /// and 2 where it has none. What isn't read is given up. Where no memory is left it isn't known.
    pub fn closing_minor(self) -> Result<u8, WantMemory>
        ensures first { IfOk result (λ minor. (peer : Peers) (text : List ℕ)
            → KnowsFirst peer self.ear text → ClosesIn peer text minor) }
        ensures known { IfOk result (λ minor. minor ≤ 2) }
    {
        let Input { ear, taken: _ } = self;
        ear.closing_minor()
    }
}
