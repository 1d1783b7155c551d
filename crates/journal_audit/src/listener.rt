//! Who compares the calls that arrived with what their peer sent.
ghost use Rattle.std.specs.Prelude.{◌≡◌, ◌≢◌, ◌↔◌, ◌<◌, ◌≤◌, ◌^◌, [], length, IfOk, IsTrue, OnOk, true};
ghost use Rattle.session_laws.specs.HearingPieces.{AsTold, IsLimited, OfEar, reach_of};
ghost use Rattle.session_laws.specs.declared.told.Told.TheVariants as telling;
ghost use Rattle.journal_audit.specs.Listening.{HearsCall, HearsLater, HearsRest, IsOver, Listens, Says, ends_well};

use crate::same_call::same_call;
use poa_base::{Call, WantMemory};
use session_laws::{Ear, Peer, Told};
use std::alloc::Global;
use std::marker::Model;

/// How many bytes an ear is fed at once.
const PIECE: usize = 65_536;

/// Who listens to what a peer sent, and compares the calls that arrive with those that it hears. It is read in pieces, as far
/// as calls arrive.
#[derive(Drop)]
pub(crate) struct Listener<'a> {
    alloc: Global,
    ear: Ear,
    /// What the ear wasn't fed yet.
    rest: &'a [u8],
    /// Whether the calls that arrived are those that were heard.
    fits: bool,
}

impl<'a> Model for Listener<'a> {
    ghost use Rattle.std.specs.Prelude.{◌+◌, ◌<◌, ◌^◌, length};
    ghost use Rattle.session_laws.specs.HearingPieces.{IsLimited, reach_of};
    ghost use Rattle.journal_audit.specs.Listening.{Listening};

    ghost Value = { Listening };

    ghost view = { λ l. record { ear = l.ear; rest = l.rest.now; fits = l.fits } };

    ghost invariant = { λ l. IsLimited l.ear × (reach_of l.ear + length l.rest.now < 2 ^ 62) };
}

impl<'a> Listener<'a> {
    /// One who listens to all that this peer sent. No call has arrived yet.
    pub(crate) fn new(alloc: Global, peer: Peer, input: &'a [u8]) -> Listener<'a>
        requires { length input.now < 2 ^ 62 }
        ensures { Listens peer input.now [] result }
    {
        Listener {
            alloc,
            ear: Ear::new(alloc, peer),
            rest: input,
            fits: true,
        }
    }

    /// Whether the calls that arrived are those that were heard.
    pub(crate) fn fits(&self) -> bool
        ensures { result ≡ self.now.fits }
    {
        self.fits
    }

    /// A call of so many bytes arrives.
    pub(crate) fn hear(&mut self, call: &Call, size: u64) -> Result<(), WantMemory>
        ensures hears { OnOk result (HearsCall call.now size self.old self.new) }
        ensures fits { self.new.fits ≡ true → self.old.fits ≡ true }
    {
        if !self.fits {
            return Ok(());
        }
        let told = self.next()?;
        self.fits = is_call(&told, call, size);
        Ok(())
    }

    /// Whether no call is left to be heard, and the input ends well: at a CloseConnection, or with nothing left over.
    pub(crate) fn is_over(&mut self) -> Result<bool, WantMemory>
        ensures { IfOk result (λ yes. IsOver yes self.old) }
    {
        if !self.fits {
            return Ok(false);
        }
        let told = self.next()?;
        Ok(is_end(&told))
    }

    /// What is heard next: a call, or how the input ends.
    fn next(&mut self) -> Result<Told, WantMemory>
        ensures says { IfOk result (λ told. Says told (HearsRest self.old) (HearsRest self.new)) }
        ensures fits { self.new.fits ≡ self.old.fits }
    {
        loop {
            match self.next_fed()? {
                Told::More { have } => {
                    if self.rest.is_empty() {
                        return Ok(Told::More { have });
                    }
                    self.feed()?;
                }
                told => return Ok(told),
            }
        }
    }

    /// The same of what the ear was fed.
    fn next_fed(&mut self) -> Result<Told, WantMemory>
        ensures told { IfOk result
            (λ told. AsTold told (OfEar self.old.ear) (OfEar self.new.ear)) }
        ensures asks { IfOk result (λ told. told ≢ telling.Nothing) }
        ensures rest { self.new.rest ≡ self.old.rest }
        ensures fits { self.new.fits ≡ self.old.fits }
    {
        next_asked(self.alloc, &mut self.ear)
    }

    /// Feeds the ear a piece of what it wasn't fed.
    fn feed(&mut self) -> Result<(), WantMemory>
        requires { 0 < length self.old.rest }
        ensures hears { OnOk result (HearsLater self.old self.new) }
        ensures shorter { OnOk result (length self.new.rest < length self.old.rest) }
        ensures fits { self.new.fits ≡ self.old.fits }
    {
        let (piece, rest) = self.rest.split_at(self.rest.len().min(PIECE));
        self.ear.feed(piece)?;
        self.rest = rest;
        Ok(())
    }
}

/// What is heard next, but what asks nothing.
fn next_asked(alloc: Global, ear: &mut Ear) -> Result<Told, WantMemory>
    requires { IsLimited ear.old }
    ensures told { IfOk result (λ told. AsTold told (OfEar ear.old) (OfEar ear.new)) }
    ensures asks { IfOk result (λ told. told ≢ telling.Nothing) }
    ensures limited { IsLimited ear.new }
    ensures reached { reach_of ear.new ≤ reach_of ear.old }
{
    loop {
        match ear.next(alloc)? {
            Told::Nothing => {}
            told => return Ok(told),
        }
    }
}

/// Whether what was heard is a call of so many bytes.
fn is_call(told: &Told, call: &Call, size: u64) -> bool
    ensures { IsTrue result ↔ (told.now ≡ telling.Call call.now size) }
{
    match told {
        Told::Call {
            call: heard,
            size: bytes,
        } => *bytes == size && same_call(heard, call),
        _ => false,
    }
}

/// Whether what was heard is that the input ends well.
fn is_end(told: &Told) -> bool
    ensures { result ≡ ends_well told.now }
{
    match told {
        Told::Closed => true,
        Told::More { have } => *have == 0,
        _ => false,
    }
}
