//! The framer.
ghost use Rattle.std.specs.Prelude.{◌≡◌, ◌+◌, ◌<◌, ◌≤◌, ◌^◌, ◌++◌, ◌↔◌, List, ℕ, [], None, length, take, drop, option_to_list, IfOk, IfSome, OnOk, OnErr, IsSome, MatchOption, ⊤};
ghost use Rattle.std.specs.Option.{option_or};
ghost use Rattle.giop_frame.specs.Open.{taken_bytes};
ghost use Rattle.giop_frame.specs.Rules.{look_at, IsGood};
ghost use Rattle.giop_frame.specs.Stream.{Framed, End, Stream, IsFirstMinor, after, open_after, completed};
ghost use Rattle.giop_frame.specs.Framer.{FramerGives, HasGiven, HasFirst, KeepsFirst, GiveTheSame, FramerAnswers, TakesBytes, IsWithin, JoinsPart, TakesPart, minor_among, reach};

use crate::header::{Header, NEWEST_MINOR, id_of};
use crate::message::Message;
use crate::next::Next;
use crate::open_messages::OpenMessages;
use crate::rules::{Look, OPEN_LIMIT, look_at};
use crate::unread::Unread;
use crate::why::Why;
use poa_base::{Bytes, WantMemory};
use std::alloc::Global;
use std::marker::Model;

/// Cuts a stream of GIOP 1.0, 1.1 and 1.2 into its messages, fed in any pieces: CORBA 3.3 Part 2, 9.4.
///
/// Whichever way the bytes are cut, the messages that `next` gives, and then its `NeedMore` or `Bad`,
/// are the stream of all bytes fed.
#[derive(Drop)]
pub struct Framer {
    alloc: Global,
    limit: u32,
    place: u64,
    pending: OpenMessages,
    unread: Unread,
    closed: Option<Why>,
    /// The minor version of the first message that was given.
    first: Option<u8>,
}

impl Model for Framer {
    ghost use Rattle.std.specs.Prelude.{◌+◌, ◌<◌, ◌≤◌, ◌^◌, length, IfSome};
    ghost use Rattle.giop_frame.specs.Open.{open_bytes, taken_bytes};
    ghost use Rattle.giop_frame.specs.Framing.{Framing};
    ghost use Rattle.giop_frame.specs.declared.rules.TheConstants.{OPEN_LIMIT};

    ghost Value = { Framing };

    ghost view = { λ f. record {
      limit = f.limit;
      reading = record { place = f.place; pending = f.pending };
      unread = f.unread;
      closed = f.closed;
      first = f.first;
    } };

    ghost invariant = { λ f. (open_bytes f.pending ≤ OPEN_LIMIT) × (taken_bytes f.pending ≤ f.place)
        × (f.place + length f.unread < 2 ^ 62) × IfSome f.first (λ minor. minor ≤ 2) };
}

impl Framer {
    /// A framer that was fed nothing. No message, joined or not, is longer than `limit` without its
    /// header. Takes no memory.
    pub fn new(alloc: Global, limit: u32) -> Self
        ensures stream { HasGiven limit [] [] result }
        ensures first { HasFirst limit [] result }
        ensures nothing_fed { reach result ≡ 0 }
        ensures limited { result.limit ≡ limit }
    {
        Framer {
            alloc,
            limit,
            place: 0,
            pending: OpenMessages::new(alloc),
            unread: Unread::new(alloc),
            closed: None,
            first: None,
        }
    }

    /// Puts a piece behind the bytes fed so far. After a `Bad` it changes nothing. Where no memory is
    /// left, nothing is fed.
    pub fn feed(&mut self, piece: &[u8]) -> Result<(), WantMemory>
        requires { reach self.old + length piece.now < 2 ^ 62 }
        ensures fed { OnOk result ((text : List ℕ) (messages : List Framed) (end : End)
            → FramerGives self.new text messages end ↔ FramerGives self.old (piece.now ++ text) messages end) }
        ensures first { OnOk result ((limit : ℕ) (fed : List ℕ)
            → HasFirst limit fed self.old → HasFirst limit (fed ++ piece.now) self.new) }
        ensures reached { reach self.new ≤ reach self.old + length piece.now }
        ensures closed { IsSome self.old.closed → self.new ≡ self.old }
        ensures limited { self.new.limit ≡ self.old.limit }
        ensures refused { OnErr result (self.new ≡ self.old) }
    {
        if self.closed.is_some() {
            return Ok(());
        }
        self.unread.push(piece)
    }

    /// What comes next: a message, or how many bytes wait for the rest of theirs, or the bad place,
    /// which is the answer from then on. Where no memory is left, the framer gives what it would have
    /// given.
    pub fn next(&mut self) -> Result<Next, WantMemory>
        ensures answer { IfOk result (λ n. FramerAnswers self.old n self.new) }
        ensures first { (limit : ℕ) (fed : List ℕ) → HasFirst limit fed self.old → HasFirst limit fed self.new }
        ensures shorter { IfOk result (λ n. TakesBytes self.old n self.new) }
        ensures sized { IfOk result (IsWithin self.old.limit) }
        ensures reached { reach self.new ≡ reach self.old }
        ensures limited { self.new.limit ≡ self.old.limit }
        ensures refused { OnErr result (GiveTheSame self.old self.new) }
    {
        if let Some(why) = self.closed {
            return Ok(self.bad(why));
        }
        loop {
            if let Some(next) = self.step()? {
                return Ok(next);
            }
        }
    }

    /// The minor version of the first message of all that was fed, and 2 where that has none. Where no message was
    /// given before, the next one is taken, and given no more. Where no memory is left for that, the framer gives what
    /// it would have given.
    pub fn first_minor(&mut self) -> Result<u8, WantMemory>
        ensures first { IfOk result (λ minor. (limit : ℕ) (fed : List ℕ)
            → HasFirst limit fed self.old → IsFirstMinor limit fed minor) }
        ensures known { IfOk result (λ minor. minor ≤ 2) }
        ensures refused { OnErr result (GiveTheSame self.old self.new) }
    {
        if let Some(minor) = self.first {
            return Ok(minor);
        }
        match self.next()? {
            Next::Message(message) => Ok(message.minor()),
            Next::NeedMore { .. } => Ok(NEWEST_MINOR),
            Next::Bad { .. } => Ok(NEWEST_MINOR),
        }
    }

    /// Reads the part in front, where there is one. None where it completed no message.
    fn step(&mut self) -> Result<Option<Next>, WantMemory>
        requires { self.old.closed ≡ None }
        ensures answer { IfOk result (λ n. MatchOption n (JoinsPart self.old self.new) (λ a. FramerAnswers self.old a self.new)) }
        ensures first { IfOk result (λ n. MatchOption n ⊤ (λ a. KeepsFirst self.old a self.new)) }
        ensures shorter { IfOk result (λ n. MatchOption n ⊤ (λ a. TakesBytes self.old a self.new)) }
        ensures sized { IfOk result (λ n. MatchOption n ⊤ (IsWithin self.old.limit)) }
        ensures reached { reach self.new ≡ reach self.old }
        ensures limited { self.new.limit ≡ self.old.limit }
        ensures refused { OnErr result (self.new ≡ self.old) }
    {
        match look_at(self.limit, &self.pending, self.unread.as_slice()) {
            Look::Whole(length) => {
                match self.take_part(length)? {
                    Some(message) => Ok(Some(Next::Message(message))),
                    None => Ok(None),
                }
            }
            Look::Unfinished => {
                let have = self.pending.taken() + self.unread.as_slice().len() as u64;
                Ok(Some(Next::NeedMore { have }))
            }
            Look::Bad(why) => {
                self.closed = Some(why);
                Ok(Some(self.bad(why)))
            }
        }
    }

    /// The answer at a bad place, which is that of the first unread byte.
    fn bad(&self, why: Why) -> Next
        ensures { result ≡ Next.Bad self.now.reading.place why }
    {
        let at = self.place;
        Next::Bad { at, why }
    }

    /// Reads the part in front, which has this length.
    fn take_part(&mut self, length: usize) -> Result<Option<Message>, WantMemory>
        requires whole { look_at self.old.limit self.old.reading.pending self.old.unread ≡ Look.Whole length }
        ensures taken { IfOk result (λ m. TakesPart self.old length (option_to_list m) self.new) }
        ensures refused { OnErr result (self.new ≡ self.old) }
    {
        let part = &self.unread.as_slice()[..length];
        let message = read_part(self.alloc, &mut self.pending, self.place, part)?;
        self.unread.skip(length);
        self.place += length as u64;
        self.first = first_of(self.first, &message);
        Ok(message)
    }
}

/// The minor version of the first message, where it was given before, or is this one.
fn first_of(given: Option<u8>, message: &Option<Message>) -> Option<u8>
    ensures value { result ≡ option_or given (minor_among (option_to_list message.now)) }
    ensures known { IfSome given (λ minor. minor ≤ 2) → IfSome result (λ minor. minor ≤ 2) }
{
    if given.is_some() {
        return given;
    }
    match message {
        Some(message) => Some(message.minor()),
        None => None,
    }
}

/// Reads a part: what it completes, and what is open behind it.
fn read_part(
    alloc: Global,
    pending: &mut OpenMessages,
    at: u64,
    part: &[u8],
) -> Result<Option<Message>, WantMemory>
    requires good { IsGood pending.old part.now }
    requires room { taken_bytes pending.old + length part.now < 2 ^ 63 }
    ensures message { IfOk result (λ m. option_to_list m ≡ completed (record { place = at; pending = pending.old }) part.now) }
    ensures left { OnOk result (pending.new ≡ open_after (record { place = at; pending = pending.old }) part.now) }
    ensures refused { OnErr result (pending.new ≡ pending.old) }
{
    let header = Header::read(part);
    if header.continues() {
        if !header.more {
            return pending.close(id_of(part), part);
        }
        pending.join(id_of(part), part)?;
        return Ok(None);
    }
    if header.more {
        pending.open(id_of(part), at, part)?;
        return Ok(None);
    }
    let bytes = Vec::from_slice(alloc, part)?;
    Ok(Some(Message::new(at, Bytes::from_vec(bytes))))
}
