//! Fields that are copied from where they lie.
ghost use Rattle.std.specs.Prelude.{◌≡◌, ◌+◌, ◌^◌, ◌<◌, ◌⊎◌, length, IfOk, IfErr, OnOk, OnErr};
ghost use Rattle.cdr_core.specs.Kind.{Octet, UShort, ULong, LongLong, Boolean, Text, Octets};
ghost use Rattle.cdr_core.specs.Field.{octet, ushort, ulong, longlong, boolean, text, octets};
ghost use Rattle.cdr_core.specs.Cursor.{Cursor, Reads, Skips, IsUnit};
ghost use Rattle.cdr_core.specs.Refusal.{Refuses, LacksPadding};

use crate::fault::CdrFault;
use crate::view::View;
use std::alloc::Global;
use std::marker::Model;

/// Reads the fields of a CDR message or encapsulation, one behind the other, as a [`View`] does, and copies
/// the bytes of strings and sequences. A refused read leaves the reader as it was.
#[derive(Drop)]
pub struct Reader<'a> {
    view: View<'a>,
}

impl<'a> Model for Reader<'a> {
    ghost use Rattle.cdr_core.specs.Cursor.{Cursor};

    ghost Value = { Cursor };

    ghost view = { λ r. r.view };
}

impl<'a> Reader<'a> {
    /// A reader of `bytes`, little-endian where `little` is true. `base` is the place of the first byte,
    /// counted from the start of the message or encapsulation: alignment is that of places.
    pub fn new(bytes: &'a [u8], little: bool, base: u64) -> Reader<'a>
        requires { base < 2 ^ 40 }
        ensures { result ≡ record { little = little; place = base; rest = bytes.now } }
    {
        Reader {
            view: View::new(bytes, little, base),
        }
    }

    /// The place of the first unread byte.
    pub fn place(&self) -> u64
        ensures value { result ≡ self.now.place }
        ensures bound { self.now.place + length self.now.rest < 2 ^ 64 }
    {
        self.view.place()
    }

    /// Passes the padding up to the next multiple of `unit`, which is 1, 2, 4 or 8. `Short` where that padding
    /// isn't whole: `need` is its size and `have` what is left.
    pub fn skip_to(&mut self, unit: u64) -> Result<(), CdrFault>
        requires { IsUnit unit }
        ensures ok { OnOk result (Skips unit self.old self.new) }
        ensures refused { IfErr result (λ e. LacksPadding unit self.old e) }
        ensures err { OnErr result (self.new ≡ self.old) }
    {
        self.view.skip_to(unit)?;
        Ok(())
    }

    /// An octet, which has no alignment. `Short` where none is left.
    pub fn octet(&mut self) -> Result<u8, CdrFault>
        ensures ok { IfOk result (λ n. Reads (octet n) self.old self.new) }
        ensures refused { IfErr result (λ e. Refuses Octet self.old e) }
        ensures err { OnErr result (self.new ≡ self.old) }
    {
        Ok(self.view.octet()?)
    }

    /// An unsigned short at a multiple of 2. `Short` where its 2 bytes aren't left behind the padding.
    pub fn ushort(&mut self) -> Result<u16, CdrFault>
        ensures ok { IfOk result (λ n. Reads (ushort n) self.old self.new) }
        ensures refused { IfErr result (λ e. Refuses UShort self.old e) }
        ensures err { OnErr result (self.new ≡ self.old) }
    {
        Ok(self.view.ushort()?)
    }

    /// An unsigned long, or an enum, at a multiple of 4. `Short` where its 4 bytes aren't left behind the
    /// padding.
    pub fn ulong(&mut self) -> Result<u32, CdrFault>
        ensures ok { IfOk result (λ n. Reads (ulong n) self.old self.new) }
        ensures refused { IfErr result (λ e. Refuses ULong self.old e) }
        ensures err { OnErr result (self.new ≡ self.old) }
    {
        Ok(self.view.ulong()?)
    }

    /// A signed long long at a multiple of 8. `Short` where its 8 bytes aren't left behind the padding.
    pub fn longlong(&mut self) -> Result<i64, CdrFault>
        ensures ok { IfOk result (λ n. Reads (longlong n) self.old self.new) }
        ensures refused { IfErr result (λ e. Refuses LongLong self.old e) }
        ensures err { OnErr result (self.new ≡ self.old) }
    {
        Ok(self.view.longlong()?)
    }

    /// A boolean, an octet 0 or 1. `Short` where no octet is left, `BadBool` where it is above 1.
    pub fn boolean(&mut self) -> Result<bool, CdrFault>
        ensures ok { IfOk result (λ b. Reads (boolean b) self.old self.new) }
        ensures refused { IfErr result (λ e. Refuses Boolean self.old e) }
        ensures err { OnErr result (self.new ≡ self.old) }
    {
        Ok(self.view.boolean()?)
    }

    /// A string, without its final NUL: a ulong length that counts the NUL, and as many bytes. Length 0 is
    /// read as the empty string, and a NUL in front of the last byte is a byte like others. `Short` where the
    /// length or the bytes aren't whole, `NoNul` where the last of them isn't NUL.
    pub fn text(&mut self, alloc: Global) -> Result<Vec<u8>, CdrFault>
        ensures ok { IfOk result (λ v. Reads (text v.items) self.old self.new) }
        ensures refused { IfErr result (λ e. (e ≡ CdrFault.WantMemory) ⊎ Refuses Text self.old e) }
        ensures err { OnErr result (self.new ≡ self.old) }
    {
        let mut ahead = self.view.copy();
        let part = ahead.text()?;
        let kept = Vec::from_slice(alloc, part)?;
        self.view = ahead;
        Ok(kept)
    }

    /// A sequence of octets: a ulong count, and as many octets. `Short` where the count or the octets aren't
    /// whole.
    pub fn octets(&mut self, alloc: Global) -> Result<Vec<u8>, CdrFault>
        ensures ok { IfOk result (λ v. Reads (octets v.items) self.old self.new) }
        ensures refused { IfErr result (λ e. (e ≡ CdrFault.WantMemory) ⊎ Refuses Octets self.old e) }
        ensures err { OnErr result (self.new ≡ self.old) }
    {
        let mut ahead = self.view.copy();
        let part = ahead.octets()?;
        let kept = Vec::from_slice(alloc, part)?;
        self.view = ahead;
        Ok(kept)
    }
}
