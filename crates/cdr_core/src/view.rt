//! Fields that are read where they lie.
ghost use Rattle.std.specs.Prelude.{◌≡◌, ◌+◌, ◌^◌, ◌<◌, ◌-◌, ◌≢◌, ◌⊎◌, length, slice_index, IfOk, IfErr, OnOk, OnErr};
ghost use Rattle.std.specs.Int.{w64};
ghost use Rattle.cdr_core.specs.Kind.{Octet, UShort, ULong, LongLong, Boolean, Text, Octets};
ghost use Rattle.cdr_core.specs.Field.{octet, ushort, ulong, longlong, boolean, text, octets};
ghost use Rattle.cdr_core.specs.Spelling.{number_bytes};
ghost use Rattle.cdr_core.specs.Cursor.{Cursor, Reads, Skips, Takes, Counts, EndsInNul, IsUnit};
ghost use Rattle.cdr_core.specs.Refusal.{Refuses, LacksPadding, LacksBytes, IsShort};
ghost use Rattle.cdr_core.specs.Fault.{refusal};
ghost use Rattle.cdr_core.specs.Part.{LiesAt, counted_at};

use crate::gap::padding;
use crate::part_fault::PartFault;
use std::marker::Model;

/// Reads the fields of a CDR message or encapsulation, one behind the other, and lends its parts. Each read
/// passes the padding up to the field's alignment, whose bytes may have any value, and then the field; a
/// refused read leaves the view as it was. Contracts see it as a cursor: byte order, place and unread bytes.
#[derive(Drop)]
pub struct View<'a> {
    rest: &'a [u8],
    little: bool,
    place: u64,
}

impl<'a> Model for View<'a> {
    ghost use Rattle.std.specs.Prelude.{◌+◌, ◌^◌, ◌<◌, length};
    ghost use Rattle.cdr_core.specs.Cursor.{Cursor};

    ghost Value = { Cursor };

    ghost view = { λ v. record { little = v.little; place = v.place; rest = v.rest.now } };

    ghost invariant = { λ v. v.place + length v.rest.now < 2 ^ 64 };
}

impl<'a> View<'a> {
    /// A view of `bytes`, little-endian where `little` is true. `base` is the place of the first byte,
    /// counted from the start of the message or encapsulation: alignment is that of places.
    pub fn new(bytes: &'a [u8], little: bool, base: u64) -> View<'a>
        requires { base < 2 ^ 40 }
        ensures { result ≡ record { little = little; place = base; rest = bytes.now } }
    {
        View {
            rest: bytes,
            little,
            place: base,
        }
    }

    /// The place of the first unread byte.
    pub fn place(&self) -> u64
        ensures value { result ≡ self.now.place }
        ensures bound { self.now.place + length self.now.rest < 2 ^ 64 }
    {
        self.place
    }

    /// All that is unread.
    pub fn rest(&self) -> &'a [u8]
        ensures { result.now ≡ self.now.rest }
    {
        self.rest
    }

    /// Passes the padding up to the next multiple of `unit`, which is 1, 2, 4 or 8. `Short` where that padding
    /// isn't whole: `need` is its size and `have` what is left.
    pub fn skip_to(&mut self, unit: u64) -> Result<(), PartFault>
        requires { IsUnit unit }
        ensures ok { OnOk result (Skips unit self.old self.new) }
        ensures refused { IfErr result (λ e. LacksPadding unit self.old (refusal e)) }
        ensures err { OnErr result (self.new ≡ self.old) }
    {
        let need = padding(unit, self.place);
        let have = self.rest.len() as u64;
        if have < need {
            return Err(PartFault::Short { need, have });
        }
        let (_, rest) = self.rest.split_at(need as usize);
        self.rest = rest;
        self.place += need;
        Ok(())
    }

    /// An octet, which has no alignment. `Short` where none is left.
    pub fn octet(&mut self) -> Result<u8, PartFault>
        ensures ok { IfOk result (λ n. Reads (octet n) self.old self.new) }
        ensures refused { IfErr result (λ e. Refuses Octet self.old (refusal e)) }
        ensures err { OnErr result (self.new ≡ self.old) }
    {
        let body = self.number(1)?;
        Ok(body[0])
    }

    /// An unsigned short at a multiple of 2. `Short` where its 2 bytes aren't left behind the padding.
    pub fn ushort(&mut self) -> Result<u16, PartFault>
        ensures ok { IfOk result (λ n. Reads (ushort n) self.old self.new) }
        ensures refused { IfErr result (λ e. Refuses UShort self.old (refusal e)) }
        ensures err { OnErr result (self.new ≡ self.old) }
    {
        let little = self.little;
        let body = self.number(2)?;
        let bytes = [body[0], body[1]];
        Ok(if little {
            u16::from_le_bytes(bytes)
        } else {
            u16::from_be_bytes(bytes)
        })
    }

    /// An unsigned long, or an enum, at a multiple of 4. `Short` where its 4 bytes aren't left behind the
    /// padding.
    pub fn ulong(&mut self) -> Result<u32, PartFault>
        ensures ok { IfOk result (λ n. Reads (ulong n) self.old self.new) }
        ensures refused { IfErr result (λ e. Refuses ULong self.old (refusal e)) }
        ensures err { OnErr result (self.new ≡ self.old) }
    {
        let little = self.little;
        let body = self.number(4)?;
        let bytes = [body[0], body[1], body[2], body[3]];
        Ok(if little {
            u32::from_le_bytes(bytes)
        } else {
            u32::from_be_bytes(bytes)
        })
    }

    /// A signed long long at a multiple of 8. `Short` where its 8 bytes aren't left behind the padding.
    pub fn longlong(&mut self) -> Result<i64, PartFault>
        ensures ok { IfOk result (λ n. Reads (longlong n) self.old self.new) }
        ensures refused { IfErr result (λ e. Refuses LongLong self.old (refusal e)) }
        ensures err { OnErr result (self.new ≡ self.old) }
    {
        let bits = self.eight()?;
        Ok(bits.cast_signed())
    }

    /// A boolean, an octet 0 or 1. `Short` where no octet is left, `BadBool` where it is above 1.
    pub fn boolean(&mut self) -> Result<bool, PartFault>
        ensures ok { IfOk result (λ b. Reads (boolean b) self.old self.new) }
        ensures refused { IfErr result (λ e. Refuses Boolean self.old (refusal e)) }
        ensures err { OnErr result (self.new ≡ self.old) }
    {
        let mut ahead = self.copy();
        let value = ahead.octet()?;
        if value > 1 {
            return Err(PartFault::BadBool { value });
        }
        *self = ahead;
        Ok(value == 1)
    }

    /// A string, without its final NUL: a ulong length that counts the NUL, and as many bytes. It is lent from
    /// where it lies, right behind its length. Length 0 is read as the empty string, and a NUL in front of the
    /// last byte is a byte like others. `Short` where the length or the bytes aren't whole, `NoNul` where the
    /// last of them isn't NUL.
    pub fn text(&mut self) -> Result<&'a [u8], PartFault>
        ensures ok { IfOk result (λ part. Reads (text part.now) self.old self.new) }
        ensures lent { IfOk result (λ part. LiesAt (counted_at self.old.place) part.now self.old) }
        ensures refused { IfErr result (λ e. Refuses Text self.old (refusal e)) }
        ensures err { OnErr result (self.new ≡ self.old) }
    {
        let mut ahead = self.copy();
        let counted = ahead.counted()?;
        let part = without_nul(counted)?;
        *self = ahead;
        Ok(part)
    }

    /// A sequence of octets: a ulong count, and as many octets, lent from where they lie, right behind their
    /// count. `Short` where the count or the octets aren't whole.
    pub fn octets(&mut self) -> Result<&'a [u8], PartFault>
        ensures ok { IfOk result (λ part. Reads (octets part.now) self.old self.new) }
        ensures lent { IfOk result (λ part. LiesAt (counted_at self.old.place) part.now self.old) }
        ensures refused { IfErr result (λ e. Refuses Octets self.old (refusal e)) }
        ensures err { OnErr result (self.new ≡ self.old) }
    {
        let part = self.counted()?;
        Ok(part)
    }

    // A view that stands at the same place, to read ahead with.
    pub(crate) fn copy(&self) -> View<'a>
        ensures { result ≡ self.now }
    {
        View {
            rest: self.rest,
            little: self.little,
            place: self.place,
        }
    }

    // The bytes of a number of this size, which is its alignment too.
    fn number(&mut self, size: u64) -> Result<&'a [u8], PartFault>
        requires { IsUnit size }
        ensures ok { IfOk result (λ body. Takes size body.now self.old self.new) }
        ensures refused { IfErr result (λ e. IsShort size self.old (refusal e)) }
        ensures err { OnErr result (self.new ≡ self.old) }
    {
        let gap = padding(size, self.place);
        let have = (self.rest.len() as u64).saturating_sub(gap);
        if have < size {
            return Err(PartFault::Short { need: size, have });
        }
        let (_, behind) = self.rest.split_at(gap as usize);
        let (body, rest) = behind.split_at(size as usize);
        self.rest = rest;
        self.place += gap + size;
        Ok(body)
    }

    // Eight bytes at a multiple of 8, as an unsigned number.
    fn eight(&mut self) -> Result<u64, PartFault>
        ensures ok { IfOk result (λ n. Takes 8 (number_bytes self.old.little w64 n) self.old self.new) }
        ensures refused { IfErr result (λ e. IsShort 8 self.old (refusal e)) }
        ensures err { OnErr result (self.new ≡ self.old) }
    {
        let little = self.little;
        let body = self.number(8)?;
        let bytes = [
            body[0], body[1], body[2], body[3], body[4], body[5], body[6], body[7],
        ];
        Ok(if little {
            u64::from_le_bytes(bytes)
        } else {
            u64::from_be_bytes(bytes)
        })
    }

    // A ulong length and as many bytes.
    fn counted(&mut self) -> Result<&'a [u8], PartFault>
        ensures ok { IfOk result (λ bytes. Counts bytes.now self.old self.new) }
        ensures refused { IfErr result (λ e. IsShort 4 self.old (refusal e) ⊎ LacksBytes self.old (refusal e)) }
        ensures err { OnErr result (self.new ≡ self.old) }
    {
        let mut ahead = self.copy();
        let need = u64::from(ahead.ulong()?);
        let have = ahead.rest.len() as u64;
        if have < need {
            return Err(PartFault::Short { need, have });
        }
        let (bytes, rest) = ahead.rest.split_at(need as usize);
        ahead.rest = rest;
        ahead.place += need;
        *self = ahead;
        Ok(bytes)
    }
}

// What stands in front of the final NUL of a string's bytes; no bytes at all are an empty string too.
fn without_nul<'a>(bytes: &'a [u8]) -> Result<&'a [u8], PartFault>
    ensures ok { IfOk result (λ front. EndsInNul front.now bytes.now) }
    ensures refused { IfErr result
        (λ e. (e ≡ PartFault.NoNul) × (0 < length bytes.now) × (slice_index bytes.now (length bytes.now - 1) ≢ 0)) }
{
    match bytes {
        [] => Ok(bytes),
        [front @ .., 0] => Ok(front),
        [..] => Err(PartFault::NoNul),
    }
}
