ghost use Rattle.std.specs.Prelude.{◌≡◌, ◌+◌, ◌^◌, ◌<◌, [], length, take, vec_len, ◌++◌, replicate, OnOk, OnErr};
ghost use Rattle.std.specs.Int.{w32};
ghost use Rattle.cdr_core.specs.Field.{octet, ushort, ulong, longlong, boolean, text, octets};
ghost use Rattle.cdr_core.specs.Spelling.{number_bytes};
ghost use Rattle.cdr_core.specs.Cursor.{IsUnit};
ghost use Rattle.cdr_core.specs.Draft.{Draft, empty_draft, draft_behind, with_field, with_parts};

use crate::gap::padding;
use std::alloc::{AllocError as WantMemory, Global};
use std::marker::Model;

/// A string and a sequence of octets that are written stay below this.
const LIMIT: usize = 1 << 31;

/// Writes the fields of a CDR message or encapsulation, one behind the other. Each write appends the padding
/// up to the field's alignment, as zeros, and then the field; a write that finds no memory leaves the writer
/// as it was. Contracts see it as a draft: byte order, base and bytes.
#[derive(Drop)]
pub struct Writer {
    bytes: Vec<u8>,
    little: bool,
    base: u64,
}

impl Model for Writer {
    ghost use Rattle.std.specs.Prelude.{◌^◌, ◌<◌};
    ghost use Rattle.cdr_core.specs.Draft.{Draft};

    ghost Value = { Draft };

    ghost view = { λ w. record { little = w.little; base = w.base; bytes = w.bytes.items } };

    ghost invariant = { λ w. w.base < 2 ^ 40 };
}

impl Writer {
    /// A writer of no bytes yet, little-endian where `little` is true. `base` is the place that its first byte
    /// will have, counted from the start of the message or encapsulation: alignment is that of places.
    pub fn new(alloc: Global, little: bool, base: u64) -> Writer
        requires { base < 2 ^ 40 }
        ensures { result ≡ empty_draft little base }
    {
        Writer {
            bytes: Vec::new(alloc),
            little,
            base,
        }
    }

    /// A writer that goes on behind these bytes. `place` is the place of the byte that it writes next, counted from
    /// the start of the message or encapsulation, which may begin anywhere in the bytes.
    pub fn behind(bytes: Vec<u8>, little: bool, place: u64) -> Writer
        requires { place < 2 ^ 32 }
        ensures { result ≡ draft_behind little place bytes.items }
    {
        // The alignment of every field divides 8.
        let base = place + padding(8, bytes.len() as u64);
        Writer {
            bytes,
            little,
            base,
        }
    }

    /// Appends an octet.
    pub fn octet(&mut self, value: u8) -> Result<(), WantMemory>
        ensures ok { OnOk result (self.new ≡ with_field (octet value) self.old) }
        ensures err { OnErr result (self.new ≡ self.old) }
    {
        self.put_number(1, &[value])
    }

    /// Appends an unsigned short at a multiple of 2.
    pub fn ushort(&mut self, value: u16) -> Result<(), WantMemory>
        ensures ok { OnOk result (self.new ≡ with_field (ushort value) self.old) }
        ensures err { OnErr result (self.new ≡ self.old) }
    {
        let bytes = if self.little {
            value.to_le_bytes()
        } else {
            value.to_be_bytes()
        };
        self.put_number(2, &bytes)
    }

    /// Appends an unsigned long, or an enum, at a multiple of 4.
    pub fn ulong(&mut self, value: u32) -> Result<(), WantMemory>
        ensures ok { OnOk result (self.new ≡ with_field (ulong value) self.old) }
        ensures err { OnErr result (self.new ≡ self.old) }
    {
        let bytes = self.long_bytes(value);
        self.put_number(4, &bytes)
    }

    /// Appends a signed long long at a multiple of 8.
    pub fn longlong(&mut self, value: i64) -> Result<(), WantMemory>
        ensures ok { OnOk result (self.new ≡ with_field (longlong value) self.old) }
        ensures err { OnErr result (self.new ≡ self.old) }
    {
        let bytes = if self.little {
            value.to_le_bytes()
        } else {
            value.to_be_bytes()
        };
        self.put_number(8, &bytes)
    }

    /// Appends a boolean, an octet 0 or 1.
    pub fn boolean(&mut self, value: bool) -> Result<(), WantMemory>
        ensures ok { OnOk result (self.new ≡ with_field (boolean value) self.old) }
        ensures err { OnErr result (self.new ≡ self.old) }
    {
        self.put_number(1, &[u8::from(value)])
    }

    /// Appends a string: a ulong length that counts the final NUL, the bytes and the NUL. So the empty string
    /// has length 1. A NUL among `bytes` is a byte like others.
    pub fn text(&mut self, bytes: &[u8]) -> Result<(), WantMemory>
        requires { length bytes.now < 2 ^ 31 }
        ensures ok { OnOk result (self.new ≡ with_field (text bytes.now) self.old) }
        ensures err { OnErr result (self.new ≡ self.old) }
    {
        let count = self.long_bytes(bytes.len() as u32 + 1);
        self.put(4, &count, bytes, &[0])
    }

    /// Appends a sequence of octets: a ulong count, and the octets.
    pub fn octets(&mut self, bytes: &[u8]) -> Result<(), WantMemory>
        requires { length bytes.now < 2 ^ 31 }
        ensures ok { OnOk result (self.new ≡ with_field (octets bytes.now) self.old) }
        ensures err { OnErr result (self.new ≡ self.old) }
    {
        let count = self.long_bytes(bytes.len() as u32);
        self.put(4, &count, bytes, &[])
    }

    /// Appends a string of any length, as [`Writer::text`] does. `WantMemory` is also the answer to 2^31 bytes or
    /// more.
    pub fn put_text(&mut self, bytes: &[u8]) -> Result<(), WantMemory>
        ensures ok { OnOk result (self.new ≡ with_field (text bytes.now) self.old) }
        ensures fits { OnOk result (length bytes.now < 2 ^ 31) }
        ensures err { OnErr result (self.new ≡ self.old) }
    {
        if bytes.len() >= LIMIT {
            return Err(WantMemory);
        }
        self.text(bytes)
    }

    /// Appends a sequence of octets of any length, as [`Writer::octets`] does. `WantMemory` is also the answer to
    /// 2^31 octets or more.
    pub fn put_octets(&mut self, bytes: &[u8]) -> Result<(), WantMemory>
        ensures ok { OnOk result (self.new ≡ with_field (octets bytes.now) self.old) }
        ensures fits { OnOk result (length bytes.now < 2 ^ 31) }
        ensures err { OnErr result (self.new ≡ self.old) }
    {
        if bytes.len() >= LIMIT {
            return Err(WantMemory);
        }
        self.octets(bytes)
    }

    /// The bytes written.
    pub fn into_bytes(self) -> Vec<u8>
        ensures { result.items ≡ self.bytes }
    {
        let Writer {
            bytes,
            little: _,
            base: _,
        } = self;
        bytes
    }

    // The bytes of a ulong in this writer's byte order.
    fn long_bytes(&self, value: u32) -> [u8; 4]
        ensures { result ≡ number_bytes self.now.little w32 value }
    {
        if self.little {
            value.to_le_bytes()
        } else {
            value.to_be_bytes()
        }
    }

    // Appends the padding up to a multiple of `unit` and the bytes of a number. Most numbers need no padding, and are then
    // one append.
    fn put_number(&mut self, unit: u64, number: &[u8]) -> Result<(), WantMemory>
        requires { IsUnit unit }
        ensures ok { OnOk result (self.new ≡ with_parts unit number.now [] [] self.old) }
        ensures err { OnErr result (self.new ≡ self.old) }
    {
        if padding(unit, self.base + self.bytes.len() as u64) > 0 {
            return self.put(unit, number, &[], &[]);
        }
        self.bytes.extend_from_slice(number)
    }

    // Appends the padding up to a multiple of `unit` and these three, all or nothing.
    fn put(&mut self, unit: u64, head: &[u8], body: &[u8], tail: &[u8]) -> Result<(), WantMemory>
        requires { IsUnit unit }
        ensures ok { OnOk result (self.new ≡ with_parts unit head.now body.now tail.now self.old) }
        ensures err { OnErr result (self.new ≡ self.old) }
    {
        let len = self.bytes.len();
        let gap = padding(unit, self.base + len as u64);
        let done = extend(&mut self.bytes, gap, head, body, tail);
        if done.is_err() {
            self.bytes.truncate(len);
        }
        done
    }
}

// Appends `gap` zeros and these three. Where memory runs out only some of it stands behind what stood there.
fn extend(
    out: &mut Vec<u8>,
    gap: u64,
    head: &[u8],
    body: &[u8],
    tail: &[u8],
) -> Result<(), WantMemory>
    requires { gap < 8 }
    ensures ok { OnOk result (out.new.items ≡ out.old.items ++ (replicate gap 0 ++ head.now ++ body.now ++ tail.now)) }
    ensures front { take (vec_len out.old) out.new.items ≡ out.old.items }
{
    out.extend_from_slice(&[0; 8][..gap as usize])?;
    out.extend_from_slice(head)?;
    out.extend_from_slice(body)?;
    out.extend_from_slice(tail)?;
    Ok(())
}
