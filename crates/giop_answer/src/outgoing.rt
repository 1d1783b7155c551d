//! Messages that are written.
ghost use Rattle.std.specs.Prelude.{◌≡◌, ◌+◌, ◌^◌, ◌<◌, ◌≤◌, ◌++◌, [], ℕ, List, length, take, vec_len, IfOk, OnOk, OnErr};
ghost use Rattle.giop_answer.specs.Outgoing.{framed as framed_bytes};

use crate::kind::HEADER;
use poa_base::{Bytes, WantMemory};
use std::alloc::Global;

/// A header of this minor version, type and byte order, and what follows it: CORBA 3.3 Part 2, 9.4.1.
/// `WantMemory` is also the answer to 2^32 bytes or more, whose size no header tells.
pub fn framed(
    alloc: Global,
    minor: u8,
    kind: u8,
    little: bool,
    content: &[u8],
) -> Result<Bytes, WantMemory>
    ensures { IfOk result (λ bytes. bytes ≡ framed_bytes minor kind little content.now) }
{
    let mut message = Vec::new(alloc);
    put_header(&mut message, minor, kind, little)?;
    message.extend_from_slice(content)?;
    tell_size(&mut message, 0, little)?;
    Ok(Bytes::from_vec(message))
}

/// Puts a header behind other bytes, which tells that nothing follows it.
pub(crate) fn put_header(
    out: &mut Vec<u8>,
    minor: u8,
    kind: u8,
    little: bool,
) -> Result<(), WantMemory>
    ensures ok { OnOk result (out.new.items ≡ out.old.items ++ framed_bytes minor kind little []) }
    ensures front { take (vec_len out.old) out.new.items ≡ out.old.items }
{
    let order = u8::from(little);
    let header = [b'G', b'I', b'O', b'P', 1, minor, order, kind, 0, 0, 0, 0];
    out.extend_from_slice(&header)
}

/// Tells in the header of the message that begins at `start` what follows there. `WantMemory` is the answer to 2^32 bytes or
/// more, whose size no header tells.
pub(crate) fn tell_size(out: &mut [u8], start: usize, little: bool) -> Result<(), WantMemory>
    requires { start + HEADER ≤ length out.old }
    ensures ok { (front content : List ℕ) (minor kind : ℕ) → length front ≡ start
        → out.old ≡ front ++ (framed_bytes minor kind little [] ++ content)
        → OnOk result (out.new ≡ front ++ framed_bytes minor kind little content) }
    ensures front { take start out.new ≡ take start out.old }
    ensures len { length out.new ≡ length out.old }
{
    let (_, message) = out.split_at_mut(start);
    put_size(message, little)
}

// The same of a message.
fn put_size(message: &mut [u8], little: bool) -> Result<(), WantMemory>
    requires { HEADER ≤ length message.old }
    ensures ok { (minor : ℕ) (kind : ℕ) (content : List ℕ) → message.old ≡ framed_bytes minor kind little [] ++ content
        → OnOk result (message.new ≡ framed_bytes minor kind little content) }
    ensures len { length message.new ≡ length message.old }
{
    let Ok(size) = u32::try_from(message.len() - HEADER as usize) else {
        return Err(WantMemory);
    };
    let size_bytes = if little {
        size.to_le_bytes()
    } else {
        size.to_be_bytes()
    };
    message[8..12].copy_from_slice(&size_bytes);
    Ok(())
}
