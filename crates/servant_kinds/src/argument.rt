//! The argument of an operation, read from the body of a request.
ghost use Rattle.std.specs.Prelude.{◌≡◌, ◌≢◌, IfOk, OnOk};
ghost use Rattle.servant_kinds.specs.Arguments.{reading_start, longlong_of, ulong_of, octets_of, text_of};

use cdr_core::{CdrFault, Reader};
use poa_base::{Body, Bytes, WantMemory};
use std::alloc::Global;

/// A long long; none where none can be read.
pub(crate) fn longlong(body: &Body) -> Option<i64>
    ensures { result ≡ longlong_of body.now }
{
    front(body).longlong().ok()
}

/// An unsigned long; none where none can be read.
pub(crate) fn ulong(body: &Body) -> Option<u32>
    ensures { result ≡ ulong_of body.now }
{
    front(body).ulong().ok()
}

/// A sequence of octets; none where none can be read.
pub(crate) fn octets(alloc: Global, body: &Body) -> Result<Option<Bytes>, WantMemory>
    ensures { IfOk result (λ octets. octets ≡ octets_of body.now) }
{
    match front(body).octets(alloc) {
        Ok(bytes) => Ok(Some(Bytes::from_vec(bytes))),
        Err(fault) => unreadable(fault),
    }
}

/// A string without its NUL; none where none can be read.
pub(crate) fn text(alloc: Global, body: &Body) -> Result<Option<Bytes>, WantMemory>
    ensures { IfOk result (λ text. text ≡ text_of body.now) }
{
    match front(body).text(alloc) {
        Ok(bytes) => Ok(Some(Bytes::from_vec(bytes))),
        Err(fault) => unreadable(fault),
    }
}

/// A reader at the front of a body.
fn front(body: &Body) -> Reader<'_>
    ensures { result ≡ reading_start body.now }
{
    Reader::new(body.bytes.as_slice(), body.little, body.base % 8)
}

/// No argument, unless it was memory that lacked.
fn unreadable(fault: CdrFault) -> Result<Option<Bytes>, WantMemory>
    ensures none { IfOk result (λ argument. argument ≡ None) }
    ensures other { OnOk result (fault ≢ CdrFault.WantMemory) }
{
    match fault {
        CdrFault::WantMemory => Err(WantMemory),
        _ => Ok(None),
    }
}
