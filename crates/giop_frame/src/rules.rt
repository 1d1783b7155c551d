//! The rules that make a place of a stream bad.
ghost use Rattle.std.specs.Prelude.{◌≡◌, ◌+◌, ◌<◌, ◌≤◌, ◌^◌, None, Some, if◌then◌else◌, length, nat_lt, option_copied, bytes_eq, codes, take};
ghost use Rattle.giop_frame.specs.Part.{header_of, id_end};
ghost use Rattle.giop_frame.specs.Open.{open_bytes};
ghost use Rattle.giop_frame.specs.declared.why.Why.TheVariants.{TooLong};
ghost use Rattle.giop_frame.specs.Rules.{look_at, look_whole, unless, foreign_fault, is_bad_type, is_too_long, is_stray, is_bad_start, size_fault, fragment_fault, id_fault};

use crate::header::{FRAGMENT, HEADER, Header, NEWEST_MINOR, id_of};
use crate::open_messages::OpenMessages;
use crate::opened::Opened;
use crate::why::Why;

/// The bytes of all open messages of one stream together.
pub(crate) const OPEN_LIMIT: u64 = 16_777_216;

/// The octets `GIOP`.
const MAGIC: u32 = 0x4749_4f50;

/// What a text shows of its first part.
#[derive(Clone, Copy)]
pub(crate) enum Look {
    /// Not enough to say anything.
    Unfinished,
    /// A good part of so many bytes, which are all there.
    Whole(usize),
    /// It is bad.
    Bad(Why),
}

/// What a text shows of its first part, while these messages are open.
pub(crate) fn look_at(limit: u32, pending: &OpenMessages, text: &[u8]) -> Look
    requires { open_bytes pending.now ≤ OPEN_LIMIT }
    ensures { result ≡ look_at limit pending.now text.now }
{
    if text.len() < HEADER {
        return Look::Unfinished;
    }
    if let Some(why) = foreign_fault(text) {
        return Look::Bad(why);
    }
    let header = Header::read(text);
    if header.is_alone() {
        return look_alone(limit, header, text);
    }
    if let Some(why) = size_fault(limit, pending, header) {
        return Look::Bad(why);
    }
    if text.len() < header.id_end() {
        return Look::Unfinished;
    }
    if let Some(why) = id_fault(limit, pending, header, text) {
        return Look::Bad(why);
    }
    look_whole(header, text)
}

/// What a text shows of a message that comes in one part: only its size can spoil it.
fn look_alone(limit: u32, header: Header, text: &[u8]) -> Look
    ensures { result ≡ unless (if nat_lt limit header.size then Some TooLong else None) (look_whole header text.now) }
{
    if header.size > limit {
        return Look::Bad(Why::TooLong);
    }
    look_whole(header, text)
}

/// What a text shows of a part that breaks no rule.
fn look_whole(header: Header, text: &[u8]) -> Look
    ensures { result ≡ look_whole header text.now }
{
    let whole = HEADER + header.size as usize;
    if text.len() < whole {
        Look::Unfinished
    } else {
        Look::Whole(whole)
    }
}

/// The first rule that a header of GIOP breaks, whatever id follows it.
fn size_fault(limit: u32, pending: &OpenMessages, header: Header) -> Option<Why>
    requires { open_bytes pending.now ≤ OPEN_LIMIT }
    ensures { result ≡ size_fault limit pending.now header }
{
    if is_too_long(limit, pending, header) {
        return Some(Why::TooLong);
    }
    if is_stray(pending, header) {
        return Some(Why::StrayFragment);
    }
    if header.more && !header.continues() && (!header.opens() || header.size < 4) {
        return Some(Why::BadFragment);
    }
    None
}

/// The rule that a text breaks which begins with no header of GIOP 1.0, 1.1 or 1.2.
fn foreign_fault(text: &[u8]) -> Option<Why>
    requires { HEADER ≤ length text.now }
    ensures { result ≡ foreign_fault text.now }
{
    if !has_magic(text) {
        return Some(Why::BadMagic);
    }
    if text[4] != 1 || text[5] > NEWEST_MINOR {
        return Some(Why::BadVersion);
    }
    if is_bad_type(text[5], text[7]) {
        Some(Why::BadType)
    } else {
        None
    }
}

/// Whether a text begins with the four octets of each header. They are compared as one number, since a call that compares
/// slices takes an eighth of the time of a small message.
fn has_magic(text: &[u8]) -> bool
    requires { HEADER ≤ length text.now }
    ensures { result ≡ bytes_eq (take 4 text.now) (codes "GIOP") }
{
    u32::from_be_bytes([text[0], text[1], text[2], text[3]]) == MAGIC
}

/// Whether the version has no message of this type: version 1.0 has no Fragment.
fn is_bad_type(minor: u8, kind: u8) -> bool
    ensures { result ≡ is_bad_type minor kind }
{
    if kind < FRAGMENT {
        return false;
    }
    kind > FRAGMENT || minor == 0
}

/// Whether this is the header of a Fragment that no id can save.
fn is_stray(pending: &OpenMessages, header: Header) -> bool
    ensures { result ≡ is_stray pending.now header }
{
    header.continues() && (header.minor != NEWEST_MINOR || header.size < 4 || pending.is_empty())
}

/// Whether a part of this header is too long, whatever its id is.
fn is_too_long(limit: u32, pending: &OpenMessages, header: Header) -> bool
    requires { open_bytes pending.now ≤ OPEN_LIMIT }
    ensures { result ≡ is_too_long limit pending.now header }
{
    let size = u64::from(header.size);
    header.size > limit || header.opens() && pending.bytes() + 12 + size > OPEN_LIMIT
}

/// The first rule that a part breaks by its id.
fn id_fault(limit: u32, pending: &OpenMessages, header: Header, text: &[u8]) -> Option<Why>
    requires read { header ≡ header_of text.now }
    requires id { id_end header ≤ length text.now }
    requires header { HEADER ≤ length text.now }
    requires bounded { open_bytes pending.now ≤ OPEN_LIMIT }
    ensures { result ≡ id_fault limit pending.now text.now }
{
    if header.continues() {
        return fragment_fault(limit, pending, header, pending.find(id_of(text)));
    }
    if header.opens() && pending.find(id_of(text)).is_some() {
        return Some(Why::BadFragment);
    }
    None
}

/// The first rule that a Fragment breaks, whose message is this one.
fn fragment_fault(
    limit: u32,
    pending: &OpenMessages,
    header: Header,
    found: Option<&Opened>,
) -> Option<Why>
    requires { open_bytes pending.now ≤ OPEN_LIMIT }
    ensures { result ≡ fragment_fault limit pending.now header (option_copied found.entry) }
{
    let size = u64::from(header.size).saturating_sub(4);
    if pending.bytes() + size > OPEN_LIMIT {
        return Some(Why::TooLong);
    }
    let Some(opened) = found else {
        return Some(Why::StrayFragment);
    };
    let joined = opened.len().saturating_sub(12).saturating_add(size);
    if joined > u64::from(limit) {
        return Some(Why::TooLong);
    }
    if header.little != opened.is_little() {
        Some(Why::BadFragment)
    } else {
        None
    }
}
