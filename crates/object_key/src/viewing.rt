//! From octets to a key that is seen where it lies.
ghost use Rattle.std.specs.Prelude.{◌≡◌, ◌≢◌, ◌++◌, ◌∷◌, ℕ, List, Ok, IfOk, IfErr, IfSome, IfNone};
ghost use Rattle.poa_base.specs.declared.Key.{Key};
ghost use Rattle.poa_base.specs.Limits.{IsOid, IsName};
ghost use Rattle.object_key.specs.Spelling.{key_mark, name_bytes, path_bytes, oid_bytes, key_spelling, ArePathNames, IsKey};
ghost use Rattle.object_key.specs.Lifespan.{spelled_lifespan, IsLifespan};
ghost use Rattle.object_key.specs.Reading.{KeyReads, ReadsNone, AreNames, names_bytes, names_of};
ghost use Rattle.object_key.specs.Lent.{LendsKey};

use crate::fault::BadKey;
use crate::key_lifespan::KeyLifespan;
use crate::key_view::KeyView;
use crate::path_view::PathView;
use crate::unread::Unread;
use poa_base::Stamp;

/// The key that the bytes spell, seen where it lies: its names and its object id are slices of the bytes.
/// `BadKey`: no key is spelled so. Takes no memory.
pub fn view_key(bytes: &[u8]) -> Result<KeyView<'_>, BadKey>
    // What is seen is a key, and the bytes are its spelling, to the last one.
    ensures spelled { IfOk result (λ key. IsKey key × (key_spelling key ≡ bytes.now)) }
    ensures bad { IfErr result (λ _. (key : Key) → IsKey key → key_spelling key ≢ bytes.now) }
    // The spelling of a key is seen as that key.
    ensures back { (key : Key) → IsKey key → key_spelling key ≡ bytes.now → result ≡ Ok key }
    // Each part is the slice of the bytes at the place that the spelling gives it.
    ensures lent { IfOk result (λ key. LendsKey bytes.now key) }
{
    match view_whole(bytes) {
        Some(key) => Ok(key),
        None => Err(BadKey),
    }
}

// A key, and nothing behind it.
fn view_whole(bytes: &[u8]) -> Option<KeyView<'_>>
    ensures spelled { IfSome result (λ key. IsKey key × (key_spelling key ≡ bytes.now)) }
    ensures bad { IfNone result ((key : Key) → IsKey key → key_spelling key ≢ bytes.now) }
{
    let mut unread = Unread::new(bytes);
    pass_mark(&mut unread)?;
    let lifespan = read_lifespan(&mut unread)?;
    let path = view_path(&mut unread)?;
    let oid = view_oid(&mut unread)?;
    if !unread.is_empty() {
        return None;
    }
    Some(KeyView::new(lifespan, path, oid))
}

// The octets before every key.
fn pass_mark(unread: &mut Unread) -> Option<()>
    ensures some { IfSome result (λ _. unread.old ≡ key_mark ++ unread.new) }
    ensures none { IfNone result ((rest : List ℕ) → unread.old ≢ key_mark ++ rest) }
{
    match unread.part(3) {
        Some([b'P', b'O', b'A']) => Some(()),
        _ => None,
    }
}

// The form and the lifespan, with what goes with them.
fn read_lifespan(unread: &mut Unread) -> Option<KeyLifespan>
    ensures some { IfSome result (λ lifespan. KeyReads spelled_lifespan IsLifespan lifespan unread.old unread.new) }
    ensures none { IfNone result (ReadsNone spelled_lifespan IsLifespan unread.old) }
{
    match unread.part(2) {
        Some([1, 0]) => read_stamp(unread),
        Some([1, 1]) => Some(KeyLifespan::Persistent { tag: 0 }),
        Some([2, 1]) => read_tag(unread),
        _ => None,
    }
}

// The stamp of a transient key.
fn read_stamp(unread: &mut Unread) -> Option<KeyLifespan>
    ensures some { IfSome result
        (λ lifespan. KeyReads spelled_lifespan IsLifespan lifespan (1 ∷ 0 ∷ unread.old) unread.new) }
    ensures none { IfNone result (ReadsNone spelled_lifespan IsLifespan (1 ∷ 0 ∷ unread.old)) }
{
    let run = unread.ulong()?;
    let number = unread.ulong()?;
    Some(KeyLifespan::Transient {
        stamp: Stamp { run, number },
    })
}

// The tag of a persistent key that has one.
fn read_tag(unread: &mut Unread) -> Option<KeyLifespan>
    ensures some { IfSome result
        (λ lifespan. KeyReads spelled_lifespan IsLifespan lifespan (2 ∷ 1 ∷ unread.old) unread.new) }
    ensures none { IfNone result (ReadsNone spelled_lifespan IsLifespan (2 ∷ 1 ∷ unread.old)) }
{
    let tag = unread.ushort()?;
    if tag == 0 {
        return None;
    }
    Some(KeyLifespan::Persistent { tag })
}

// The path of the adapter.
fn view_path<'a>(unread: &mut Unread<'a>) -> Option<PathView<'a>>
    ensures some { IfSome result (λ path. KeyReads path_bytes ArePathNames path unread.old unread.new) }
    ensures none { IfNone result (ReadsNone path_bytes ArePathNames unread.old) }
{
    let count = unread.octet()?;
    let names = view_names(unread, count)?;
    PathView::of_spelling(count, names)
}

// The octets of so many names.
fn view_names<'a>(unread: &mut Unread<'a>, count: u8) -> Option<&'a [u8]>
    ensures some { IfSome result (λ names. KeyReads names_bytes (AreNames count) (names_of count names.now) unread.old unread.new) }
    ensures whole { IfSome result (λ names. names_bytes (names_of count names.now) ≡ names.now) }
    ensures none { IfNone result (ReadsNone names_bytes (AreNames count) unread.old) }
{
    let text = unread.rest();
    pass_names(unread, count)?;
    Some(unread.passed(text))
}

// So many names.
fn pass_names(unread: &mut Unread, count: u8) -> Option<()>
    ensures some { IfSome result (λ _. KeyReads names_bytes (AreNames count) (names_of count unread.old) unread.old unread.new) }
    ensures none { IfNone result (ReadsNone names_bytes (AreNames count) unread.old) }
{
    for _ in 0..count {
        view_name(unread)?;
    }
    Some(())
}

// One name.
fn view_name<'a>(unread: &mut Unread<'a>) -> Option<&'a [u8]>
    ensures some { IfSome result (λ name. KeyReads name_bytes IsName name.now unread.old unread.new) }
    ensures none { IfNone result (ReadsNone name_bytes IsName unread.old) }
{
    let len = unread.octet()?;
    let part = unread.part(len as usize)?;
    if part.is_empty() || part.len() > 64 {
        return None;
    }
    Some(part)
}

// The object id.
fn view_oid<'a>(unread: &mut Unread<'a>) -> Option<&'a [u8]>
    ensures some { IfSome result (λ oid. KeyReads oid_bytes IsOid oid.now unread.old unread.new) }
    ensures none { IfNone result (ReadsNone oid_bytes IsOid unread.old) }
{
    let len = unread.ushort()?;
    let part = unread.part(len as usize)?;
    if part.len() > 256 {
        return None;
    }
    Some(part)
}
