//! The line of a key.
ghost use Rattle.std.specs.Prelude.{◌≡◌, ◌++◌, OnOk};
ghost use Rattle.std.specs.List.{list_all};
ghost use Rattle.object_key.specs.Spelling.{key_spelling};
ghost use Rattle.text_words.specs.Path.{path_text as path_spelling};
ghost use Rattle.poad_files.specs.Printed as spec;
ghost use Rattle.poad_files.specs.KeyLine.{KeyShown, stamp_words, tag_words, hexed_key, key_line};
ghost use Rattle.poad_files.specs.Shown.{Adds};

use crate::printed::{is_plain, put_hexed, put_text};
use object_key::{KeyFault, read_key};
use poa_base::{Key, Path, Stamp, WantMemory};
use text_words::path_text;

/// Adds the line of octets in a key's place.
pub fn put_key(out: &mut Vec<u8>, octets: &[u8]) -> Result<(), WantMemory>
    ensures { OnOk result (Adds (KeyShown octets.now) out.old.items out.new.items) }
{
    match read_key(*out.allocator(), octets) {
        Ok(key) => put_read_key(out, &key, octets),
        Err(KeyFault::BadKey) => put_octets(out, octets),
        Err(KeyFault::WantMemory) => Err(WantMemory),
    }
}

/// Adds the line of a key, whose spelling the octets are.
fn put_read_key(out: &mut Vec<u8>, key: &Key, octets: &[u8]) -> Result<(), WantMemory>
    requires { key_spelling key.now ≡ octets.now }
    ensures { OnOk result (out.new.items ≡ out.old.items ++ key_line key.now) }
{
    if !is_plain_path(&key.path) {
        return put_octets(out, octets);
    }
    put_stamp(out, key.stamp)?;
    put_path(out, &key.path)?;
    out.extend_from_slice(b" ")?;
    put_hexed(out, key.oid.as_slice())?;
    put_tag(out, key.tag)?;
    out.extend_from_slice(b"\n")
}

/// Adds the tag, where the key has one.
fn put_tag(out: &mut Vec<u8>, tag: u16) -> Result<(), WantMemory>
    ensures { OnOk result (out.new.items ≡ out.old.items ++ tag_words tag) }
{
    if tag == 0 {
        return Ok(());
    }
    let words = format!(in *out.allocator(); " tag {tag}")?;
    put_text(out, words)
}

/// Adds the spelling of a path.
fn put_path(out: &mut Vec<u8>, path: &Path) -> Result<(), WantMemory>
    ensures { OnOk result (out.new.items ≡ out.old.items ++ path_spelling path.now) }
{
    let text = path_text(*out.allocator(), path)?;
    out.extend_from_slice(text.as_slice())
}

/// Whether each name of a path shows.
fn is_plain_path(path: &Path) -> bool
    ensures { result ≡ list_all spec.is_plain path.now }
{
    path.as_slice().iter().all(|name| is_plain(name.as_slice()))
}

/// Adds the lifespan, and a transient key's run and adapter.
fn put_stamp(out: &mut Vec<u8>, stamp: Option<Stamp>) -> Result<(), WantMemory>
    ensures { OnOk result (out.new.items ≡ out.old.items ++ stamp_words stamp) }
{
    match stamp {
        None => out.extend_from_slice(b"key persistent "),
        Some(Stamp { run, number }) => {
            let words = format!(in *out.allocator(); "key transient {run} {number} ")?;
            put_text(out, words)
        }
    }
}

/// Adds the line of octets that are printed in hexadecimal.
fn put_octets(out: &mut Vec<u8>, octets: &[u8]) -> Result<(), WantMemory>
    ensures { OnOk result (out.new.items ≡ out.old.items ++ hexed_key octets.now) }
{
    out.extend_from_slice(b"key ")?;
    put_hexed(out, octets)?;
    out.extend_from_slice(b"\n")
}
