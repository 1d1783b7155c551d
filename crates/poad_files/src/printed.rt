//! Octets that a stranger chose, so that they show.
ghost use Rattle.std.specs.Prelude.{◌≡◌, ◌++◌, string_bytes, OnOk};
ghost use Rattle.poad_files.specs.Printed.{is_visible, hexed, printed};
ghost use Rattle.std.specs.List.{list_all};
ghost use Rattle.poad_files.specs.Printed as spec;

use poa_base::WantMemory;

/// Whether there is a byte, and each of them shows.
pub(crate) fn is_plain(bytes: &[u8]) -> bool
    ensures { result ≡ spec.is_plain bytes.now }
{
    !bytes.is_empty() && are_visible(bytes)
}

/// Whether each byte shows.
fn are_visible(bytes: &[u8]) -> bool
    ensures { result ≡ list_all is_visible bytes.now }
{
    bytes.iter().all(|byte| *byte >= b'!' && *byte <= b'~')
}

/// Adds bytes as they are where each of them shows, and else in hexadecimal.
pub fn put_printed(out: &mut Vec<u8>, bytes: &[u8]) -> Result<(), WantMemory>
    ensures { OnOk result (out.new.items ≡ out.old.items ++ printed bytes.now) }
{
    if is_plain(bytes) {
        out.extend_from_slice(bytes)
    } else {
        put_hexed(out, bytes)
    }
}

/// Adds `h:` and bytes in hexadecimal.
pub(crate) fn put_hexed(out: &mut Vec<u8>, bytes: &[u8]) -> Result<(), WantMemory>
    ensures { OnOk result (out.new.items ≡ out.old.items ++ hexed bytes.now) }
{
    let digits = hex::encode(*out.allocator(), bytes)?;
    out.extend_from_slice(b"h:")?;
    out.extend_from_slice(digits.as_bytes())
}

/// Adds a text.
pub(crate) fn put_text(out: &mut Vec<u8>, text: String) -> Result<(), WantMemory>
    ensures { OnOk result (out.new.items ≡ out.old.items ++ string_bytes text) }
{
    out.extend_from_slice(text.as_bytes())
}
