//! The lines of a profile.
ghost use Rattle.std.specs.Prelude.{◌≡◌, ◌++◌, OnOk};
ghost use Rattle.poad_files.specs.Shown.{Adds, ProfileShown, body_line, tag_line};

use crate::key::put_key;
use crate::printed::{put_hexed, put_printed, put_text};
use ior_text::{ProfileBody, read_body};
use poa_base::{Profile, WantMemory};

/// Adds the lines of a profile.
pub(crate) fn put_profile(
    out: &mut Vec<u8>,
    index: usize,
    profile: &Profile,
) -> Result<(), WantMemory>
    ensures { OnOk result (Adds (ProfileShown index profile.now) out.old.items out.new.items) }
{
    match read_body(*out.allocator(), profile)? {
        Some(body) => {
            put_body(out, index, &body)?;
            put_key(out, body.key.as_slice())
        }
        None => put_tag(out, index, profile),
    }
}

/// Adds the version and the address of an IIOP profile.
fn put_body(out: &mut Vec<u8>, index: usize, body: &ProfileBody) -> Result<(), WantMemory>
    ensures { OnOk result (out.new.items ≡ out.old.items ++ body_line index body.now) }
{
    let ProfileBody {
        major,
        minor,
        host,
        port,
        key: _,
    } = body;
    let version = format!(in *out.allocator(); "profile {index} iiop {major}.{minor} ")?;
    put_text(out, version)?;
    put_printed(out, host.as_slice())?;
    let port = format!(in *out.allocator(); " {port}\n")?;
    put_text(out, port)
}

/// Adds the tag and the octets of a profile.
fn put_tag(out: &mut Vec<u8>, index: usize, profile: &Profile) -> Result<(), WantMemory>
    ensures { OnOk result (out.new.items ≡ out.old.items ++ tag_line index profile.now) }
{
    let tag = profile.tag;
    let words = format!(in *out.allocator(); "profile {index} tag {tag} ")?;
    put_text(out, words)?;
    put_hexed(out, profile.bytes.as_slice())?;
    out.extend_from_slice(b"\n")
}
