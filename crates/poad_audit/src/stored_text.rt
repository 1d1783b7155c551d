//! What is printed of what is stored for an object.
ghost use Rattle.std.specs.Prelude.{◌≡◌, ◌++◌, OnOk, option_copied};
ghost use Rattle.poad_audit.specs.Objects as printed;

use poa_base::{Oid, Path, Row, State, WantMemory};
use poa_journal::put_row;

/// Adds, behind `front`, the line that a state file has for what is stored; nothing where nothing is.
pub(crate) fn put_stored(
    out: &mut Vec<u8>,
    front: &[u8],
    path: &Path,
    oid: &Oid,
    stored: Option<&State>,
) -> Result<(), WantMemory>
    ensures { OnOk result (out.new.items
        ≡ out.old.items ++ printed.stored_line front.now path.now oid.now (option_copied stored.entry)) }
{
    let Some(state) = stored else {
        return Ok(());
    };
    out.extend_from_slice(front)?;
    put_row(out, Row { path, oid, state })?;
    out.extend_from_slice(b"\n")
}
