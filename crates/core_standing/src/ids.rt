//! System-made object ids.
ghost use Rattle.std.specs.Prelude.{◌≡◌, suc, IfOk};
ghost use Rattle.history_standing.specs.Opening as opens;

use poa_base::{Oid, WantMemory};
use std::alloc::Global;

/// The number after this one. None is left after the last.
pub fn next(number: u32) -> Result<u32, WantMemory>
    ensures { IfOk result (λ next. next ≡ suc number) }
{
    number.checked_add(1).ok_or(WantMemory)
}

/// A system-made object id.
pub fn made_id(alloc: Global, run: u32, ordinal: u32) -> Result<Oid, WantMemory>
    ensures { IfOk result (λ oid. oid ≡ opens.made_id run ordinal) }
{
    let mut bytes = Vec::from_slice(alloc, &run.to_be_bytes())?;
    bytes.extend_from_slice(&ordinal.to_be_bytes())?;
    Oid::from_vec(bytes).ok_or(WantMemory)
}
