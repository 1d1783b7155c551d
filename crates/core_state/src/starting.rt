//! The servants before the first entry.
ghost use Rattle.std.specs.Prelude.{◌≡◌, ℕ, [], List, IfOk, map};
ghost use Rattle.poa_base.specs.Store as slots;
ghost use Rattle.core_state.specs.Holds.{ServantsAgree};
ghost use Rattle.core_state.specs.Kept.{kept_in};

use crate::servants::Servants;
use poa_base::{Config, Store, TryClone, WantMemory};
use servant_kinds::Servant;
use std::alloc::Global;
use std::collections::BTreeMap;

/// The configured servants, each in its configured state.
fn configured(alloc: Global, config: &Config) -> Result<Vec<Servant>, WantMemory>
    ensures { IfOk result (λ servants. servants.items ≡ map (λ s. s.state) config.now.servants) }
{
    let mut servants = Vec::new(alloc);
    for servant in config.servants.as_slice() {
        servants.push(Servant::new(alloc, servant.state.try_clone()?))?;
    }
    Ok(servants)
}

/// A store that has the same.
fn copied(alloc: Global, store: &Store) -> Result<Store, WantMemory>
    ensures { IfOk result
        (λ copy. (p : List (List ℕ)) (oid : List ℕ)
        → slots.stored copy p oid ≡ slots.stored store.now p oid) }
{
    let mut copy = Store::new(alloc);
    for row in &store.rows()? {
        copy.reserve(row.path, row.oid)?;
        copy.set(row.path, row.oid, row.state.try_clone()?);
    }
    Ok(copy)
}

/// The servants of a configuration before the first entry of a run: each configured one in its configured
/// state, no fresh one, and what is stored in the store of the run's opening.
pub fn opening(alloc: Global, config: &Config, store: &Store) -> Result<Servants, WantMemory>
    ensures { IfOk result
        (λ servants. (run : ℕ)
        → ServantsAgree config.now run (slots.stored store.now) [] (kept_in servants)) }
{
    Ok(Servants {
        configured: configured(alloc, config)?,
        fresh: BTreeMap::new(alloc),
        store: copied(alloc, store)?,
    })
}
