//! A run begins.
ghost use Rattle.std.specs.Prelude.{◌≡◌, ◌≤◌, [], IfOk};
ghost use Rattle.poa_base.specs.Store.{stored as stored_in};
ghost use Rattle.poa_policy.specs.Kept.{KeepsRules};
ghost use Rattle.core_state.specs.State.{StateAgrees};
ghost use Rattle.core_run.specs.Known.{TablesAgree};
ghost use Rattle.poa_history.specs.Life as lives;
ghost use Rattle.core_run.specs.Kept.{IsKept, life};

use crate::inside::Inside;
use crate::tables::Tables;
use core_outboxes::Desk;
use core_state::State;
use journal_entries::Entries;
use poa_base::{Config, Store, WantMemory};
use std::alloc::Global;

/// A run of a configuration, before its first entry. Room is kept for the first connection's leaving, for the first
/// call that isn't taken, and for the giving up of 16 workers.
pub fn begin(
    alloc: Global,
    config: Config,
    run: u32,
    opening: Store,
    limit: u64,
) -> Result<Inside, WantMemory>
    requires rules { KeepsRules config }
    requires limit { limit ≤ 4000000 }
    ensures kept { IfOk result (λ inside. IsKept inside) }
    ensures begun { IfOk result (λ inside. life inside ≡ lives.begun config run limit opening) }
{
    let (entries, tables, state) = parts(alloc, &config, run, &opening)?;
    Ok(Inside {
        alloc,
        config,
        run,
        limit,
        opening,
        entries,
        tables,
        desk: Desk::new(alloc),
        state,
    })
}

/// What is kept of a run before its first entry: its entries, for which there is room, its tables and its state.
fn parts(
    alloc: Global,
    config: &Config,
    run: u32,
    opening: &Store,
) -> Result<(Entries, Tables, State), WantMemory>
    ensures entries { IfOk result (λ made. made.0.items ≡ []) }
    ensures room { IfOk result (λ made. 18 ≤ made.0.capacity) }
    ensures tables { IfOk result (λ made. TablesAgree config.now run [] made.1) }
    ensures state { IfOk result
        (λ made. StateAgrees config.now run (stored_in opening.now) [] made.2) }
{
    let entries = first_entries(alloc)?;
    let tables = Tables::new(alloc)?;
    let state = core_state::opening(alloc, config, run, opening)?;
    Ok((entries, tables, state))
}

fn first_entries(alloc: Global) -> Result<Entries, WantMemory>
    ensures items { IfOk result (λ entries. entries.items ≡ []) }
    ensures room { IfOk result (λ entries. 18 ≤ entries.capacity) }
{
    let mut entries = Entries::new(alloc)?;
    entries.reserve(18)?;
    Ok(entries)
}
