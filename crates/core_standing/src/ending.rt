//! What makes activations end: a destroy, a deactivation of an id, a manager that is turned off. Each change
//! is made in place; where there is no memory for it, nothing is changed.
ghost use Rattle.std.specs.Prelude.{◌≡◌, if◌then◌else◌, OnOk, OnErr};
ghost use Rattle.history_standing.specs.Nodes as tree;
ghost use Rattle.history_standing.specs.Changes as changes;
ghost use Rattle.core_standing.specs.Seen.{seen};

use crate::standing::Standing;
use history_standing::nodes::mark;
use poa_base::{Config, Name, Oid, WantMemory};

/// What is active in the adapters that stand at the path or below it is ending.
fn end_below(standing: &mut Standing, path: &[Name], etherealize: bool) -> Result<(), WantMemory>
    ensures ok { OnOk result (seen standing.new ≡ changes.with_activations
        (λ a. if tree.stands_under standing.old.nodes.items path.now
        a.adapter then changes.ended_by_destroy etherealize a else a)
        (seen standing.old)) }
    ensures err { OnErr result (seen standing.new ≡ seen standing.old) }
{
    standing
        .activations
        .end_below(&standing.nodes, path, etherealize)
}

/// The adapter of the path and those below it are destroyed.
pub fn destroy(standing: &mut Standing, path: &[Name], etherealize: bool) -> Result<(), WantMemory>
    ensures ok { OnOk result
        (seen standing.new ≡ changes.with_destroyed path.now etherealize (seen standing.old)) }
    ensures err { OnErr result (seen standing.new ≡ seen standing.old) }
{
    end_below(standing, path, etherealize)?;
    mark(&mut standing.nodes, path);
    Ok(())
}

/// The manager's activations that have a servant activator are ending.
pub fn turn_off(config: &Config, standing: &mut Standing, manager: usize) -> Result<(), WantMemory>
    ensures ok { OnOk result
        (seen standing.new ≡ changes.with_manager_off config.now manager (seen standing.old)) }
    ensures err { OnErr result (seen standing.new ≡ seen standing.old) }
{
    standing.activations.end_managed(config, manager)
}

/// The activations of the id are ending.
pub fn deactivate(standing: &mut Standing, adapter: u32, oid: &Oid) -> Result<(), WantMemory>
    ensures ok { OnOk result
        (seen standing.new ≡ changes.with_deactivated adapter oid.now (seen standing.old)) }
    ensures err { OnErr result (seen standing.new ≡ seen standing.old) }
{
    standing.activations.end_id(adapter, oid)
}
