//! What stands before the first entry, and how adapters and activations are added.
ghost use Rattle.std.specs.Prelude.{◌≡◌, ◌≤◌, ◌&&◌, false, not, length, IfOk, OnOk, OnErr};
ghost use Rattle.history_standing.specs.Paths.{is_root};
ghost use Rattle.history_standing.specs.Opening as opens;
ghost use Rattle.core_standing.specs.Kept.{KeepsNoneOver};
ghost use Rattle.core_standing.specs.Seen.{seen};

use crate::asked_commands::number_at;
use crate::ids::{made_id, next};
use crate::standing::Standing;
use active_map::Activations;
use history_standing::{Activation, Node, Phase};
use poa_base::{AdapterConf, Config, ObjectConf, Oid, Path, Sid, WantMemory};
use std::alloc::Global;

/// The adapter is created, and gets the next number.
pub fn add_node(standing: &mut Standing, path: &Path) -> Result<(), WantMemory>
    ensures ok { OnOk result (seen standing.new ≡ opens.with_node path.now (seen standing.old)) }
    ensures err { OnErr result (seen standing.new ≡ seen standing.old) }
{
    let number = standing.count;
    let count = next(number)?;
    let path = path.clone()?;
    standing.nodes.push(Node {
        number,
        path,
        dying: false,
    })?;
    standing.count = count;
    Ok(())
}

/// An activation that has begun.
pub fn begun(number: u32, adapter: u32, path: Path, oid: Oid, phase: Phase) -> Activation
    ensures { result ≡ record {
      number = number;
      adapter = adapter;
      path = path;
      oid = oid;
      phase = phase;
      ending = false;
      quiet = false;
      out = false;
      cleanup = false;
      remaining = false;
      etherealized = false;
    } }
{
    Activation {
        number,
        adapter,
        path,
        oid,
        phase,
        ending: false,
        quiet: false,
        out: false,
        cleanup: false,
        remaining: false,
        etherealized: false,
    }
}

/// An activation is begun, and gets the next number.
pub fn add_activation(
    standing: &mut Standing,
    adapter: u32,
    path: &Path,
    oid: &Oid,
    phase: Phase,
) -> Result<(), WantMemory>
    ensures ok { OnOk result
        (seen standing.new ≡ opens.with_activation adapter path.now oid.now phase
        (seen standing.old)) }
    ensures err { OnErr result (seen standing.new ≡ seen standing.old) }
{
    let number = standing.begun()?;
    let activation = begun(number, adapter, path.clone()?, oid.clone()?, phase);
    standing.activations.push(activation)?;
    Ok(())
}

/// One more id was made.
fn add_made(standing: &mut Standing) -> Result<(), WantMemory>
    ensures { OnOk result (seen standing.new ≡ opens.with_made (seen standing.old)) }
{
    standing.made = next(standing.made)?;
    Ok(())
}

/// The root alone.
fn root_alone(alloc: Global) -> Result<Standing, WantMemory>
    ensures { IfOk result (λ standing. seen standing ≡ opens.root_alone) }
{
    let mut standing = Standing {
        nodes: Vec::new(alloc),
        count: 0,
        made: 0,
        flights: Vec::new(alloc),
        activations: Activations::new(alloc),
    };
    add_node(&mut standing, &Path::root(alloc))?;
    Ok(standing)
}

/// Whether the adapter is created at opening.
fn is_boot(entry: &AdapterConf) -> bool
    ensures { result ≡ entry.now.boot && not (is_root entry.now.path) }
{
    match entry.path.as_slice() {
        [] => false,
        [_, ..] => entry.boot,
    }
}

/// The adapters that are created at opening.
fn add_boots(adapters: &[AdapterConf], standing: &mut Standing) -> Result<(), WantMemory>
    ensures { OnOk result (seen standing.new ≡ opens.with_boots adapters.now (seen standing.old)) }
{
    for entry in adapters {
        if is_boot(entry) {
            add_node(standing, &entry.path)?;
        }
    }
    Ok(())
}

/// The object is active by its configured servant.
fn add_object(
    alloc: Global,
    run: u32,
    object: &ObjectConf,
    standing: &mut Standing,
) -> Result<(), WantMemory>
    ensures { OnOk result
        (seen standing.new ≡ opens.with_object run object.now (seen standing.old)) }
{
    let adapter = number_at(standing, object.adapter.as_slice());
    let phase = Phase::Complete(Sid::Named(object.servant));
    match &object.oid {
        Some(oid) => add_activation(standing, adapter, &object.adapter, oid, phase),
        None => {
            add_made(standing)?;
            let oid = made_id(alloc, run, standing.made)?;
            add_activation(standing, adapter, &object.adapter, &oid, phase)
        }
    }
}

fn add_objects(
    alloc: Global,
    run: u32,
    objects: &[ObjectConf],
    standing: &mut Standing,
) -> Result<(), WantMemory>
    ensures { OnOk result
        (seen standing.new ≡ opens.with_objects run objects.now (seen standing.old)) }
{
    for object in objects {
        add_object(alloc, run, object, standing)?;
    }
    Ok(())
}

/// What stands before the first entry: the root, the adapters created at opening and the configured objects.
/// Fails for want of memory, or of a number of 32 bits.
pub fn opening(alloc: Global, config: &Config, run: u32) -> Result<Standing, WantMemory>
    ensures stands { IfOk result (λ standing. seen standing ≡ opens.opening config.now run) }
    ensures few { IfOk result (λ standing. length (seen standing).activations ≤ 4294967296) }
    ensures none_over { IfOk result (λ standing. KeepsNoneOver config.now (seen standing)) }
{
    let mut standing = root_alone(alloc)?;
    add_boots(config.adapters.as_slice(), &mut standing)?;
    add_objects(alloc, run, config.objects.as_slice(), &mut standing)?;
    standing.begun()?;
    Ok(standing)
}
