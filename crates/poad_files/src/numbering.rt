//! The numbers of the transient adapters that stand at the start.
ghost use Rattle.std.specs.Prelude.{◌≡◌, ◌≤◌, length, IfOk, OnOk};
ghost use Rattle.std.specs.BTreeMap as tree;
ghost use Rattle.poa_base.specs.Store.{path_cmp};
ghost use Rattle.poad_files.specs.Numbers.{no_numbers, numbers_of, with_adapter, with_number};

use poa_base::{AdapterConf, Path, TryClone, WantMemory};
use std::alloc::Global;
use std::collections::BTreeMap;

/// The number at each path where a transient adapter stands.
pub(crate) type Numbers = BTreeMap<Path, u32>;

/// The numbers of the transient adapters: the root has 0, and those that are created at the start follow
/// in their order, the persistent ones counted too.
pub(crate) fn adapter_numbers(
    alloc: Global,
    adapters: &[AdapterConf],
) -> Result<Numbers, WantMemory>
    requires { length adapters.now ≤ 1024 }
    ensures { IfOk result (λ numbers. tree.get path_cmp numbers ≡ numbers_of adapters.now) }
{
    let mut numbers = BTreeMap::new(alloc);
    note(&mut numbers, Path::root(alloc), 0)?;
    let mut next = 1;
    for adapter in adapters {
        if adapter.boot {
            note_adapter(&mut numbers, adapter, next)?;
            next += 1;
        }
    }
    Ok(numbers)
}

// Notes a transient adapter with its number.
fn note_adapter(numbers: &mut Numbers, adapter: &AdapterConf, number: u32) -> Result<(), WantMemory>
    ensures { OnOk result (tree.get path_cmp numbers.new ≡ with_adapter adapter.now number (tree.get path_cmp numbers.old)) }
{
    if adapter.policies.lasts() {
        return Ok(());
    }
    note(numbers, adapter.path.try_clone()?, number)
}

fn note(numbers: &mut Numbers, path: Path, number: u32) -> Result<(), WantMemory>
    ensures { OnOk result (tree.get path_cmp numbers.new ≡ with_number path number (tree.get path_cmp numbers.old)) }
{
    let Ok(_) = numbers.insert(path, number) else {
        return Err(WantMemory);
    };
    Ok(())
}
