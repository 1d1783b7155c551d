//! The numbers of activations by adapter and object id.
ghost use Rattle.std.specs.Prelude.{◌≡◌, ◌==◌, [], ◌∷◌, ◌++◌, filter, not, IfOk, IfSome, OnOk, OnErr};
ghost use Rattle.active_map.specs.ById as by_id;

use poa_base::WantMemory;
use std::alloc::Global;
use std::collections::BTreeMap;

/// The numbers of the activations of each id of an adapter, in their order.
pub type Ids = BTreeMap<Vec<u8>, Vec<u32>>;

/// Those of each adapter, by its number.
pub type Index = BTreeMap<u32, Ids>;

/// Those of an id.
fn numbers_in<'a>(ids: &'a Ids, oid: &[u8]) -> &'a [u32]
    ensures { result.now ≡ by_id.numbers_in ids.now oid.now }
{
    match ids.get(oid) {
        Some(numbers) => numbers.as_slice(),
        None => &[],
    }
}

/// Those of an id of an adapter.
pub fn numbers_of<'a>(index: &'a Index, adapter: u32, oid: &[u8]) -> &'a [u32]
    ensures { result.now ≡ by_id.numbers_of index.now adapter oid.now }
{
    match index.get(&adapter) {
        Some(ids) => numbers_in(ids, oid),
        None => &[],
    }
}

/// The only one of them.
pub fn only_one(numbers: &[u32]) -> Option<u32>
    ensures { IfSome result (λ number. numbers.now ≡ number ∷ []) }
{
    match numbers {
        [number] => Some(*number),
        _ => None,
    }
}

/// A list of one number.
fn one(alloc: Global, number: u32) -> Result<Vec<u32>, WantMemory>
    ensures { IfOk result (λ one. one.items ≡ number ∷ []) }
{
    let mut numbers = Vec::new(alloc);
    numbers.push(number)?;
    Ok(numbers)
}

/// One more of an id.
fn add_in(alloc: Global, ids: &mut Ids, oid: &[u8], number: u32) -> Result<(), WantMemory>
    ensures ok { OnOk result
        (by_id.IsWithin oid.now (by_id.numbers_in ids.old oid.now ++ number ∷ []) ids.old ids.new) }
    ensures err { OnErr result
        (by_id.IsWithin oid.now (by_id.numbers_in ids.old oid.now) ids.old ids.new) }
{
    match ids.get_mut(oid) {
        Some(numbers) => {
            numbers.push(number)?;
        }
        None => {
            let numbers = one(alloc, number)?;
            ids.insert(Vec::from_slice(alloc, oid)?, numbers)?;
        }
    }
    Ok(())
}

/// One more of an id of an adapter.
pub fn add(
    alloc: Global,
    index: &mut Index,
    adapter: u32,
    oid: &[u8],
    number: u32,
) -> Result<(), WantMemory>
    ensures ok { OnOk result
        (by_id.IsAt adapter oid.now (by_id.numbers_of index.old adapter oid.now ++ number ∷ [])
        index.old index.new) }
    ensures err { OnErr result
        (by_id.IsAt adapter oid.now (by_id.numbers_of index.old adapter oid.now) index.old
        index.new) }
{
    match index.get_mut(&adapter) {
        Some(ids) => add_in(alloc, ids, oid, number),
        None => {
            let mut ids = BTreeMap::new(alloc);
            add_in(alloc, &mut ids, oid, number)?;
            index.insert(adapter, ids)?;
            Ok(())
        }
    }
}

/// A number is taken away.
fn drop_number(numbers: &mut Vec<u32>, number: u32)
    ensures { numbers.new.items ≡ filter (λ n. not (n == number)) numbers.old.items }
{
    numbers.retain(|other| *other != number);
}

/// One less of an id. Takes no memory, and gives back that of an id that has none.
fn remove_in(ids: &mut Ids, oid: &[u8], number: u32)
    ensures { by_id.IsWithin oid.now
        (filter (λ n. not (n == number)) (by_id.numbers_in ids.old oid.now)) ids.old ids.new }
{
    let Some(numbers) = ids.get_mut(oid) else {
        return;
    };
    drop_number(numbers, number);
    if numbers.is_empty() {
        let _none = ids.remove(oid);
    }
}

/// One less of an id of an adapter. Takes no memory.
pub fn remove(index: &mut Index, adapter: u32, oid: &[u8], number: u32)
    ensures { by_id.IsAt adapter oid.now
        (filter (λ n. not (n == number)) (by_id.numbers_of index.old adapter oid.now))
        index.old index.new }
{
    if let Some(ids) = index.get_mut(&adapter) {
        remove_in(ids, oid, number);
    }
}
