//! The templates of adapters, found by their paths.
ghost use Rattle.std.specs.Prelude.{◌≡◌, ℕ, IfOk, OnOk, option_copied, slice_get, fold, if◌then◌else◌, Some, None};
ghost use Rattle.std.specs.BTreeMap as tree;
ghost use Rattle.std.specs.Option.{option_or};
ghost use Rattle.std.specs.Ordering.{nat_cmp};
ghost use Rattle.poa_base.specs.Templates as templates;
ghost use Rattle.poa_base.specs.Templates.{IsPlaced};

use crate::config::AdapterConf;
use crate::name::Name;
use std::alloc::AllocError;
use std::collections::BTreeMap;
use std::marker::Model;

/// The factor of the digest: the prime of the hash FNV of 64 bits.
const FACTOR: u64 = 1_099_511_628_211;

/// A list of templates, and a table of the digests of their paths, by which one is found without a walk.
#[derive(Drop)]
pub struct Templates {
    entries: Vec<AdapterConf>,
    /// For each digest of a path the place of the first entry that has it.
    places: BTreeMap<u64, usize>,
}

impl Model for Templates {
    ghost use Rattle.std.specs.Prelude.{List};
    ghost use Rattle.poa_base.specs.declared.config.AdapterConf.{AdapterConf};
    ghost use Rattle.poa_base.specs.Templates.{IsPlaced};

    ghost Value = { List AdapterConf };

    ghost view = { λ t. t.entries.items };

    ghost invariant = { λ t. IsPlaced t.places t.entries.items };
}

impl Templates {
    /// The same entries in the same order.
    pub fn from_vec(entries: Vec<AdapterConf>) -> Result<Self, AllocError>
        ensures { IfOk result (λ t. t ≡ entries.items) }
    {
        let places = places_of(
            entries.as_slice(),
            BTreeMap::new(entries.allocator().clone()?),
        )?;
        Ok(Templates { entries, places })
    }

    /// The entries, lent.
    pub fn as_slice(&self) -> &[AdapterConf]
        ensures { result.now ≡ self.now }
    {
        self.entries.as_slice()
    }

    /// The first entry of a path. Takes no memory.
    pub fn of_path(&self, path: &[Name]) -> Option<&AdapterConf>
        ensures { option_copied result ≡ templates.of_path self.now path.now }
    {
        let place = *self.places.get(&digest(path))?;
        let entry = entry_at(self.entries.as_slice(), place)?;
        if entry.path.as_slice() == path {
            return Some(entry);
        }
        first_of(self.entries.as_slice(), path)
    }
}

fn entry_at(entries: &[AdapterConf], place: usize) -> Option<&AdapterConf>
    ensures { option_copied result ≡ slice_get entries.now place }
{
    entries.get(place)
}

/// The first entry of a path, found by a walk: where two paths share a digest.
fn first_of<'a>(entries: &'a [AdapterConf], path: &[Name]) -> Option<&'a AdapterConf>
    ensures { option_copied result ≡ templates.of_path entries.now path.now }
{
    entries.iter().find(|entry| entry.path.as_slice() == path)
}

fn with_byte(digest: u64, byte: u64) -> u64
    ensures { result ≡ templates.with_byte digest byte }
{
    digest.wrapping_mul(FACTOR).wrapping_add(byte)
}

fn with_bytes(digest: u64, bytes: &[u8]) -> u64
    ensures { result ≡ fold templates.with_byte digest bytes.now }
{
    let mut sum = digest;
    for byte in bytes {
        sum = with_byte(sum, u64::from(*byte));
    }
    sum
}

fn with_name(digest: u64, name: &Name) -> u64
    ensures { result ≡ templates.with_name digest name.now }
{
    with_byte(with_bytes(digest, name.as_slice()), 256)
}

/// The digest of a path. Behind each name stands 256, which is no byte, so that it tells where names end.
fn digest(path: &[Name]) -> u64
    ensures { result ≡ templates.digest path.now }
{
    let mut sum = 0;
    for name in path {
        sum = with_name(sum, name);
    }
    sum
}

/// Puts a place at a digest that has none.
fn place_at(places: &mut BTreeMap<u64, usize>, digest: u64, place: usize) -> Result<(), AllocError>
    ensures { OnOk result ((other : ℕ) → tree.get nat_cmp places.new other
        ≡ option_or (tree.get nat_cmp places.old other)
        (if tree.is_at (nat_cmp digest) other then Some place else None)) }
{
    if !places.contains_key(&digest) {
        places.insert(digest, place)?;
    }
    Ok(())
}

/// The places of the entries, put into an empty table.
fn places_of(
    entries: &[AdapterConf],
    none: BTreeMap<u64, usize>,
) -> Result<BTreeMap<u64, usize>, AllocError>
    requires { tree.IsEmpty none }
    ensures { IfOk result (λ places. IsPlaced places entries.now) }
{
    let mut places = none;
    for place in 0..entries.len() {
        place_at(&mut places, digest(entries[place].path.as_slice()), place)?;
    }
    Ok(places)
}
