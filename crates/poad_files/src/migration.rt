//! References whose keys get the tags of a configuration's adapters.
ghost use Rattle.std.specs.Prelude.{◌≡◌, ℕ, None, IfOk, IfSome, MatchOption};
ghost use Rattle.poa_base.specs.declared.Key.{Key};
ghost use Rattle.ior_text.specs.Parts as said;
ghost use Rattle.poad_files.specs.Migration as spec;
ghost use Rattle.poad_files.specs.Migration.{IsMigrated, Moves, MovesTo, ProfileMigrated, TagsTo};

use crate::tags::tag_at;
use ior_text::{ProfileBody, ProfileParts, read_parts, write_parts};
use object_key::{KeyFault, read_key, write_key};
use poa_base::{Bytes, Config, Ior, Items, Key, Profile, TryClone, WantMemory};
use std::alloc::Global;

/// The reference with each profile written anew, big-endian, that is of version 1.0 to 1.2 and whose key is the persistent
/// one of an adapter below the root with an entry: the key gets the tag of that entry, and the version, the host, the port
/// and the components stay. All other profiles and the type id stay byte for byte.
pub(crate) fn migrated(alloc: Global, config: &Config, ior: &Ior) -> Result<Ior, WantMemory>
    ensures { IfOk result (λ migrated. IsMigrated config.now ior.now migrated) }
{
    let mut profiles = Items::new(alloc);
    for profile in ior.profiles.as_slice() {
        let new = migrated_profile(alloc, config, profile)?;
        profiles.push(new)?;
    }
    let type_id = ior.type_id.try_clone()?;
    Ok(Ior { type_id, profiles })
}

fn migrated_profile(
    alloc: Global,
    config: &Config,
    profile: &Profile,
) -> Result<Profile, WantMemory>
    ensures { IfOk result (λ new. ProfileMigrated config.now profile.now new) }
{
    let Some(parts) = read_parts(alloc, profile)? else {
        return copy(profile);
    };
    match moved_key(alloc, config, &parts.body)? {
        Some(key) => write_parts(alloc, &with_key(parts, key)),
        None => copy(profile),
    }
}

fn copy(profile: &Profile) -> Result<Profile, WantMemory>
    ensures { IfOk result (λ new. new ≡ profile.now) }
{
    Ok(profile.try_clone()?)
}

// The same parts with another object key.
fn with_key(parts: ProfileParts, key: Bytes) -> ProfileParts
    ensures { result ≡ said.with_key key parts }
{
    let ProfileParts { body, components } = parts;
    let body = ProfileBody { key, ..body };
    ProfileParts { body, components }
}

// The octets of the body's key with the tag that it gets; none where it gets none.
fn moved_key(
    alloc: Global,
    config: &Config,
    body: &ProfileBody,
) -> Result<Option<Bytes>, WantMemory>
    ensures { IfOk result (λ found. MatchOption found
        ((key : Key) (tag : ℕ) → Moves config.now body.now key tag → ⊥) (λ octets. MovesTo config.now body.now octets)) }
{
    if body.major != 1 || body.minor > 2 {
        return Ok(None);
    }
    match read_key(alloc, body.key.as_slice()) {
        Ok(key) => retagged(alloc, config, key),
        Err(KeyFault::BadKey) => Ok(None),
        Err(KeyFault::WantMemory) => Err(WantMemory),
    }
}

// The octets of the key with the tag that it gets.
fn retagged(alloc: Global, config: &Config, key: Key) -> Result<Option<Bytes>, WantMemory>
    ensures { IfOk result (λ found. MatchOption found
        (spec.new_tag config.now key ≡ None) (λ octets. TagsTo config.now key octets)) }
{
    let Some(tag) = new_tag(config, &key) else {
        return Ok(None);
    };
    let key = Key { tag, ..key };
    Ok(Some(write_key(alloc, &key)?))
}

// The tag that a key gets: that of the entry for its path, where the key is persistent and not of the root.
fn new_tag(config: &Config, key: &Key) -> Option<u16>
    ensures tag { result ≡ spec.new_tag config.now key.now }
    ensures persistent { IfSome result (λ _. key.now.stamp ≡ None) }
{
    if key.stamp.is_some() || key.path.as_slice().is_empty() {
        return None;
    }
    tag_at(config.adapters.as_slice(), &key.path)
}
