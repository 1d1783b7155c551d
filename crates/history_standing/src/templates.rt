//! What the configuration says of an adapter, a manager and a servant. A path is its names.
ghost use Rattle.std.specs.Prelude.{◌≡◌, ◌==◌, ◌&&◌, not, ◌<◌, ◌≤◌, ◌^◌, [], ◌∷◌, None, IfOk, IsOk, IfSome, codes, length, option_copied, is_some, position, false, true};
ghost use Rattle.history_standing.specs.Paths.{same_bytes};
ghost use Rattle.history_standing.specs.Templates as configured;

use poa_base::{AdapterConf, Children, Config, Name, Policy, PolicySet, RuleConf, WantMemory};

/// The policies of the root.
const ROOT: PolicySet = PolicySet {
    thread: Policy::OrbCtrl,
    lifespan: Policy::Transient,
    uniqueness: Policy::UniqueId,
    assignment: Policy::SystemId,
    implicit: Policy::Implicit,
    retention: Policy::Retain,
    processing: Policy::MapOnly,
};

/// The configured entry of a path.
pub fn entry_of<'a>(config: &'a Config, path: &[Name]) -> Option<&'a AdapterConf>
    ensures { option_copied result ≡ configured.entry_of config.now path.now }
{
    config.adapters.of_path(path)
}

/// The configured entry of a path other than the root's.
fn own_entry<'a>(config: &'a Config, path: &[Name]) -> Option<&'a AdapterConf>
    ensures { option_copied result
        ≡ elim path.now [ [] ↦ None | x ∷ p ↦ configured.entry_of config.now path.now ] }
{
    match path {
        [] => None,
        [_, ..] => entry_of(config, path),
    }
}

/// Whether there is a template for a path.
pub fn has_template(config: &Config, path: &[Name]) -> bool
    ensures { result ≡ is_some (configured.template config.now path.now) }
{
    match path {
        [] => true,
        [_, ..] => entry_of(config, path).is_some(),
    }
}

/// The policies of the adapter of a path.
pub fn policies_at(config: &Config, path: &[Name]) -> PolicySet
    ensures { result ≡ configured.policies_at config.now path.now }
{
    match own_entry(config, path) {
        Some(entry) => entry.policies,
        None => ROOT,
    }
}

/// The number of the manager of the adapter of a path.
pub fn manager_at(config: &Config, path: &[Name]) -> u32
    ensures { result ≡ configured.manager_at config.now path.now }
{
    match own_entry(config, path) {
        Some(entry) => entry.manager,
        None => 0,
    }
}

/// The rules of the servant manager of the adapter of a path.
pub fn rules_at<'a>(config: &'a Config, path: &[Name]) -> &'a [RuleConf]
    ensures { result.now ≡ configured.rules_at config.now path.now }
{
    match own_entry(config, path) {
        Some(entry) => entry.rules.as_slice(),
        None => &[],
    }
}

/// The tag that persistent references of a path carry; 0 where they carry none.
pub fn tag_at(config: &Config, path: &[Name]) -> u16
    ensures { result ≡ configured.tag_at config.now path.now }
{
    match own_entry(config, path) {
        Some(entry) => entry.tag,
        None => 0,
    }
}

/// Whether a tag is another than its template's own, and not none where that still serves old keys.
pub fn is_other(tag: u16, own: u16, old_keys: bool) -> bool
    ensures { result ≡ (not (tag == own) && not ((tag == 0) && old_keys)) }
{
    tag != own && !(tag == 0 && old_keys)
}

/// What the adapter activator of the adapter of a path does; none where it has none.
pub fn children_at(config: &Config, path: &[Name]) -> Option<Children>
    ensures { result ≡ (configured.template_or_root config.now path.now).children }
{
    entry_of(config, path)?.children
}

/// The configured default servant of the adapter of a path, by its number.
pub fn preset_at(config: &Config, path: &[Name]) -> Option<u32>
    ensures { result ≡ (configured.template_or_root config.now path.now).preset }
{
    own_entry(config, path)?.preset
}

/// Whether an adapter of the entry has a servant activator.
fn activates(entry: &AdapterConf) -> bool
    ensures { result ≡ configured.retains entry.now.policies
        && (configured.uses_servant_manager entry.now.policies
        && (elim entry.now.rules [ [] ↦ false | _ ∷ _ ↦ true ])) }
{
    let policies = entry.policies;
    policies.retains() && policies.uses_servant_manager() && !entry.rules.as_slice().is_empty()
}

/// Whether the adapter of a path has a servant activator.
pub fn has_activator(config: &Config, path: &[Name]) -> bool
    ensures { result ≡ configured.has_activator config.now path.now }
{
    match own_entry(config, path) {
        Some(entry) => activates(entry),
        None => false,
    }
}

/// Whether it is the name of the manager that every server has.
fn is_root_name(name: &Name) -> bool
    ensures { result ≡ same_bytes name.now (codes "root") }
{
    name.as_slice() == b"root".as_slice()
}

/// The place of a configured manager.
fn manager_place(config: &Config, name: &Name) -> Option<usize>
    ensures place { result ≡ position (λ m. same_bytes m.name name.now) config.now.managers }
    ensures few { IfSome result (λ place. place < usize.MAX) }
{
    config
        .managers
        .as_slice()
        .iter()
        .position(|manager| manager.name == *name)
}

/// The number of a manager.
pub fn manager_number(config: &Config, name: &Name) -> Option<usize>
    ensures { result ≡ configured.manager_number config.now name.now }
{
    if is_root_name(name) {
        return Some(0);
    }
    match manager_place(config, name) {
        Some(place) => Some(place + 1),
        None => None,
    }
}

/// The place of a servant.
fn servant_place(config: &Config, name: &Name) -> Option<usize>
    ensures place { result ≡ configured.servant_number config.now name.now }
    ensures within { IfSome result (λ place. place < length config.now.servants) }
{
    config
        .servants
        .as_slice()
        .iter()
        .position(|servant| servant.name == *name)
}

/// The number of a servant. Fails where it has more than 32 bits.
pub fn servant_number(config: &Config, name: &Name) -> Result<Option<u32>, WantMemory>
    ensures value { IfOk result (λ number. number ≡ configured.servant_number config.now name.now) }
    ensures ok { length config.now.servants ≤ 2 ^ 32 → IsOk result }
{
    match servant_place(config, name) {
        Some(place) => Ok(Some(u32::try_from(place).map_err(|_| WantMemory)?)),
        None => Ok(None),
    }
}

/// The name of a servant.
pub fn servant_name<'a>(config: &'a Config, number: u32) -> Option<&'a Name>
    ensures { option_copied result ≡ configured.servant_name config.now number }
{
    let servant = config.servants.as_slice().get(number as usize)?;
    Some(&servant.name)
}
