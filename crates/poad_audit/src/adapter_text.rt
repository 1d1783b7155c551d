//! What is printed of the adapter at the path of a call's key.
ghost use Rattle.std.specs.Prelude.{◌≡◌, ◌++◌, IfOk, OnOk, option_copied};
ghost use Rattle.poad_audit.specs.Adapters as printed;

use journal_explain::Adapter;
use poa_base::{Name, Policy, PolicySet, WantMemory};
use std::alloc::Global;

/// Adds the adapter, where one stands there.
pub(crate) fn put_adapter(
    alloc: Global,
    out: &mut Vec<u8>,
    adapter: Option<&Adapter>,
) -> Result<(), WantMemory>
    ensures { OnOk result (out.new.items
        ≡ out.old.items ++ printed.adapter_text (option_copied adapter.entry)) }
{
    match adapter {
        Some(adapter) => put_line(alloc, out, adapter),
        None => Ok(()),
    }
}

fn put_line(alloc: Global, out: &mut Vec<u8>, adapter: &Adapter) -> Result<(), WantMemory>
    ensures { OnOk result (out.new.items ≡ out.old.items ++ printed.adapter_line adapter.now) }
{
    let manager = manager_text(
        alloc,
        adapter.number,
        adapter.manager,
        adapter.name.as_ref(),
    )?;
    out.extend_from_slice(manager.as_slice())?;
    out.extend_from_slice(b":")?;
    put_policies(out, adapter.policies)?;
    out.extend_from_slice(b"\n")
}

/// The adapter's number, and its manager.
fn manager_text(
    alloc: Global,
    adapter: u32,
    manager: u32,
    name: Option<&Name>,
) -> Result<Vec<u8>, WantMemory>
    ensures { IfOk result (λ out. out.items
        ≡ printed.manager_text adapter manager (option_copied name.entry)) }
{
    let text = format!(in alloc; "adapter {adapter}, manager {manager} ")?;
    let mut out = text.into_bytes();
    put_name(&mut out, name)?;
    Ok(out)
}

fn put_name(out: &mut Vec<u8>, name: Option<&Name>) -> Result<(), WantMemory>
    ensures { OnOk result (out.new.items
        ≡ out.old.items ++ printed.name_text (option_copied name.entry)) }
{
    match name {
        Some(name) => out.extend_from_slice(name.as_slice()),
        None => out.extend_from_slice(b"root"),
    }
}

fn put_policies(out: &mut Vec<u8>, policies: PolicySet) -> Result<(), WantMemory>
    ensures { OnOk result (out.new.items ≡ out.old.items ++ printed.policies_text policies) }
{
    put_policy(out, policies.thread)?;
    put_policy(out, policies.lifespan)?;
    put_policy(out, policies.uniqueness)?;
    put_policy(out, policies.assignment)?;
    put_serving(out, policies)
}

/// Adds those of servants.
fn put_serving(out: &mut Vec<u8>, policies: PolicySet) -> Result<(), WantMemory>
    ensures { OnOk result (out.new.items ≡ out.old.items ++ printed.serving_text policies) }
{
    put_policy(out, policies.implicit)?;
    put_policy(out, policies.retention)?;
    put_policy(out, policies.processing)
}

fn put_policy(out: &mut Vec<u8>, policy: Policy) -> Result<(), WantMemory>
    ensures { OnOk result (out.new.items ≡ out.old.items ++ printed.policy_word policy) }
{
    out.extend_from_slice(policy_word(policy).as_bytes())
}

/// A policy by its value's name in the standard, as the configuration has it.
fn policy_word(policy: Policy) -> &'static str
    ensures { result.now ≡ printed.policy_word policy }
{
    match policy {
        Policy::OrbCtrl => " ORB_CTRL_MODEL",
        Policy::SingleThread => " SINGLE_THREAD_MODEL",
        Policy::MainThread => " MAIN_THREAD_MODEL",
        Policy::Transient => " TRANSIENT",
        Policy::Persistent => " PERSISTENT",
        Policy::UniqueId => " UNIQUE_ID",
        Policy::MultipleId => " MULTIPLE_ID",
        Policy::SystemId => " SYSTEM_ID",
        Policy::UserId => " USER_ID",
        Policy::NoImplicit => " NO_IMPLICIT_ACTIVATION",
        Policy::Implicit => " IMPLICIT_ACTIVATION",
        Policy::Retain => " RETAIN",
        Policy::NonRetain => " NON_RETAIN",
        Policy::MapOnly => " USE_ACTIVE_OBJECT_MAP_ONLY",
        Policy::DefaultServant => " USE_DEFAULT_SERVANT",
        Policy::ServantManager => " USE_SERVANT_MANAGER",
    }
}
