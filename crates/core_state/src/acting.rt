//! A servant acts.
ghost use Rattle.std.specs.Prelude.{◌≡◌, ◌==◌, ℕ, Some, None, IfOk, OnOk, OnErr, if◌then◌else◌, option_copied, option_map, unwrap_or, slice_get};
ghost use Rattle.std.specs.BTreeMap as tree;
ghost use Rattle.std.specs.Ordering.{nat_cmp};
ghost use Rattle.poa_base.specs.declared.State.{State as Held};
ghost use Rattle.poa_history.specs.States.{acted};
ghost use Rattle.core_state.specs.Kept.{kept_in};
ghost use Rattle.core_state.specs.Steps.{IsActed, outcome_in};

use crate::servants::Servants;
use poa_base::{Call, Outcome, Sid, State, WantMemory};
use servant_kinds::Servant;
use std::alloc::Global;
use std::collections::BTreeMap;

/// A servant does what a call asks.
fn act_on(servant: &mut Servant, call: Option<&Call>) -> Result<Outcome, WantMemory>
    ensures ok { IfOk result
        (λ outcome. acted servant.old (option_copied call.entry) ≡ (servant.new, outcome)) }
    ensures err { OnErr result (servant.new ≡ servant.old) }
{
    match call {
        Some(
            Call::Request {
                operation,
                body,
                ..
            },
        ) => servant.act(operation.as_slice(), body),
        Some(Call::Locate { .. } | Call::Line { .. }) | None => Ok(Outcome::Value(None)),
    }
}

/// A servant that isn't there only fails.
fn act_on_none(alloc: Global, call: Option<&Call>) -> Result<Outcome, WantMemory>
    ensures { IfOk result
        (λ outcome. acted Held.Fault (option_copied call.entry) ≡ (Held.Fault, outcome)) }
{
    let mut servant = Servant::new(alloc, State::Fault);
    act_on(&mut servant, call)
}

/// A configured servant acts.
fn act_configured(
    alloc: Global,
    configured: &mut Vec<Servant>,
    number: u32,
    call: Option<&Call>,
) -> Result<Outcome, WantMemory>
    ensures ok { OnOk result ((k : ℕ) → unwrap_or (slice_get configured.new.items k) Held.Fault
        ≡ (if k == number then (acted (unwrap_or (slice_get configured.old.items k) Held.Fault)
        (option_copied call.entry)).0 else unwrap_or
        (slice_get configured.old.items k) Held.Fault)) }
    ensures outcome { IfOk result
        (λ outcome. outcome ≡ (acted (unwrap_or (slice_get configured.old.items number) Held.Fault)
        (option_copied call.entry)).1) }
    ensures err { OnErr result (configured.new.items ≡ configured.old.items) }
{
    let place = number as usize;
    if place < configured.len() {
        act_on(&mut configured[place], call)
    } else {
        act_on_none(alloc, call)
    }
}

/// A fresh servant acts.
fn act_fresh(
    alloc: Global,
    fresh: &mut BTreeMap<u32, Servant>,
    number: u32,
    call: Option<&Call>,
) -> Result<Outcome, WantMemory>
    ensures ok { OnOk result ((n : ℕ) → tree.get nat_cmp fresh.new n
        ≡ (if n == number then option_map (λ s. (acted s (option_copied call.entry)).0)
        (tree.get nat_cmp fresh.old n) else tree.get nat_cmp fresh.old n)) }
    ensures outcome { IfOk result
        (λ outcome. outcome ≡ (acted (unwrap_or (tree.get nat_cmp fresh.old number) Held.Fault)
        (option_copied call.entry)).1) }
    ensures err { OnErr result (fresh.new.entries ≡ fresh.old.entries) }
{
    match fresh.get_mut(&number) {
        Some(servant) => act_on(servant, call),
        None => act_on_none(alloc, call),
    }
}

/// The servant that runs does what its call asks; a call that is no request asks nothing. `WantMemory`: no
/// memory was left, and every servant is as it was.
pub fn act(
    alloc: Global,
    call: Option<&Call>,
    runs: Option<Sid>,
    servants: &mut Servants,
) -> Result<Option<Outcome>, WantMemory>
    ensures ok { OnOk result
        (IsActed runs (option_copied call.entry) (kept_in servants.old) (kept_in servants.new)) }
    ensures outcome { IfOk result
        (λ outcome. outcome ≡ outcome_in runs (option_copied call.entry) (kept_in servants.old)) }
    ensures err { OnErr result (kept_in servants.new ≡ kept_in servants.old) }
{
    match runs {
        Some(Sid::Named(number)) => {
            let outcome = act_configured(alloc, &mut servants.configured, number, call)?;
            Ok(Some(outcome))
        }
        Some(Sid::Fresh(number)) => {
            let outcome = act_fresh(alloc, &mut servants.fresh, number, call)?;
            Ok(Some(outcome))
        }
        None => Ok(None),
    }
}
