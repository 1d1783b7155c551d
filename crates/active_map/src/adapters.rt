//! What is asked of the activations of one adapter, by the index.
ghost use Rattle.std.specs.Prelude.{◌≡◌, ◌==◌, ◌&&◌, not, Some, None, false};
ghost use Rattle.std.specs.BTreeMap.{get, values};
ghost use Rattle.std.specs.List.{list_any};
ghost use Rattle.std.specs.Ordering.{nat_cmp};
ghost use Rattle.history_standing.specs.Changes as changes;
ghost use Rattle.history_standing.specs.Ends as ends;
ghost use Rattle.history_standing.specs.Situations as situations;
ghost use Rattle.active_map.specs.Asked.{at_one, is_other};

use crate::by_id::Ids;
use crate::changing;
use crate::over::{is_over, is_unfinished};
use crate::rows::Rows;
use history_standing::Activation;
use poa_base::Config;

/// Whether the activation of a number is of the adapter, and isn't over.
fn is_live_at(rows: &Rows, config: &Config, adapter: u32, number: u32) -> bool
    ensures { result ≡ at_one (λ a. (a.adapter == adapter) && not (ends.is_over config.now a))
        (get nat_cmp rows.now number) }
{
    match rows.get(&number) {
        Some(activation) => activation.adapter == adapter && !is_over(config, activation),
        None => false,
    }
}

/// Whether one of the numbers is that of such an activation.
fn is_any_live(rows: &Rows, config: &Config, adapter: u32, numbers: &[u32]) -> bool
    ensures { result ≡ list_any
        (λ n. at_one (λ a. (a.adapter == adapter) && not (ends.is_over config.now a))
        (get nat_cmp rows.now n))
        numbers.now }
{
    numbers
        .iter()
        .any(|number| is_live_at(rows, config, adapter, *number))
}

/// Whether one of the ids has such an activation.
pub fn has_live(rows: &Rows, ids: &Ids, config: &Config, adapter: u32) -> bool
    ensures { result ≡ list_any (λ numbers. list_any
        (λ n. at_one (λ a. (a.adapter == adapter) && not (ends.is_over config.now a))
        (get nat_cmp rows.now n)) numbers.items)
        (values ids.now) }
{
    ids.values().any(|numbers| is_any_live(rows, config, adapter, numbers.as_slice()))
}

/// Whether the activation of a number is of the adapter, and its incarnation or etherealization hasn't ended.
fn is_changing_at(rows: &Rows, config: &Config, adapter: u32, number: u32) -> bool
    ensures { result ≡ at_one (λ a. (a.adapter == adapter) && situations.is_unfinished config.now a)
        (get nat_cmp rows.now number) }
{
    match rows.get(&number) {
        Some(activation) => activation.adapter == adapter && is_unfinished(config, activation),
        None => false,
    }
}

/// Whether one of the numbers is that of such an activation.
pub fn is_any_changing(rows: &Rows, config: &Config, adapter: u32, numbers: &[u32]) -> bool
    ensures { result ≡ list_any
        (λ n. at_one (λ a. (a.adapter == adapter) && situations.is_unfinished config.now a)
        (get nat_cmp rows.now n)) numbers.now }
{
    numbers
        .iter()
        .any(|number| is_changing_at(rows, config, adapter, *number))
}

/// Whether one of the ids has such an activation.
pub fn has_changing(rows: &Rows, ids: &Ids, config: &Config, adapter: u32) -> bool
    ensures { result ≡ list_any (λ numbers. list_any
        (λ n. at_one (λ a. (a.adapter == adapter) && situations.is_unfinished config.now a)
        (get nat_cmp rows.now n)) numbers.items)
        (values ids.now) }
{
    ids.values().any(|numbers| is_any_changing(rows, config, adapter, numbers.as_slice()))
}

/// Whether the activation of a number has the servant of another in the map of the same adapter.
fn is_other_at(rows: &Rows, activation: &Activation, number: u32) -> bool
    ensures { result ≡ at_one (is_other activation.now) (get nat_cmp rows.now number) }
{
    match rows.get(&number) {
        Some(other) => changing::is_other(activation, other),
        None => false,
    }
}

/// Whether one of the numbers is that of such an activation.
fn is_any_other(rows: &Rows, activation: &Activation, numbers: &[u32]) -> bool
    ensures { result ≡ list_any (λ n. at_one (is_other activation.now) (get nat_cmp rows.now n))
        numbers.now }
{
    numbers
        .iter()
        .any(|number| is_other_at(rows, activation, *number))
}

/// Whether one of the ids has such an activation.
pub fn has_other(rows: &Rows, ids: &Ids, activation: &Activation) -> bool
    ensures { result ≡ list_any
        (λ numbers. list_any (λ n. at_one (is_other activation.now) (get nat_cmp rows.now n))
        numbers.items)
        (values ids.now) }
{
    ids.values().any(|numbers| is_any_other(rows, activation, numbers.as_slice()))
}
