//! The parts of the rule in their own words.
ghost use Rattle.std.specs.Prelude.{ℕ, ◌<◌, ◌^◌, Option, slice_index};
ghost use Rattle.atomic_table.specs.Table.{State};
ghost use Rattle.seat_lock.specs.Rule.{InOrder};
ghost use Rattle.seat_lock.specs.Parts.{Parts};
ghost use Rattle.seat_lock.specs.declared.view.View.{View};

use crate::chronicle::Chronicle;

/// The rule that stands between any two steps has each of the parts that the README lists.
pub fn has_its_parts<T: Chronicle>()
    ensures { (all : T.Givens) (base : ℕ) (s : State (Option T) (View T.Givens T.Entry)) → slice_index s.words 0 < 2 ^ 64
        → InOrder T.givens T.history T.owner all base s → Parts T.givens T.history T.owner all base s }
{}
