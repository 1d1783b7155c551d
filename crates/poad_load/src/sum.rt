//! The sum of what is stored.
ghost use Rattle.std.specs.Prelude.{◌≡◌, ◌+ℤ◌, IfOk, map};
ghost use Rattle.poa_base.specs.Rows.{row_seen};
ghost use Rattle.poa_base.specs.Store.{states};
ghost use Rattle.poad_load.specs.Counts.{register_in, sum_of};

use poa_base::{Row, State, Store, WantMemory};

/// A sum of registers.
#[derive(Clone, Copy, Drop)]
pub(crate) struct Sum {
    pub(crate) value: i128,
}

impl Sum {
    // The sum with one register more.
    fn with(self, state: &State) -> Result<Sum, WantMemory>
        ensures { IfOk result (λ more. more.value ≡ self.value +ℤ register_in state.now) }
    {
        // No memory holds so many registers that their sum wants more bits.
        let value = self
            .value
            .checked_add(i128::from(register(state)))
            .ok_or(WantMemory)?;
        Ok(Sum { value })
    }
}

/// The sum of the registers in a store.
pub(crate) fn stored_sum(store: &Store) -> Result<Sum, WantMemory>
    ensures { IfOk result (λ sum. sum.value ≡ sum_of (states store.now)) }
{
    let rows = store.rows()?;
    let sum = sum_rows(&rows)?;
    Ok(sum)
}

// The same of rows.
fn sum_rows(rows: &[Row<'_>]) -> Result<Sum, WantMemory>
    ensures { IfOk result (λ sum. sum.value ≡ sum_of (map row_seen rows.now)) }
{
    let mut sum = Sum { value: 0 };
    for row in rows {
        sum = sum.with(row.state)?;
    }
    Ok(sum)
}

// The number in a register; another servant has none.
fn register(state: &State) -> i64
    ensures { result ≡ register_in state.now }
{
    match state {
        State::Register(number) => *number,
        _ => 0,
    }
}
