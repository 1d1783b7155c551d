//! A row of calls that are held alike.
ghost use Rattle.std.specs.Prelude.{◌≡◌, ◌≤◌, ℕ, true, OnOk};
ghost use Rattle.held_queue.specs.Numbers.{has};
ghost use Rattle.held_queue.specs.Rows.{GoesOver};

use crate::grip::Grip;
use crate::numbers::Numbers;
use poa_base::WantMemory;

/// Calls that are held alike.
#[derive(Drop)]
pub struct Row {
    pub grip: Grip,
    pub calls: Numbers,
}

/// The least goes over to others, if there is one.
pub fn move_least(from: &mut Numbers, to: &mut Numbers) -> Result<(), WantMemory>
    ensures goes { GoesOver from.old.heap from.new.heap to.old.heap to.new.heap }
    ensures ahead { OnOk result
        ((r : ℕ) → has from.new.heap r ≡ true → (q : ℕ) × (has to.new.heap q ≡ true) × (q ≤ r)) }
    ensures moved { OnOk result
        ((r : ℕ) → has from.old.heap r ≡ true → (q : ℕ) × (has to.new.heap q ≡ true) × (q ≤ r)) }
{
    to.reserve()?;
    if let Some(number) = from.pop() {
        to.push_reserved(number);
    }
    Ok(())
}
