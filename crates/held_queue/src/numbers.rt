//! Numbers of calls.
ghost use Rattle.std.specs.Prelude.{◌≡◌, ◌==◌, ◌||◌, ◌≤◌, ℕ, true, false, IfSome, IfNone, OnOk};
ghost use Rattle.std.specs.BinaryHeap.{IsHeap, heap_items};
ghost use Rattle.std.specs.Ordering.{nat_cmp};
ghost use Rattle.std.proofs.Props.{props};
ghost use Rattle.held_queue.specs.Numbers.{has, HasRoom};

use poa_base::WantMemory;
use std::alloc::Global;
use std::cmp::Reverse;
use std::collections::BinaryHeap;

/// Numbers of calls, of which the least is taken first.
#[derive(Drop)]
pub struct Numbers {
    pub heap: BinaryHeap<Reverse<u64>>,
    ghost ordered: { IsHeap (λ x y. nat_cmp y.0 x.0) (heap_items heap) } by { Prim.hlevel props },
}

impl Numbers {
    /// None.
    pub fn new(alloc: Global) -> Numbers
        ensures { (r : ℕ) → has result.heap r ≡ false }
    {
        Numbers {
            heap: BinaryHeap::new(alloc),
        }
    }

    /// Whether there is none.
    pub fn is_empty(&self) -> bool
        ensures { result ≡ true → (r : ℕ) → has self.now.heap r ≡ false }
    {
        self.heap.is_empty()
    }

    /// Makes room for one number more; they stay what they are.
    pub fn reserve(&mut self) -> Result<(), WantMemory>
        ensures same { (r : ℕ) → has self.new.heap r ≡ has self.old.heap r }
        ensures room { OnOk result (HasRoom self.new.heap) }
    {
        self.heap.reserve(1)?;
        Ok(())
    }

    /// Adds a number, for which there is room. Takes no memory.
    pub fn push_reserved(&mut self, number: u64)
        requires { HasRoom self.old.heap }
        ensures { (r : ℕ) → has self.new.heap r ≡ (number == r) || has self.old.heap r }
    {
        let _ = self.heap.push(Reverse(number));
    }

    /// The least of them.
    pub fn least(&self) -> Option<u64>
        ensures there { IfSome result (λ x. has self.now.heap x ≡ true) }
        ensures least { IfSome result (λ x. (r : ℕ) → has self.now.heap r ≡ true → x ≤ r) }
        ensures none { IfNone result ((r : ℕ) → has self.now.heap r ≡ false) }
    {
        match self.heap.peek() {
            Some(Reverse(number)) => Some(*number),
            None => None,
        }
    }

    /// Takes the least of them away.
    pub fn pop(&mut self) -> Option<u64>
        ensures taken { IfSome result
            (λ x. (r : ℕ) → has self.old.heap r ≡ (x == r) || has self.new.heap r) }
        ensures least { IfSome result (λ x. (r : ℕ) → has self.old.heap r ≡ true → x ≤ r) }
        ensures none { IfNone result ((r : ℕ) → has self.old.heap r ≡ false) }
        ensures same { IfNone result ((r : ℕ) → has self.new.heap r ≡ false) }
    {
        match self.heap.pop() {
            Some(Reverse(number)) => Some(number),
            None => None,
        }
    }
}
