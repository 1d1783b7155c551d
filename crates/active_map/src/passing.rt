//! The activations that are on their way in or out, by their numbers, while they are few.
ghost use Rattle.std.specs.Prelude.{◌≡◌, ◌==◌, ◌++◌, ◌∷◌, ℕ, List, [], true, false, find, option_copied, OnOk, OnErr};
ghost use Rattle.history_standing.specs.declared.activation.Activation.{Activation as Kept};
ghost use Rattle.history_standing.specs.Trees.{In};
ghost use Rattle.std.specs.BTreeMap.{get, values};
ghost use Rattle.std.specs.List.{list_any};
ghost use Rattle.std.specs.Ordering.{nat_cmp};
ghost use Rattle.history_standing.specs.Ends as ends;
ghost use Rattle.active_map.specs.Asked.{at_one};
ghost use Rattle.active_map.specs.Noted.{IsNoted, NotedAs};
ghost use Rattle.active_map.specs.Tables as tables;

use crate::activation::is_complete;
use crate::over::is_over;
use crate::rows::Rows;
use history_standing::{Activation, Phase};
use poa_base::{Config, Sid, WantMemory};
use std::alloc::Global;

/// How many numbers there may be. More pass at once only where a command ends many that no servant activator is told of.
const MOST: usize = 64;

/// The numbers of those that pass.
#[derive(Drop)]
pub struct Passing {
    /// Their numbers, and maybe those of others.
    pub numbers: Vec<u32>,
    /// Whether that of each is among them.
    pub is_whole: bool,
    /// Whether each servant that was made for an activation is that of its own.
    pub are_own: bool,
}

/// Whether an activation is on its way in or out, or over.
pub fn is_passing(activation: &Activation) -> bool
    ensures { result ≡ tables.is_passing activation.now }
{
    !is_complete(activation) || activation.out
}

/// Whether a servant that was made for an activation is that of its own.
pub fn is_own(activation: &Activation) -> bool
    ensures { result ≡ tables.is_own activation.now }
{
    match activation.phase {
        Phase::Complete(Sid::Fresh(number)) => number == activation.number,
        Phase::Complete(Sid::Named(_)) | Phase::Begun | Phase::Void => true,
    }
}

/// Whether it has the servant that was made for it.
pub fn has_own(activation: &Activation) -> bool
    ensures { result ≡ tables.has_own activation.now }
{
    match activation.phase {
        Phase::Complete(Sid::Fresh(number)) => number == activation.number,
        Phase::Complete(Sid::Named(_)) | Phase::Begun | Phase::Void => false,
    }
}

impl Passing {
    /// None. Takes no memory.
    pub fn new(alloc: Global) -> Self
        ensures { IsNoted result [] }
    {
        Passing {
            numbers: Vec::new(alloc),
            is_whole: true,
            are_own: true,
        }
    }

    /// Makes room for as many as there may be, so that no other call takes memory.
    pub fn reserve(&mut self) -> Result<(), WantMemory>
        ensures { (activations : List Kept) → IsNoted self.old activations
            → IsNoted self.new activations }
    {
        if self.numbers.is_empty() {
            self.numbers.reserve(MOST)?;
        }
        Ok(())
    }

    /// A number is the last of them from now on.
    fn add(&mut self, number: u32) -> Result<(), WantMemory>
        ensures ok { OnOk result (self.new.numbers.items ≡ self.old.numbers.items ++ number ∷ []) }
        ensures err { OnErr result (self.new.numbers.items ≡ self.old.numbers.items) }
        ensures whole { self.new.is_whole ≡ self.old.is_whole }
        ensures own { self.new.are_own ≡ self.old.are_own }
    {
        self.numbers.push(number)?;
        Ok(())
    }

    /// A number is among them from now on, where there is room.
    fn put(&mut self, number: u32)
        ensures wider { (n : ℕ) → In n self.old.numbers.items → In n self.new.numbers.items }
        ensures whole { self.new.is_whole ≡ true → self.old.is_whole ≡ true }
        ensures its { self.new.is_whole ≡ true → In number self.new.numbers.items }
        ensures own { self.new.are_own ≡ self.old.are_own }
    {
        if self.numbers.len() >= MOST {
            self.is_whole = false;
            return;
        }
        match self.add(number) {
            Ok(()) => {}
            Err(_) => {
                self.is_whole = false;
            }
        }
    }

    /// A number is among them no longer.
    pub fn strike(&mut self, number: u32)
        ensures others { (n : ℕ) → In n self.old.numbers.items → (n == number) ≡ false
            → In n self.new.numbers.items }
        ensures whole { self.new.is_whole ≡ self.old.is_whole }
        ensures own { self.new.are_own ≡ self.old.are_own }
    {
        self.numbers.retain(|other| *other != number);
    }

    /// The number of an activation is among them where it passes, and else isn't.
    fn place(&mut self, activation: &Activation)
        ensures whole { self.new.is_whole ≡ true → self.old.is_whole ≡ true }
        ensures others { (n : ℕ) → In n self.old.numbers.items
            → (n == activation.now.number) ≡ false → In n self.new.numbers.items }
        ensures its { self.new.is_whole ≡ true → tables.is_passing activation.now ≡ true
            → In activation.now.number self.new.numbers.items }
        ensures own { self.new.are_own ≡ self.old.are_own }
    {
        self.strike(activation.number);
        if is_passing(activation) {
            self.put(activation.number);
        }
    }

    /// An activation came or was changed.
    pub fn note(&mut self, activation: &Activation)
        ensures { NotedAs activation.now self.old self.new }
    {
        self.place(activation);
        if !is_own(activation) {
            self.are_own = false;
        }
    }

    /// Others may pass from now on.
    pub fn unsure(&mut self)
        ensures whole { self.new.is_whole ≡ false }
        ensures own { self.new.are_own ≡ self.old.are_own }
    {
        self.is_whole = false;
    }

    /// The numbers of those that pass are looked for anew.
    pub fn renew(&mut self, rows: &Rows)
        ensures { IsNoted self.old (values rows.now) → IsNoted self.new (values rows.now) }
    {
        self.numbers.clear();
        self.is_whole = true;
        for activation in rows.values() {
            if is_passing(activation) {
                self.put(activation.number);
            }
        }
    }
}

/// Whether the activation of a number is over.
fn is_over_at(rows: &Rows, config: &Config, number: u32) -> bool
    ensures { result ≡ at_one (ends.is_over config.now) (get nat_cmp rows.now number) }
{
    match rows.get(&number) {
        Some(activation) => is_over(config, activation),
        None => false,
    }
}

/// Whether one of the numbers is that of an activation that is over.
pub fn is_any_over(rows: &Rows, config: &Config, numbers: &[u32]) -> bool
    ensures { result ≡ list_any (λ n. at_one (ends.is_over config.now) (get nat_cmp rows.now n))
        numbers.now }
{
    numbers
        .iter()
        .any(|number| is_over_at(rows, config, *number))
}

/// The first of the numbers that is that of an activation that is over.
pub fn first_over<'a>(rows: &Rows, config: &Config, numbers: &'a [u32]) -> Option<&'a u32>
    ensures { option_copied result
        ≡ find (λ n. at_one (ends.is_over config.now) (get nat_cmp rows.now n)) numbers.now }
{
    numbers
        .iter()
        .find(|number| is_over_at(rows, config, **number))
}
