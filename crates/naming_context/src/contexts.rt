//! The contexts, and what is bound in each.
ghost use Rattle.std.specs.Prelude.{◌≡◌, ◌<◌, ℕ, None, Some, IfOk, OnOk, is_some, option_copied};
ghost use Rattle.naming_context.specs.Standing.{made_with as made_with_target, nothing_bound, with_target, without_target};
ghost use Rattle.naming_context.specs.Kept.{standing_of, target_in, target_at, HasTarget, HasTargetAt};

use crate::component::Component;
use crate::target::Target;
use poa_base::WantMemory;
use std::alloc::Global;
use std::collections::BTreeMap;

/// How many components may be bound, in all contexts together.
pub const BINDINGS: u64 = 65_536;

/// How many contexts may be made behind context 0.
pub const CONTEXTS: u32 = 65_536;

/// What is bound in one context.
pub type Bindings = BTreeMap<Component, Target>;

/// The contexts, and what is bound in each. Context 0 is there from the start.
#[derive(Drop)]
pub struct Contexts {
    alloc: Global,
    /// The bindings of each context in which something was ever bound, by its number.
    bindings: BTreeMap<u32, Bindings>,
    /// How many components are bound, in all contexts together.
    bound: u64,
    /// How many contexts were made behind context 0.
    made: u32,
}

impl Contexts {
    /// Context 0, in which nothing is bound. Takes no memory.
    pub fn new(alloc: Global) -> Self
        ensures { standing_of result ≡ nothing_bound }
    {
        Contexts {
            alloc,
            bindings: BTreeMap::new(alloc),
            bound: 0,
            made: 0,
        }
    }

    /// How many components are bound, in all contexts together.
    pub(crate) fn bound(&self) -> u64
        ensures { result ≡ (standing_of self.now).bound }
    {
        self.bound
    }

    /// How many contexts were made behind context 0.
    pub(crate) fn made(&self) -> u32
        ensures { result ≡ (standing_of self.now).made }
    {
        self.made
    }

    /// What a component is bound to in a context.
    pub(crate) fn find(&self, context: u32, component: &Component) -> Option<&Target>
        ensures { option_copied result ≡ (standing_of self.now).find context component.now }
    {
        self.bindings.get(&context)?.get(component)
    }

    /// Binds a component in a context, where it may be bound already.
    pub(crate) fn bind(
        &mut self,
        context: u32,
        component: Component,
        target: Target,
    ) -> Result<(), WantMemory>
        requires few { (standing_of self.old).find context component ≡ None
            → (standing_of self.old).bound < BINDINGS }
        requires made { (n : ℕ) → target ≡ Target.Context n
            → (standing_of self.old).made < CONTEXTS }
        ensures { OnOk result
            (standing_of self.new ≡ with_target context component target (standing_of self.old)) }
    {
        let made = made_with(&target, self.made);
        if !put(self.alloc, &mut self.bindings, context, component, target)? {
            self.bound += 1;
        }
        self.made = made;
        Ok(())
    }

    /// Drops the binding of a component in a context. Takes no memory.
    pub(crate) fn unbind(&mut self, context: u32, component: &Component)
        ensures { standing_of self.new
            ≡ without_target context component.now (standing_of self.old) }
    {
        if take(&mut self.bindings, context, component) {
            self.bound = self.bound.saturating_sub(1);
        }
    }
}

/// How many contexts were made once this target is bound.
fn made_with(target: &Target, made: u32) -> u32
    requires { (n : ℕ) → target.now ≡ Target.Context n → made < CONTEXTS }
    ensures { result ≡ made_with_target target.now made }
{
    match target {
        Target::Reference(_) => made,
        Target::Context(_) => made + 1,
    }
}

/// Binds a component in a context. Answers whether it was bound already.
fn put(
    alloc: Global,
    bindings: &mut BTreeMap<u32, Bindings>,
    context: u32,
    component: Component,
    target: Target,
) -> Result<bool, WantMemory>
    ensures was { IfOk result (λ was. was ≡ is_some (target_at bindings.old context component)) }
    ensures now { OnOk result
        (HasTargetAt context component (Some target) bindings.old bindings.new) }
{
    match bindings.get_mut(&context) {
        Some(bindings) => put_in(bindings, component, target),
        None => {
            let mut first = BTreeMap::new(alloc);
            let was = put_in(&mut first, component, target)?;
            bindings.insert(context, first)?;
            Ok(was)
        }
    }
}

/// Binds a component in one context. Answers whether it was bound already.
fn put_in(bindings: &mut Bindings, component: Component, target: Target) -> Result<bool, WantMemory>
    ensures was { IfOk result (λ was. was ≡ is_some (target_in (Some bindings.old) component)) }
    ensures now { OnOk result (HasTarget component (Some target) (Some bindings.old) bindings.new) }
{
    let was = bindings.insert(component, target)?;
    Ok(was.is_some())
}

/// Drops the binding of a component in a context. Answers whether it was bound.
fn take(bindings: &mut BTreeMap<u32, Bindings>, context: u32, component: &Component) -> bool
    ensures was { result ≡ is_some (target_at bindings.old context component.now) }
    ensures now { HasTargetAt context component.now None bindings.old bindings.new }
{
    match bindings.get_mut(&context) {
        Some(bindings) => take_in(bindings, component),
        None => false,
    }
}

/// Drops the binding of a component in one context. Answers whether it was bound.
fn take_in(bindings: &mut Bindings, component: &Component) -> bool
    ensures was { result ≡ is_some (target_in (Some bindings.old) component.now) }
    ensures now { HasTarget component.now None (Some bindings.old) bindings.new }
{
    let was = bindings.remove(component);
    was.is_some()
}
