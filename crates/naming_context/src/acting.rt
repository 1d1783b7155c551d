//! What a context does.
ghost use Rattle.std.specs.Prelude.{◌≡◌, ◌∷◌, [], IfOk, IsSome, None};
ghost use Rattle.naming_context.specs.declared.answer.Answer.TheVariants.{NotFound, Outcome};
ghost use Rattle.naming_context.specs.declared.asked.Asked.TheVariants as asked;
ghost use Rattle.naming_context.specs.declared.target.Target.TheVariants.{Reference};
ghost use Rattle.naming_context.specs.Kept.{standing_of};
ghost use Rattle.naming_context.specs.Outcomes as outcomes;
ghost use Rattle.naming_context.specs.Table as table;
ghost use Rattle.naming_context.specs.Table.{IsDone, reference_to as reference_of};

use crate::answer::Answer;
use crate::asked::Asked;
use crate::component::Component;
use crate::context_key::context_reference;
use crate::contexts::{BINDINGS, CONTEXTS, Contexts};
use crate::lead::Lead;
use crate::outcomes::{already_bound, invalid_name, is_a, is_there, names_full, nothing};
use crate::reason::Reason;
use crate::target::Target;
use poa_base::{Ior, Items, TryClone, WantMemory};
use std::alloc::Global;

impl Contexts {
    /// Does what a context is asked. Where memory is wanting what stands is as it was.
    pub(crate) fn act(
        &mut self,
        alloc: Global,
        context: u32,
        asked: Asked,
    ) -> Result<Answer, WantMemory>
        ensures { IfOk result
            (λ answer. IsDone (table.done (standing_of self.old) context asked)
            (standing_of self.old) answer (standing_of self.new)) }
    {
        match asked {
            Asked::Bind { name, object } => self.bind_name(alloc, context, &name, object),
            Asked::Rebind { name, object } => self.rebind_name(alloc, context, &name, object),
            Asked::Resolve { name } => self.resolve_name(alloc, context, &name),
            Asked::Unbind { name } => self.unbind_name(alloc, context, &name),
            Asked::BindNewContext { name } => self.bind_new_context(alloc, context, &name),
            Asked::IsA { type_id } => Ok(Answer::Outcome(is_a(type_id.as_slice()))),
            Asked::NonExistent => Ok(Answer::Outcome(is_there())),
        }
    }

    // `bind`.
    fn bind_name(
        &mut self,
        alloc: Global,
        context: u32,
        name: &Items<Component>,
        object: Ior,
    ) -> Result<Answer, WantMemory>
        ensures { IfOk result (λ answer. IsDone
            (table.done (standing_of self.old) context (asked.Bind name.now object))
            (standing_of self.old) answer (standing_of self.new)) }
    {
        match self.lead(context, name.as_slice()) {
            Lead::Ends { context, component } => self.bind_at(alloc, context, component, object),
            Lead::Stops { why, rest } => not_found(alloc, why, rest),
            Lead::NoName => Ok(Answer::Outcome(invalid_name(alloc)?)),
        }
    }

    fn bind_at(
        &mut self,
        alloc: Global,
        context: u32,
        component: &Component,
        object: Ior,
    ) -> Result<Answer, WantMemory>
        ensures { IfOk result (λ answer. IsDone
            (table.bind_over ((standing_of self.old).find context component.now)
            (standing_of self.old) context component.now object)
            (standing_of self.old) answer (standing_of self.new)) }
    {
        if self.find(context, component).is_some() {
            return Ok(Answer::Outcome(already_bound(alloc)?));
        }
        self.bind_first(context, component, object)
    }

    // Binds a component that isn't bound to a reference, where there is room for one more.
    fn bind_first(
        &mut self,
        context: u32,
        component: &Component,
        object: Ior,
    ) -> Result<Answer, WantMemory>
        requires { (standing_of self.old).find context component.now ≡ None }
        ensures { IfOk result (λ answer. IsDone
            (table.bound_first (standing_of self.old) context component.now (Reference object)
            (Outcome outcomes.nothing))
            (standing_of self.old) answer (standing_of self.new)) }
    {
        if self.bound() >= BINDINGS {
            return Ok(Answer::Outcome(names_full()));
        }
        self.bind(context, component.try_clone()?, Target::Reference(object))?;
        Ok(Answer::Outcome(nothing()))
    }

    // `rebind`.
    fn rebind_name(
        &mut self,
        alloc: Global,
        context: u32,
        name: &Items<Component>,
        object: Ior,
    ) -> Result<Answer, WantMemory>
        ensures { IfOk result (λ answer. IsDone
            (table.done (standing_of self.old) context (asked.Rebind name.now object))
            (standing_of self.old) answer (standing_of self.new)) }
    {
        match self.lead(context, name.as_slice()) {
            Lead::Ends { context, component } => self.rebind_at(alloc, context, component, object),
            Lead::Stops { why, rest } => not_found(alloc, why, rest),
            Lead::NoName => Ok(Answer::Outcome(invalid_name(alloc)?)),
        }
    }

    fn rebind_at(
        &mut self,
        alloc: Global,
        context: u32,
        component: &Component,
        object: Ior,
    ) -> Result<Answer, WantMemory>
        ensures { IfOk result (λ answer. IsDone
            (table.rebind_over ((standing_of self.old).find context component.now)
            (standing_of self.old) context component.now object)
            (standing_of self.old) answer (standing_of self.new)) }
    {
        match self.find(context, component) {
            Some(Target::Context(_)) => not_found_at(alloc, Reason::NotObject, component),
            Some(Target::Reference(_)) => self.bind_again(context, component, object),
            None => self.bind_first(context, component, object),
        }
    }

    // Binds a component that is bound to a reference to another one.
    fn bind_again(
        &mut self,
        context: u32,
        component: &Component,
        object: Ior,
    ) -> Result<Answer, WantMemory>
        requires { IsSome ((standing_of self.old).find context component.now) }
        ensures { IfOk result
            (λ answer. IsDone (table.bound_again context component.now object)
            (standing_of self.old) answer (standing_of self.new)) }
    {
        self.bind(context, component.try_clone()?, Target::Reference(object))?;
        Ok(Answer::Outcome(nothing()))
    }

    // `resolve`.
    fn resolve_name(
        &self,
        alloc: Global,
        context: u32,
        name: &Items<Component>,
    ) -> Result<Answer, WantMemory>
        ensures { IfOk result (λ answer. IsDone
            (table.done (standing_of self.now) context (asked.Resolve name.now))
            (standing_of self.now) answer (standing_of self.now)) }
    {
        match self.lead(context, name.as_slice()) {
            Lead::Ends { context, component } => self.resolve_at(alloc, context, component),
            Lead::Stops { why, rest } => not_found(alloc, why, rest),
            Lead::NoName => Ok(Answer::Outcome(invalid_name(alloc)?)),
        }
    }

    fn resolve_at(
        &self,
        alloc: Global,
        context: u32,
        component: &Component,
    ) -> Result<Answer, WantMemory>
        ensures { IfOk result
            (λ answer. IsDone (table.resolve_over
            ((standing_of self.now).find context component.now) component.now)
            (standing_of self.now) answer (standing_of self.now)) }
    {
        match self.find(context, component) {
            Some(target) => Ok(Answer::Reference(reference_to(alloc, target)?)),
            None => not_found_at(alloc, Reason::MissingNode, component),
        }
    }

    // `unbind`.
    fn unbind_name(
        &mut self,
        alloc: Global,
        context: u32,
        name: &Items<Component>,
    ) -> Result<Answer, WantMemory>
        ensures { IfOk result (λ answer. IsDone
            (table.done (standing_of self.old) context (asked.Unbind name.now))
            (standing_of self.old) answer (standing_of self.new)) }
    {
        match self.lead(context, name.as_slice()) {
            Lead::Ends { context, component } => self.unbind_at(alloc, context, component),
            Lead::Stops { why, rest } => not_found(alloc, why, rest),
            Lead::NoName => Ok(Answer::Outcome(invalid_name(alloc)?)),
        }
    }

    fn unbind_at(
        &mut self,
        alloc: Global,
        context: u32,
        component: &Component,
    ) -> Result<Answer, WantMemory>
        ensures { IfOk result (λ answer. IsDone
            (table.unbind_over ((standing_of self.old).find context component.now) context
            component.now)
            (standing_of self.old) answer (standing_of self.new)) }
    {
        if self.find(context, component).is_none() {
            return not_found_at(alloc, Reason::MissingNode, component);
        }
        self.unbind(context, component);
        Ok(Answer::Outcome(nothing()))
    }

    // `bind_new_context`.
    fn bind_new_context(
        &mut self,
        alloc: Global,
        context: u32,
        name: &Items<Component>,
    ) -> Result<Answer, WantMemory>
        ensures { IfOk result (λ answer. IsDone
            (table.done (standing_of self.old) context (asked.BindNewContext name.now))
            (standing_of self.old) answer (standing_of self.new)) }
    {
        match self.lead(context, name.as_slice()) {
            Lead::Ends { context, component } => self.new_context_at(alloc, context, component),
            Lead::Stops { why, rest } => not_found(alloc, why, rest),
            Lead::NoName => Ok(Answer::Outcome(invalid_name(alloc)?)),
        }
    }

    fn new_context_at(
        &mut self,
        alloc: Global,
        context: u32,
        component: &Component,
    ) -> Result<Answer, WantMemory>
        ensures { IfOk result (λ answer. IsDone
            (table.new_context_over ((standing_of self.old).find context component.now)
            (standing_of self.old) context component.now)
            (standing_of self.old) answer (standing_of self.new)) }
    {
        if self.find(context, component).is_some() {
            return Ok(Answer::Outcome(already_bound(alloc)?));
        }
        if self.made() >= CONTEXTS || self.bound() >= BINDINGS {
            return Ok(Answer::Outcome(names_full()));
        }
        let number = self.made() + 1;
        let reference = context_reference(alloc, number)?;
        self.bind(context, component.try_clone()?, Target::Context(number))?;
        Ok(Answer::Reference(reference))
    }
}

// A reference to what a component is bound to.
fn reference_to(alloc: Global, target: &Target) -> Result<Ior, WantMemory>
    ensures { IfOk result (λ ior. ior ≡ reference_of target.now) }
{
    match target {
        Target::Reference(object) => object.try_clone(),
        Target::Context(number) => context_reference(alloc, *number),
    }
}

// The name isn't found from this component on.
fn not_found_at(alloc: Global, why: Reason, component: &Component) -> Result<Answer, WantMemory>
    ensures { IfOk result (λ answer. answer ≡ NotFound why (component.now ∷ [])) }
{
    let mut rest = Items::new(alloc);
    rest.push(component.try_clone()?)?;
    Ok(Answer::NotFound { why, rest })
}

// The name isn't found from the first of these components on.
fn not_found(alloc: Global, why: Reason, rest: &[Component]) -> Result<Answer, WantMemory>
    ensures { IfOk result (λ answer. answer ≡ NotFound why rest.now) }
{
    let mut copy = Items::new(alloc);
    for component in rest {
        copy.push(component.try_clone()?)?;
    }
    Ok(Answer::NotFound { why, rest: copy })
}
