//! What a worker has begun goes on, and a removal that is due begins.
ghost use Rattle.std.specs.Prelude.{◌≡◌, ◌==◌, ◌&&◌, None, Some, false, find, not, option_and_then, option_copied, if◌then◌else◌, IfOk, IsOk};
ghost use Rattle.poa_base.specs.declared.Attempt.{Attempt};
ghost use Rattle.history_standing.specs.Standings as stands;
ghost use Rattle.history_standing.specs.Templates as configured;
ghost use Rattle.poa_history.specs.Turns as turns;
ghost use Rattle.core_standing.specs.Seen.{seen};
ghost use Rattle.core_turns.specs.Busy.{IsBusy};
ghost use Rattle.core_turns.specs.Needs.{needs_memory};
ghost use Rattle.history_standing.specs.Situations as situations;

use crate::facts::is_changing;
use crate::rules::brought;
use active_map::activation::{is_complete, is_ending};
use core_standing::Standing;
use core_standing::searches::activation_numbered;
use history_standing::flights::{flight_of, is_used};
use history_standing::nodes::node_numbered;
use history_standing::templates::{children_at, has_activator, has_template};
use history_standing::{Activation, Flight, Node, Stage};
use poa_base::limits::ADAPTERS;
use poa_base::{Attempt, Children, Config, Entry, Name, WantMemory};

/// What an adapter activator answers for a child, where its parent lives.
fn attempt_by(
    config: &Config,
    standing: &Standing,
    children: Option<Children>,
    child: &[Name],
) -> Attempt
    ensures { result ≡ turns.attempt_by config.now (seen standing.now) children child.now }
{
    match children {
        Some(Children::Raise) => Attempt::Raised,
        Some(Children::Create) => {
            if has_template(config, child) && standing.count < ADAPTERS {
                Attempt::Yes {
                    number: standing.count,
                }
            } else {
                Attempt::No
            }
        }
        Some(Children::Refuse) | None => Attempt::No,
    }
}

fn attempt_at(
    config: &Config,
    standing: &Standing,
    parent: Option<&Node>,
    child: &[Name],
) -> Attempt
    ensures { result ≡ turns.attempt_at config.now (seen standing.now) (option_copied parent.entry)
        child.now }
{
    match parent {
        Some(parent) => {
            if parent.dying {
                Attempt::Dying
            } else {
                attempt_by(
                    config,
                    standing,
                    children_at(config, parent.path.as_slice()),
                    child,
                )
            }
        }
        None => Attempt::Dying,
    }
}

/// What the adapter activator of the adapter of this number answers for a child.
fn attempt_in(config: &Config, standing: &Standing, adapter: u32, child: &[Name]) -> Attempt
    ensures { result ≡ turns.attempt_at config.now (seen standing.now)
        (turns.node_of (seen standing.now) adapter) child.now }
{
    attempt_at(
        config,
        standing,
        node_numbered(&standing.nodes, adapter),
        child,
    )
}

/// What the adapter activator answers for the child of a trial.
fn attempt_for(config: &Config, standing: &Standing, flight: &Flight) -> Attempt
    ensures { result ≡ elim flight.now.child [
      | None ↦ Attempt.No
      | Some child ↦ turns.attempt_at config.now (seen standing.now)
          (turns.node_of (seen standing.now) flight.now.adapter) child
    ] }
{
    match &flight.child {
        Some(child) => attempt_in(config, standing, flight.adapter, child.as_slice()),
        None => Attempt::No,
    }
}

/// What the adapter activator answers for the child that is tried (CORBA 3.3 Part 1, section 15.3.3).
/// Takes no memory.
pub fn attempt(config: &Config, standing: &Standing, arrival: u64) -> Attempt
    ensures { result ≡ turns.attempt config.now (seen standing.now) arrival }
{
    match flight_of(&standing.flights, arrival) {
        Some(flight) => attempt_for(config, standing, flight),
        None => Attempt::No,
    }
}

/// The servant activator's answer.
fn incarnation_entry(
    config: &Config,
    standing: &Standing,
    worker: u32,
    number: u32,
) -> Result<Option<Entry>, WantMemory>
    ensures { IfOk result
        (λ entry. entry ≡ turns.incarnation_entry config.now (seen standing.now) worker number) }
{
    match activation_numbered(standing, number) {
        Some(activation) => Ok(Some(Entry::Incarnated {
            worker,
            answer: brought(config, standing, activation)?,
        })),
        None => Ok(None),
    }
}

fn removal_entry(standing: &Standing, worker: u32, number: u32) -> Option<Entry>
    ensures { result ≡ turns.removal_entry (seen standing.now) worker number }
{
    match activation_numbered(standing, number) {
        Some(activation) => Some(Entry::Etherealized {
            worker,
            cleanup: activation.cleanup,
            remaining: activation.remaining,
        }),
        None => None,
    }
}

/// What a worker has begun goes on. What a servant activator brings may need memory; no other entry does.
pub fn going_on(
    config: &Config,
    standing: &Standing,
    worker: u32,
    stage: Stage,
) -> Result<Option<Entry>, WantMemory>
    ensures next { IfOk result
        (λ entry. entry ≡ turns.going_on config.now (seen standing.now) worker stage) }
    ensures ends { needs_memory stage ≡ false → IsOk result }
{
    match stage {
        Stage::Trying(arrival) => Ok(Some(Entry::Tried {
            worker,
            answer: attempt(config, standing, arrival),
        })),
        Stage::Incarnating(_, number) => incarnation_entry(config, standing, worker, number),
        Stage::Serving(_) => Ok(Some(Entry::Run { worker })),
        Stage::Ran(_) => Ok(Some(Entry::Done { worker })),
        Stage::Removing(number) => Ok(removal_entry(standing, worker, number)),
        Stage::Free => Ok(None),
    }
}

/// Whether the servant activator is to be told of an activation that is ending.
fn is_told(config: &Config, activation: &Activation) -> bool
    ensures { result ≡ stands.is_complete activation.now &&
        (stands.is_ending activation.now
        && (configured.has_activator config.now activation.now.path && not activation.now.out)) }
{
    is_complete(activation)
        && (is_ending(activation)
            && (has_activator(config, activation.path.as_slice()) && !activation.out))
}

/// Whether an incarnation or etherealization is unfinished in an adapter, where it is known of `busy` that one is. Of
/// several that are asked for one adapter the first alone is looked at, where it is.
fn is_busy(config: &Config, standing: &Standing, adapter: u32, busy: &mut Option<u32>) -> bool
    requires { IsBusy config.now (seen standing.now) busy.old }
    ensures is { result
        ≡ situations.is_changing config.now (seen standing.now).activations adapter }
    ensures busy { IsBusy config.now (seen standing.now) busy.new }
{
    if *busy == Some(adapter) {
        return true;
    }
    let changing = is_changing(config, standing, adapter);
    if changing {
        *busy = Some(adapter);
    }
    changing
}

/// Whether an activation is to be taken out, where it is known that the adapter `busy` is changing.
fn is_due(
    config: &Config,
    standing: &Standing,
    activation: &Activation,
    busy: &mut Option<u32>,
) -> bool
    requires { IsBusy config.now (seen standing.now) busy.old }
    ensures due { result ≡ turns.is_due config.now (seen standing.now) activation.now }
    ensures busy { IsBusy config.now (seen standing.now) busy.new }
{
    if is_busy(config, standing, activation.adapter, busy) {
        return false;
    }
    is_told(config, activation) && !is_used(&standing.flights, activation.number)
}

/// The activation of a number, where it is to be taken out.
fn due_at<'a>(
    config: &Config,
    standing: &'a Standing,
    number: u32,
    busy: &mut Option<u32>,
) -> Option<&'a Activation>
    requires { IsBusy config.now (seen standing.now) busy.old }
    ensures due { option_copied result
        ≡ option_and_then (λ a.
        if turns.is_due config.now (seen standing.now) a then Some a else None)
        (find (λ a. a.number == number) standing.now.activations.kept) }
    ensures busy { IsBusy config.now (seen standing.now) busy.new }
{
    let activation = standing.activations.numbered(number)?;
    if is_due(config, standing, activation, busy) {
        Some(activation)
    } else {
        None
    }
}

/// The first that is due of those that are kept.
fn first_due<'a>(config: &Config, standing: &'a Standing) -> Option<&'a Activation>
    ensures { option_copied result
        ≡ find (turns.is_due config.now (seen standing.now)) standing.now.activations.kept }
{
    let mut busy = None;
    for number in standing.activations.leaving() {
        if let Some(activation) = due_at(config, standing, *number, &mut busy) {
            return Some(activation);
        }
    }
    None
}

/// The least activation that is due is taken out. Takes no memory.
pub fn removal(config: &Config, standing: &Standing, worker: u32) -> Option<Entry>
    ensures { result ≡ turns.removal config.now (seen standing.now) worker }
{
    match first_due(config, standing) {
        Some(activation) => Some(Entry::TakeOut {
            worker,
            activation: activation.number,
            etherealize: !activation.quiet,
        }),
        None => None,
    }
}
