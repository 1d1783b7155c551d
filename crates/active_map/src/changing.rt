//! How one activation changes. Each change is made in place and takes no memory.
ghost use Rattle.std.specs.Prelude.{◌≡◌, ◌==◌, ◌&&◌, false, true, not, if◌then◌else◌};
ghost use Rattle.history_standing.specs.declared.activation.Phase.TheVariants.{Begun, Complete, Void};
ghost use Rattle.history_standing.specs.Changes as changes;
ghost use Rattle.history_standing.specs.Ends as ends;
ghost use Rattle.history_standing.specs.Standings as stands;
ghost use Rattle.history_standing.specs.Standings.{Standing as Stood};
ghost use Rattle.active_map.specs.Asked.{is_to_go};

use crate::activation::{has_servant, is_begun, is_complete, is_mapped};
use history_standing::flights::is_used;
use history_standing::templates::has_activator;
use history_standing::{Activation, Flight, Phase};
use poa_base::Config;

/// An activation that is being incarnated has come so far.
pub fn come_to(phase: Phase, activation: &mut Activation)
    ensures { activation.new ≡ changes.come_to phase activation.old }
{
    if is_begun(activation) {
        activation.phase = phase;
    }
}

/// An activation is out of the map, where its servant remains by another activation or doesn't.
pub fn let_go(remaining: bool, activation: &mut Activation)
    ensures { activation.new ≡ record activation.old { out = true; remaining = remaining } }
{
    activation.out = true;
    activation.remaining = remaining;
}

/// The servant of an activation is etherealized.
pub fn etherealize(activation: &mut Activation)
    ensures { activation.new ≡ record activation.old { etherealized = true } }
{
    activation.etherealized = true;
}

/// Whether the activation has the servant of another.
fn shares_servant(activation: &Activation, other: &Activation) -> bool
    ensures { result ≡ elim activation.now.phase [
      | Complete s ↦ stands.has_servant s
          other.now
      | Begun ↦ false
      | Void ↦ false
    ] }
{
    match activation.phase {
        Phase::Complete(servant) => has_servant(servant, other),
        Phase::Begun | Phase::Void => false,
    }
}

/// Whether another activation has the same servant in the map of the same adapter.
pub fn is_other(activation: &Activation, other: &Activation) -> bool
    ensures { result ≡ not (other.now.number == activation.now.number)
        && ((other.now.adapter == activation.now.adapter)
        && (stands.is_mapped other.now &&
        (elim activation.now.phase [
          | Complete s ↦ stands.has_servant s
              other.now
          | Begun ↦ false
          | Void ↦ false
        ]))) }
{
    other.number != activation.number
        && (other.adapter == activation.adapter
            && (is_mapped(other) && shares_servant(activation, other)))
}

/// Whether an activation is still to leave the map: it is ending, has its servant and no servant activator, and
/// nothing is in flight in it.
pub fn is_to_leave(config: &Config, flights: &[Flight], activation: &Activation) -> bool
    ensures goes { result ≡ is_to_go config.now flights.now activation.now }
    ensures left { (s : Stood) → s.flights ≡ flights.now
        → ends.let_out config.now s activation.now
        ≡ (if result then record activation.now { out = true } else activation.now) }
{
    activation.ending
        && !activation.out
        && is_complete(activation)
        && !has_activator(config, activation.path.as_slice())
        && !is_used(flights, activation.number)
}

/// The activation leaves the map where that is due.
pub fn let_out(config: &Config, flights: &[Flight], activation: &mut Activation)
    ensures { (s : Stood) → s.flights ≡ flights.now
        → activation.new ≡ ends.let_out config.now s activation.old }
{
    if is_to_leave(config, flights, activation) {
        activation.out = true;
    }
}
