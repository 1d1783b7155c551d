//! The kinds of fresh servants, and the states in which they open.
ghost use Rattle.std.specs.Prelude.{◌≡◌, IfOk, option_copied};
ghost use Rattle.poa_history.specs.States as states;

use core_standing::rules::rule_for;
use history_standing::Activation;
use history_standing::templates::rules_at;
use poa_base::{Config, Gives, Items, Kind, State, TryClone, WantMemory};
use std::alloc::Global;

/// The kind of the fresh servants that an activation's rule brings.
pub fn kind_brought(config: &Config, activation: &Activation) -> Kind
    ensures { result ≡ states.kind_brought config.now activation.now }
{
    match rule_for(
        rules_at(config, activation.path.as_slice()),
        activation.oid.as_slice(),
    ) {
        Some(rule) => match rule.gives {
            Gives::Fresh(kind) => kind,
            Gives::Servant(_) | Gives::Forward(_) | Gives::Raise(_) => Kind::Fault,
        },
        None => Kind::Fault,
    }
}

/// The state in which a servant of the kind opens.
fn opening_state(alloc: Global, kind: Kind) -> State
    ensures { result ≡ states.opening_state kind }
{
    match kind {
        Kind::Register => State::Register(0),
        Kind::Log => State::Book(Items::new(alloc)),
        Kind::Echo => State::Echo,
        Kind::Fault => State::Fault,
    }
}

/// Whether a state is one of the kind.
fn is_of_kind(kind: Kind, state: &State) -> bool
    ensures { result ≡ states.is_of_kind kind state.now }
{
    match state {
        State::Register(_) => matches!(kind, Kind::Register),
        State::Book(_) => matches!(kind, Kind::Log),
        State::Echo => matches!(kind, Kind::Echo),
        State::Fault => matches!(kind, Kind::Fault),
    }
}

/// The stored state where it is of the kind, else the one in which the kind opens.
pub fn restored(alloc: Global, kind: Kind, stored: Option<&State>) -> Result<State, WantMemory>
    ensures { IfOk result (λ state. state ≡ states.restored kind (option_copied stored.entry)) }
{
    match stored {
        Some(state) => {
            if is_of_kind(kind, state) {
                state.try_clone()
            } else {
                Ok(opening_state(alloc, kind))
            }
        }
        None => Ok(opening_state(alloc, kind)),
    }
}
