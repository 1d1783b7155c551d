//! What a servant does on a call.
ghost use Rattle.std.specs.Prelude.{◌≡◌, option_copied, IfOk};
ghost use Rattle.poa_history.specs.States as states;
ghost use Rattle.servant_kinds.specs.Act.{act_of};

use poa_base::{Body, Bytes, Call, Outcome, State, WantMemory};
use servant_kinds::Servant;
use std::alloc::Global;

/// The state after a call, and how the call ended.
#[derive(Drop)]
pub struct Acted {
    pub state: State,
    pub outcome: Outcome,
}

/// What a servant with that state does on a request.
fn requested(
    alloc: Global,
    state: State,
    operation: &Bytes,
    body: &Body,
) -> Result<Acted, WantMemory>
    ensures { IfOk result
        (λ done. act_of state operation.now body.now ≡ (done.state, done.outcome)) }
{
    let mut servant = Servant::new(alloc, state);
    let outcome = servant.act(operation.as_slice(), body)?;
    let state = servant.state().clone()?;
    Ok(Acted { state, outcome })
}

/// What a servant with that state does on a call.
pub fn act(alloc: Global, state: State, call: Option<&Call>) -> Result<Acted, WantMemory>
    ensures { IfOk result
        (λ done. states.acted state (option_copied call.entry) ≡ (done.state, done.outcome)) }
{
    match call {
        Some(
            Call::Request {
                operation,
                body,
                ..
            },
        ) => requested(alloc, state, operation, body),
        Some(Call::Locate { .. } | Call::Line { .. }) | None => Ok(Acted {
            state,
            outcome: Outcome::Value(None),
        }),
    }
}
