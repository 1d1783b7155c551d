//! A fresh servant is etherealized.
ghost use Rattle.std.specs.Prelude.{◌≡◌, option_copied, option_map};
ghost use Rattle.core_standing.specs.Seen.{seen};
ghost use Rattle.core_state.specs.Kept.{kept_in};
ghost use Rattle.core_state.specs.Steps as steps;

use crate::servants::Servants;
use core_standing::Standing;
use core_standing::searches::activation_numbered;
use history_standing::{Activation, Phase, Stage};
use poa_base::Sid;

/// The number of the fresh servant of an activation.
fn fresh_number(phase: Phase) -> Option<u32>
    ensures { result ≡ steps.fresh_number phase }
{
    match phase {
        Phase::Complete(Sid::Fresh(number)) => Some(number),
        Phase::Complete(Sid::Named(_)) | Phase::Begun | Phase::Void => None,
    }
}

/// An activation and the number of its fresh servant.
fn removed_of(activation: Option<&Activation>) -> Option<(&Activation, u32)>
    ensures { option_map (λ r. (r.0.now, r.1)) result
        ≡ steps.removed_of (option_copied activation.entry) }
{
    match activation {
        Some(activation) => match fresh_number(activation.phase) {
            Some(number) => Some((activation, number)),
            None => None,
        },
        None => None,
    }
}

/// The activation that is removed and the number of its fresh servant.
fn removed(standing: &Standing, stage: Stage) -> Option<(&Activation, u32)>
    ensures { option_map (λ r. (r.0.now, r.1)) result ≡ steps.removed (seen standing.now) stage }
{
    match stage {
        Stage::Removing(activation) => removed_of(activation_numbered(standing, activation)),
        Stage::Free
        | Stage::Trying(_)
        | Stage::Incarnating(_, _)
        | Stage::Serving(_)
        | Stage::Ran(_) => None,
    }
}

/// The fresh servant of the activation that is removed goes, and its state is stored. Takes no memory.
pub fn etherealize(stage: Stage, standing: &Standing, servants: &mut Servants)
    requires { steps.HasRoom (steps.removed (seen standing.now) stage) (kept_in servants.old) }
    ensures { steps.Etherealizes (steps.removed (seen standing.now) stage) (kept_in servants.old)
        (kept_in servants.new) }
{
    let Some((activation, number)) = removed(standing, stage) else {
        return;
    };
    if let Some(servant) = servants.fresh.remove(&number) {
        let state = servant.into_state();
        servants.store.set(&activation.path, &activation.oid, state);
    }
}
