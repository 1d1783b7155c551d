//! What stands of activations in a run.
ghost use Rattle.std.specs.Prelude.{◌≡◌, IfOk, option_and_then, option_copied};
ghost use Rattle.history_standing.specs.Changes.{standing as stands_after};
ghost use Rattle.poa_history.specs.Lifetime.{IsServable};
ghost use Rattle.journal_explain.specs.Serving as serving;
ghost use Rattle.journal_explain.specs.Watching.{active_in};

use crate::servant::Servant;
use active_map::activation::is_active;
use core_run::Run;
use core_state::servant_by;
use history_standing::Activation;
use poa_base::{Config, Sid, Verdict, WantMemory};

/// How many activations were begun. Fails where that has more than 32 bits.
pub(crate) fn count_begun(run: &Run) -> Result<u32, WantMemory>
    ensures { IfOk result (λ count. count
        ≡ serving.begun_in run.now.config run.now.run run.now.history) }
{
    run.keeps_laws();
    let state = run.state();
    let count = state.standing.begun()?;
    Ok(count)
}

/// Whether the activation of this number is active.
pub(crate) fn is_serving(run: &Run, number: u32) -> bool
    ensures { result ≡ serving.is_serving run.now.config run.now.run run.now.history number }
{
    run.keeps_laws();
    let state = run.state();
    let activations = &state.standing.activations;
    activations.numbers();
    let active = is_any_active(activations.numbered(number));
    active
}

/// Whether there is one, and it is active.
fn is_any_active(activation: Option<&Activation>) -> bool
    ensures { result ≡ active_in (option_copied activation.entry) }
{
    match activation {
        Some(activation) => is_active(activation),
        None => false,
    }
}

/// The servant of an activation that is in the map.
pub(crate) fn servant_at(run: &Run, number: u32) -> Result<Option<Servant>, WantMemory>
    ensures { IsServable (stands_after run.now.config run.now.run run.now.history) number
        → IfOk result (λ servant. servant
        ≡ serving.servant_at run.now.config run.now.run run.now.history number) }
{
    run.keeps_laws();
    let state = run.state();
    let verdict = Verdict::Serve(number);
    let found = servant_by(run.config(), &state.standing, Some(&verdict))?;
    let servant = told(run.config(), found)?;
    Ok(servant)
}

/// The same servant, as it is told.
fn told(config: &Config, servant: Option<Sid>) -> Result<Option<Servant>, WantMemory>
    ensures { IfOk result (λ told. told ≡ option_and_then (serving.servant_of config.now) servant) }
{
    match servant {
        Some(servant) => Servant::of(config, servant),
        None => Ok(None),
    }
}
