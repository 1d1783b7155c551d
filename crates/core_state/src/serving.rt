//! The servant that serves an arrival.
ghost use Rattle.std.specs.Prelude.{◌≡◌, IfOk, option_copied};
ghost use Rattle.poa_history.specs.States as states;
ghost use Rattle.poa_history.specs.Turns as turns;
ghost use Rattle.core_standing.specs.Seen.{seen};

use core_standing::Standing;
use core_standing::searches::activation_numbered;
use history_standing::templates::servant_number;
use history_standing::{Activation, Phase};
use poa_base::{Config, Name, Sid, Verdict, WantMemory};

/// The servant of an activation.
fn servant_of(activation: Option<&Activation>) -> Option<Sid>
    ensures { result ≡ states.servant_of_activation (option_copied activation.entry) }
{
    match activation {
        Some(activation) => match activation.phase {
            Phase::Complete(servant) => Some(servant),
            Phase::Begun | Phase::Void => None,
        },
        None => None,
    }
}

/// The servant of this activation's number.
fn servant_at(standing: &Standing, number: u32) -> Option<Sid>
    ensures { result ≡ states.servant_of_activation
        (turns.activation_numbered (seen standing.now) number) }
{
    servant_of(activation_numbered(standing, number))
}

/// The configured servant of a name.
fn servant_named(config: &Config, name: &Name) -> Result<Option<Sid>, WantMemory>
    ensures { IfOk result (λ servant. servant ≡ states.servant_named config.now name.now) }
{
    match servant_number(config, name)? {
        Some(number) => Ok(Some(Sid::Named(number))),
        None => Ok(None),
    }
}

/// The servant of an arrival that was admitted to one, by the verdict on it. `WantMemory` stands for a number
/// that doesn't fit 32 bits.
pub fn servant_by(
    config: &Config,
    standing: &Standing,
    verdict: Option<&Verdict>,
) -> Result<Option<Sid>, WantMemory>
    ensures { IfOk result
        (λ servant. servant ≡ states.servant_by config.now (seen standing.now)
        (option_copied verdict.entry)) }
{
    match verdict {
        Some(Verdict::Serve(number) | Verdict::Incarnate(number)) => Ok(servant_at(
            standing, *number,
        )),
        Some(Verdict::Preset(name) | Verdict::Locator(name)) => servant_named(config, name),
        _ => Ok(None),
    }
}
