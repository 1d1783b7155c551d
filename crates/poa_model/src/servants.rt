//! Which servant runs, and what it runs.
ghost use Rattle.std.specs.Prelude.{◌≡◌, reverse, option_copied, IfOk};
ghost use Rattle.poa_history.specs.States as states;
ghost use Rattle.core_standing.specs.Seen.{seen};

use core_standing::searches::activation_numbered;
use core_standing::{Standing, standing_of};
use history_standing::templates::servant_number;
use history_standing::{Activation, Phase, Stage};
use poa_base::{Call, Config, Entry, Name, Sid, Verdict, WantMemory};
use poa_history::Run;
use poa_history::calls::call_of;
use poa_history::workers::admitted;

/// The servant of an activation, where it has one.
fn servant_of_activation(activation: Option<&Activation>) -> Option<Sid>
    ensures { result ≡ states.servant_of_activation (option_copied activation.entry) }
{
    match activation?.phase {
        Phase::Complete(servant) => Some(servant),
        Phase::Begun | Phase::Void => None,
    }
}

/// The configured servant of a name.
fn servant_named(config: &Config, name: &Name) -> Result<Option<Sid>, WantMemory>
    ensures { IfOk result (λ servant. servant ≡ states.servant_named config.now name.now) }
{
    match servant_number(config, name)? {
        Some(number) => Ok(Some(Sid::Named(number))),
        None => Ok(None),
    }
}

/// The servant of an arrival that was admitted to one.
fn servant_by(
    config: &Config,
    standing: &Standing,
    verdict: Option<&Verdict>,
) -> Result<Option<Sid>, WantMemory>
    ensures { IfOk result
        (λ servant. servant ≡ states.servant_by config.now (seen standing.now)
        (option_copied verdict.entry)) }
{
    match verdict {
        Some(Verdict::Serve(number) | Verdict::Incarnate(number)) => {
            Ok(servant_of_activation(activation_numbered(standing, *number)))
        }
        Some(Verdict::Preset(name) | Verdict::Locator(name)) => servant_named(config, name),
        _ => Ok(None),
    }
}

/// The servant that runs at the Run of a worker.
pub fn servant_run(run: &Run<'_>, past: &[Entry], stage: Stage) -> Result<Option<Sid>, WantMemory>
    ensures { IfOk result
        (λ servant. servant ≡ states.servant_run run.now.config.now run.now.number
        (reverse past.now) stage) }
{
    match stage {
        Stage::Serving(arrival) => {
            let standing = standing_of(run.alloc, run.config, run.number, past)?;
            servant_by(run.config, &standing, admitted(past, arrival))
        }
        _ => Ok(None),
    }
}

/// The call that it runs.
pub fn call_run(past: &[Entry], stage: Stage) -> Option<&Call>
    ensures { option_copied result ≡ states.call_run (reverse past.now) stage }
{
    match stage {
        Stage::Serving(arrival) => call_of(past, arrival),
        _ => None,
    }
}
