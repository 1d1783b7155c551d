//! The servant of an activation.
ghost use Rattle.std.specs.Prelude.{◌≡◌, IfOk};
ghost use Rattle.journal_explain.specs.Serving as serving;

use history_standing::templates::servant_name;
use poa_base::{Config, Incarnation, Name, Sid, WantMemory};

/// The servant of an activation.
#[derive(Drop)]
pub enum Servant {
    /// The configured one of this name.
    Named(Name),
    /// A fresh one, which the servant activator brought for the activation of this number.
    Fresh(u32),
}

impl Servant {
    /// A servant of this configuration, or a fresh one.
    pub(crate) fn of(config: &Config, servant: Sid) -> Result<Option<Servant>, WantMemory>
        ensures { IfOk result (λ found. found ≡ serving.servant_of config.now servant) }
    {
        match servant {
            Sid::Named(number) => match servant_name(config, number) {
                Some(name) => Ok(Some(Servant::Named(name.clone()?))),
                None => Ok(None),
            },
            Sid::Fresh(number) => Ok(Some(Servant::Fresh(number))),
        }
    }

    /// The one that an answer of the servant activator brings, if it brings one.
    pub(crate) fn brought(answer: &Incarnation) -> Result<Option<Servant>, WantMemory>
        ensures { IfOk result (λ found. found ≡ serving.servant_brought answer.now) }
    {
        match answer {
            Incarnation::Fresh(number) => Ok(Some(Servant::Fresh(*number))),
            Incarnation::Named(name) => Ok(Some(Servant::Named(name.clone()?))),
            Incarnation::Double | Incarnation::Forward(_) | Incarnation::Raise(_) => Ok(None),
        }
    }
}
