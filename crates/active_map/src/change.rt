//! What happens to one activation.
ghost use Rattle.std.specs.Prelude.{◌≡◌};
ghost use Rattle.active_map.specs.Made as changed;

use crate::changing::{come_to, etherealize, let_go, let_out};
use history_standing::{Activation, Flight, Phase};
use poa_base::Config;

/// A change of one activation.
#[derive(Clone, Copy, Drop)]
pub enum Change<'a> {
    /// Its incarnation has come so far.
    Come(Phase),
    /// It is taken out of the map, where its servant remains by another one or doesn't.
    TakeOut { remaining: bool },
    /// Its servant is etherealized.
    Etherealize,
    /// It leaves the map where it is to.
    LetOut(&'a Config, &'a [Flight]),
}

impl Change<'_> {
    /// The activation is changed. Takes no memory.
    pub fn make(self, activation: &mut Activation)
        ensures { activation.new ≡ changed.made self.entry activation.old }
    {
        match self {
            Change::Come(phase) => come_to(phase, activation),
            Change::TakeOut { remaining } => let_go(remaining, activation),
            Change::Etherealize => etherealize(activation),
            Change::LetOut(config, flights) => let_out(config, flights, activation),
        }
    }
}
