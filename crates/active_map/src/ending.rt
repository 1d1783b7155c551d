//! Whom a command ends.
ghost use Rattle.std.specs.Prelude.{◌≡◌, ◌==◌, ◌&&◌};
ghost use Rattle.history_standing.specs.Changes as changes;
ghost use Rattle.history_standing.specs.Templates as configured;
ghost use Rattle.active_map.specs.Endings as endings;

use crate::activation::is_of;
use history_standing::nodes::stands_under;
use history_standing::templates::{has_activator, manager_at};
use history_standing::{Activation, Node};
use poa_base::{Config, Name, Oid};

/// The activations that a command ends.
#[derive(Clone, Copy, Drop)]
pub enum Ending<'a> {
    /// Those of the adapters that stand at a path or below it, by a destroy, which etherealizes their servants or doesn't.
    Below(&'a [Node], &'a [Name], bool),
    /// Those of a manager that have a servant activator.
    Managed(&'a Config, usize),
    /// Those of an id of an adapter.
    Id(u32, &'a Oid),
}

/// Whether the activation is one of the manager's, with a servant activator.
fn is_activators(config: &Config, manager: usize, activation: &Activation) -> bool
    ensures { result ≡ configured.has_activator config.now activation.now.path &&
        (configured.manager_at config.now activation.now.path == manager) }
{
    let path = activation.path.as_slice();
    has_activator(config, path) && manager_at(config, path) as usize == manager
}

/// The activation is ending, by a destroy or so that its servant is etherealized.
fn end_by_destroy(activation: &mut Activation, etherealize: bool)
    ensures { activation.new ≡ changes.ended_by_destroy etherealize activation.old }
{
    activation.quiet = activation.quiet || (!activation.ending && !etherealize);
    activation.cleanup = activation.cleanup || (etherealize && !activation.out);
    activation.ending = true;
}

impl Ending<'_> {
    /// Whether an activation is one of them.
    pub fn takes(self, activation: &Activation) -> bool
        ensures { result ≡ endings.takes self.entry activation.now }
    {
        match self {
            Ending::Below(nodes, path, _) => stands_under(nodes, path, activation.adapter),
            Ending::Managed(config, manager) => is_activators(config, manager, activation),
            Ending::Id(adapter, oid) => is_of(adapter, oid.as_slice(), activation),
        }
    }

    /// One of them is ending.
    fn mark(self, activation: &mut Activation)
        ensures { activation.new ≡ endings.marked self.entry activation.old }
    {
        match self {
            Ending::Below(_, _, etherealize) => end_by_destroy(activation, etherealize),
            Ending::Managed(..) => end_by_destroy(activation, true),
            Ending::Id(..) => activation.ending = true,
        }
    }

    /// An activation is ending where it is one of them. Takes no memory.
    pub fn end(self, activation: &mut Activation)
        ensures { activation.new ≡ endings.ended self.entry activation.old }
    {
        if self.takes(activation) {
            self.mark(activation);
        }
    }
}
