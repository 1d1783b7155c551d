//! The lanes of those who serve.
ghost use Rattle.std.specs.Prelude.{◌≡◌};
ghost use Rattle.poad_audit.specs.PictureLanes as drawn;

use crate::picture::bar::Bar;

/// The lanes of all who serve in one way.
#[derive(Clone, Copy, Drop)]
pub(crate) enum Band {
    Workers,
    Activations,
}

impl Band {
    /// The one of them that is at a bar.
    pub(crate) fn number_on(self, bar: &Bar) -> Option<u32>
        ensures { result ≡ drawn.number_on self bar.now }
    {
        if !bar.phase.is_work() {
            return None;
        }
        match self {
            Band::Workers => bar.worker,
            Band::Activations => bar.activation,
        }
    }
}
