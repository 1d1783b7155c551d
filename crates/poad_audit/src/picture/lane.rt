//! A lane of a picture.
ghost use Rattle.std.specs.Prelude.{◌≡◌};
ghost use Rattle.poad_audit.specs.PictureLanes as drawn;

use crate::picture::band::Band;
use crate::picture::bar::Bar;
use journal_explain::CallName;

/// A lane of a picture.
#[derive(Clone, Copy, Drop)]
pub(crate) enum Lane {
    /// The head of the calls of this connection.
    Connection(u32),
    Call(CallName),
    /// The head of those who serve in one way.
    Head(Band),
    /// One of them.
    One(Band, u32),
}

impl Lane {
    /// Whether a bar lies on it.
    pub(crate) fn has(self, bar: &Bar) -> bool
        ensures { result ≡ drawn.is_on self bar.now }
    {
        match self {
            Lane::Connection(_) | Lane::Head(_) => false,
            Lane::Call(name) => bar.call == name.arrival,
            Lane::One(band, number) => is_number(number, band.number_on(bar)),
        }
    }
}

fn is_number(number: u32, own: Option<u32>) -> bool
    ensures { result ≡ drawn.is_number number own }
{
    match own {
        Some(own) => own == number,
        None => false,
    }
}
