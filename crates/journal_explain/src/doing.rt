//! What an entry does that may change what stands of an object.
ghost use Rattle.std.specs.Prelude.{◌≡◌};
ghost use Rattle.journal_explain.specs.Objects as objects;

use poa_base::Entry;

/// What an entry does that may change what stands of an object.
#[derive(Clone, Copy, Drop)]
pub enum Doing {
    /// It admits the call of this number.
    Admits(u64),
    /// The servant activator answered.
    Incarnates,
    /// A request ended.
    Ends,
    /// The activation of this number is taken out of the active object map.
    TakesOut(u32),
    /// A servant was etherealized.
    Etherealizes,
    /// Anything else.
    Other,
}

impl Doing {
    /// What an entry does.
    pub(crate) fn of(entry: &Entry) -> Doing
        ensures { result ≡ objects.doing_of entry.now }
    {
        match entry {
            Entry::Admit { arrival, .. } => Doing::Admits(*arrival),
            Entry::Incarnated { .. } => Doing::Incarnates,
            Entry::Done { .. } => Doing::Ends,
            Entry::TakeOut { activation, .. } => Doing::TakesOut(*activation),
            Entry::Etherealized { .. } => Doing::Etherealizes,
            _ => Doing::Other,
        }
    }
}
