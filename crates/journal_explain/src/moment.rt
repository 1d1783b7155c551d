//! What an activation of an object comes to.
ghost use Rattle.std.specs.Prelude.{◌≡◌};
ghost use Rattle.journal_explain.specs.Objects as objects;

use crate::doing::Doing;
use poa_choose::MapFact;

/// What the activation of this number comes to.
#[derive(Clone, Copy, Drop)]
pub enum Moment {
    /// It begins, and its servant is to come.
    Begins(u32),
    /// It serves its object.
    IsActive(u32),
    /// It is ending, and serves no request any more but those in flight.
    Ends(u32),
    /// It is taken out of the active object map, and is to be etherealized.
    Leaves(u32),
    /// It is over.
    IsOver(u32),
}

/// What an activation comes to with an entry that does this, by what the map had for the id before and has then.
pub(crate) fn moment_of(doing: Doing, before: MapFact, after: MapFact) -> Option<Moment>
    ensures { result ≡ objects.moment_of doing before after }
{
    match after {
        MapFact::Active(number) => active_now(before, number),
        MapFact::Busy(number) => busy_now(doing, before, number),
        MapFact::Free => free_now(before),
    }
}

fn active_now(before: MapFact, number: u32) -> Option<Moment>
    ensures { result ≡ objects.active_now before number }
{
    match before {
        MapFact::Active(same) if same == number => None,
        _ => Some(Moment::IsActive(number)),
    }
}

fn busy_now(doing: Doing, before: MapFact, number: u32) -> Option<Moment>
    ensures { result ≡ objects.busy_now doing before number }
{
    match before {
        MapFact::Active(same) if same == number => Some(Moment::Ends(number)),
        MapFact::Busy(same) if same == number => leaves(doing, number),
        _ => Some(Moment::Begins(number)),
    }
}

/// One that is on its way out may be taken out.
fn leaves(doing: Doing, number: u32) -> Option<Moment>
    ensures { result ≡ objects.leaves doing number }
{
    match doing {
        Doing::TakesOut(gone) if gone == number => Some(Moment::Leaves(number)),
        _ => None,
    }
}

fn free_now(before: MapFact) -> Option<Moment>
    ensures { result ≡ objects.free_now before }
{
    match before {
        MapFact::Active(number) | MapFact::Busy(number) => Some(Moment::IsOver(number)),
        MapFact::Free => None,
    }
}
