//! The entries that change nothing that stands.
ghost use Rattle.core_run.specs.Agrees.{history};
ghost use Rattle.core_run.specs.Noting.{HasRoomForEntry, IsNoted};
ghost use Rattle.core_run.specs.Kept.{IsQuiet};

use crate::brought::Brought;
use crate::inside::Inside;
use crate::noting::note;
use history_standing::Stage;
use poa_base::Entry;

/// An entry of a connection, or the giving up of a worker, is noted. It changes nothing that stands. Takes no memory.
pub fn quiet(inside: &mut Inside, entry: Entry)
    requires room { HasRoomForEntry entry inside.old }
    requires quiet { IsQuiet (history inside.old) entry inside.old }
    ensures { IsNoted entry inside.old inside.new }
{
    note(inside, entry, Stage::Free, Brought::nothing());
}
