//! Workers give the run up.
ghost use Rattle.std.specs.Prelude.{◌≡◌, ◌<◌, false};
ghost use Rattle.history_standing.specs.Stages.{is_abandoned};
ghost use Rattle.poa_base.specs.declared.Entry.TheVariants.{Abandon};
ghost use Rattle.poa_history.specs.Life.{with_entry};
ghost use Rattle.core_run.specs.Agrees.{history};
ghost use Rattle.core_run.specs.Kept.{IsKept, life};

use crate::inside::Inside;
use crate::quieting::quiet;
use poa_base::Entry;

/// A worker below 16 that hasn't given the run up does so. Takes no memory.
pub fn abandon(inside: &mut Inside, worker: u32)
    requires kept { IsKept inside.old }
    requires worker { worker < 16 }
    requires going { is_abandoned (history inside.old) worker ≡ false }
    ensures kept { IsKept inside.new }
    ensures abandoned { life inside.new ≡ with_entry (Abandon worker) (life inside.old) }
{
    quiet(inside, Entry::Abandon { worker });
}
