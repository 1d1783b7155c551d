//! An entry comes, and the servants follow it.
ghost use Rattle.std.specs.Prelude.{◌≡◌, true, IfOk, OnOk, OnErr, option_copied};
ghost use Rattle.core_standing.specs.Seen.{seen};
ghost use Rattle.core_state.specs.Comes.{Comes, HoldsThen, TellsThen, may_want};
ghost use Rattle.core_state.specs.Kept.{kept_in};
ghost use Rattle.core_state.specs.Steps.{IsUnchanged};

use crate::acting::act;
use crate::bringing::incarnate;
use crate::coming::Coming;
use crate::etherealizing::etherealize;
use crate::servants::Servants;
use core_standing::Standing;
use poa_base::{Config, Entry, Outcome, WantMemory};
use std::alloc::Global;

/// The servants follow an entry: at a Run the servant that runs acts, and the answer is its outcome; at the
/// incarnation of a fresh servant that is brought, in the state stored for its id or as its kind opens; at
/// its etherealization its state is stored and it goes. Every other entry leaves them. The call and the
/// servant that come with it are those of what its worker serves, and `standing` is what stood. `WantMemory`,
/// at a Run or an incarnation alone: no memory was left, and every state is as it was.
pub fn advance(
    alloc: Global,
    config: &Config,
    coming: &Coming<'_>,
    standing: &Standing,
    servants: &mut Servants,
) -> Result<Option<Outcome>, WantMemory>
    requires { Comes config.now coming.now.entry.now coming.now.stage
        (option_copied coming.now.call) coming.now.runs (seen standing.now) (kept_in servants.old) }
    ensures ok { OnOk result
        (HoldsThen config.now coming.now.entry.now coming.now.stage
        (option_copied coming.now.call) coming.now.runs (seen standing.now)
        (kept_in servants.old)
        (kept_in servants.new)) }
    ensures outcome { IfOk result
        (λ outcome. TellsThen config.now coming.now.entry.now coming.now.stage
        (option_copied coming.now.call) coming.now.runs (seen standing.now)
        (kept_in servants.old) outcome) }
    ensures err { OnErr result (IsUnchanged (kept_in servants.old) (kept_in servants.new)) }
    ensures ends { OnErr result (may_want coming.now.entry.now ≡ true) }
{
    match coming.entry {
        Entry::Run { .. } => act(alloc, coming.call, coming.runs, servants),
        Entry::Incarnated { answer, .. } => {
            incarnate(alloc, config, answer, standing, servants)?;
            Ok(None)
        }
        Entry::Etherealized { .. } => {
            etherealize(coming.stage, standing, servants);
            Ok(None)
        }
        _ => Ok(None),
    }
}
