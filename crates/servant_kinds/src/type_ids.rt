//! The type ids of the kinds.
ghost use Rattle.std.specs.Prelude.{◌≡◌};
ghost use Rattle.servant_kinds.specs.Object.{type_id_of};

use crate::{echo, log, register};
use poa_base::State;

/// The type of a servant that only fails.
const FAULT: &[u8] = b"IDL:poad/Fault:1.0";

/// The type id of a servant with this state: the repository id of its interface.
pub fn type_id(state: &State) -> &'static [u8]
    ensures { result.now ≡ type_id_of state.now }
{
    match state {
        State::Register(_) => register::TYPE_ID,
        State::Book(_) => log::TYPE_ID,
        State::Echo => echo::TYPE_ID,
        State::Fault => FAULT,
    }
}
