//! The calls that come over connections.
ghost use Rattle.std.specs.Prelude.{◌≡◌, ◌++◌, OnOk};
ghost use Rattle.poa_history.specs.Legal.{IsOpen, IsSize};
ghost use Rattle.replay_run.specs.Calling.{after_call, call_text};
ghost use Rattle.replay_run.specs.Effects.{KnowsFilled};

use crate::full::Full;
use crate::player::Player;
use crate::printing::print_limit;
use poa_base::{Call, WantMemory};
use poa_core::ArriveFault;

impl Player {
    /// A call of this size comes over a connection. Where it is refused for the limits of the run, that is
    /// printed.
    pub fn call(&mut self, name: &[u8], conn: u32, call: Call, size: u64) -> Result<(), WantMemory>
        requires open_ { IsOpen self.old.core.history conn }
        requires size { IsSize size }
        ensures life { OnOk result (self.new.core ≡ after_call conn call size self.old.core) }
        ensures printed { OnOk result
            (self.new.printed.items
            ≡ self.old.printed.items ++ call_text name.now call size self.old.core) }
        ensures filled { OnOk result (KnowsFilled self.old → KnowsFilled self.new) }
        ensures turned_away { self.new.turned_away ≡ self.old.turned_away }
        ensures open_ { IsOpen self.new.core.history conn }
    {
        match self.core.arrive(conn, call, size) {
            Ok(_) => Ok(()),
            Err(ArriveFault::Limit { arrivals, bytes }) => {
                self.filled = Some(Full { arrivals, bytes });
                print_limit(&mut self.printed, name)
            }
            Err(ArriveFault::WantMemory) => Err(WantMemory),
        }
    }
}
