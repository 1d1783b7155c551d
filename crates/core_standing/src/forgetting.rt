//! Those of the activations that are over are forgotten. Takes no memory.
ghost use Rattle.std.specs.Prelude.{◌≡◌};
ghost use Rattle.core_standing.specs.Kept.{KeepsNoneOver, StandsFor};
ghost use Rattle.core_standing.specs.Seen.{seen};
ghost use Rattle.core_standing.specs.Touched.{OverTouched, is_touched};

use crate::standing::Standing;
use crate::touched::Touched;
use poa_base::Config;

/// Those of the touched that are over are forgotten, but for their number.
pub fn forget(config: &Config, standing: &mut Standing, touched: Touched)
    ensures same { StandsFor config.now (seen standing.old) (seen standing.new) }
    ensures all { OverTouched config.now (is_touched touched) (seen standing.old)
        → KeepsNoneOver config.now (seen standing.new) }
{
    match touched {
        Touched::Nothing => {}
        Touched::One(number) => standing.activations.forget_at(config, number),
        Touched::All => standing.activations.forget(config),
    }
}
