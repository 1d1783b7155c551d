//! When an activation is over.
ghost use Rattle.std.specs.Prelude.{◌≡◌, ◌&&◌, ◌||◌, not};
ghost use Rattle.history_standing.specs.Ends as ends;
ghost use Rattle.history_standing.specs.Situations as situations;

use crate::activation::{is_begun, is_void};
use history_standing::Activation;
use history_standing::templates::has_activator;
use poa_base::Config;

/// Whether it is out of the map, and etherealized where that is due.
pub fn is_finished(config: &Config, activation: &Activation) -> bool
    ensures { result ≡ ends.is_finished config.now activation.now }
{
    activation.out
        && (activation.quiet
            || activation.etherealized
            || !has_activator(config, activation.path.as_slice()))
}

/// Whether it holds its id no longer.
pub fn is_over(config: &Config, activation: &Activation) -> bool
    ensures { result ≡ ends.is_over config.now activation.now }
{
    is_void(activation) || is_finished(config, activation)
}

/// Whether its incarnation or etherealization hasn't ended.
pub fn is_unfinished(config: &Config, activation: &Activation) -> bool
    ensures { result ≡ situations.is_unfinished config.now activation.now }
{
    is_begun(activation) || (activation.out && !is_finished(config, activation))
}
