//! What is printed of the configuration that a text is.
ghost use Rattle.std.specs.Prelude.{◌≡◌, Ok, IfOk, IfErr};
ghost use Rattle.poa_policy.specs.Kept.{KeepsRules};
ghost use Rattle.conf_toml.specs.declared.ConfFault.TheVariants as fault;
ghost use Rattle.poad_files.specs.Printing.{ConfPrints, text_of};

use crate::counting::counts;
use crate::objects::references;
use conf_toml::{ConfFault, read_config};
use poa_base::{Bytes, Config, WantMemory};
use std::alloc::Global;

/// What is asked of a configuration.
#[derive(Clone, Copy, Drop)]
pub enum Asked {
    /// How many there are of each kind.
    Counts,
    /// The references of its objects.
    References,
}

/// What is printed of the configuration that the bytes are, or why they are none.
pub fn print_config(alloc: Global, asked: Asked, bytes: &[u8]) -> Result<Bytes, ConfFault>
    ensures { ConfPrints asked bytes.now result }
{
    let config = read_config(alloc, bytes)?;
    print(alloc, asked, &config)
}

fn print(alloc: Global, asked: Asked, config: &Config) -> Result<Bytes, ConfFault>
    requires { KeepsRules config.now }
    ensures text { IfOk result (λ text. text ≡ text_of asked config.now) }
    ensures memory { IfErr result (λ e. e ≡ fault.WantMemory) }
{
    let text = match asked {
        Asked::Counts => counts(alloc, config),
        Asked::References => references(alloc, config),
    };
    match text {
        Ok(text) => Ok(text),
        Err(WantMemory) => Err(ConfFault::WantMemory),
    }
}
