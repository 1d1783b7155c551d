//! The configuration of a TOML text, or the fault with the path of the wrong key: table by table, entry by entry, with
//! the numbers of their names. docs/FORMATS.md has the keys, with their defaults and ranges.
#![tactic(auto)]

mod adapter;
mod configuration;
mod forward;
mod manager;
mod object;
mod policies;
mod reading;
mod rule;
mod servant;
mod settings;
mod tag;

pub use adapter::adapters;
pub use conf_fields::ConfFault;
pub use configuration::read_config;
pub use manager::managers;
pub use servant::servants;
