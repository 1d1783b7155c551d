//! What every command of the program has: its source, sink and files (`Host`), how it ended (`Status`), the contents,
//! configurations, scripts and stores that it takes of files, and the bytes that it hands to a sink. And the commands that need
//! no adapter: `show` prints a reference, `loc` its corbaloc text, `check` and `iors` print what a configuration has, and `migrate` a reference with the tags of one.
#![tactic(auto)]

mod counting;
mod delivery;
mod fault_line;
mod filing;
mod host;
mod illegal_line;
mod key;
mod locating;
mod migrating;
mod migration;
mod numbering;
mod objects;
mod printed;
mod printing;
mod profile;
mod reference;
mod referring;
mod showing;
mod state_file;
mod status;
mod tags;
mod taking;

pub use delivery::deliver;
pub use filing::print_file;
pub use host::Host;
pub use key::put_key;
pub use locating::print_loc;
pub use migrating::migrate_file;
pub use printed::put_printed;
pub use printing::Asked;
pub use referring::read_reference;
pub use showing::show_text;
pub use state_file::take_state;
pub use status::Status;
pub use taking::{config_of, take, take_config, take_script};
