//! The outside world, as the program sees it: a source of bytes, a sink for bytes, named files, links, where they come in and
//! where they are opened, each with counts of its faults; alarms, which end the wait of one who reads; jobs, the threads that do them
//! and the gate between their stages; of sources, sinks and files their forms in memory, for tests; standard input and
//! output; and the files of the operating system.
//!
//! Each object may tell what it has left or holds, as a meaning for contracts alone. The forms in
//! memory tell it, and those over the operating system tell nothing.
#![tactic(auto)]

mod accepting;
mod alarm;
mod connecting;
mod keeping;
mod linking;
mod memory_files;
mod memory_sink;
mod memory_source;
mod passing;
mod reading;
mod sending;
mod standard_input;
mod standard_output;
mod steady_source;
mod system_files;
mod thread_crew;
mod working;
mod writing;

pub use accepting::{Acceptor, Door};
pub use alarm::Alarm;
pub use connecting::{Connector, Opened};
pub use keeping::{Files, Put, Taken};
pub use linking::Link;
pub use memory_files::MemFiles;
pub use memory_sink::MemSink;
pub use memory_source::MemSource;
pub use passing::{Gate, OpenGate};
pub use reading::{Source, Took};
pub use sending::write_all;
pub use standard_input::StandardInput;
pub use standard_output::StandardOutput;
pub use steady_source::SteadySource;
pub use system_files::SystemFiles;
pub use thread_crew::{Given, ThreadCrew, Ticket};
pub use working::Job;
pub use writing::{Sink, Wrote};
