//! The adapter in one thread: `Core` takes what connections and workers do, answers each of them, and hands its run the
//! entry that it makes. What each call answers, and the entry, is in `specs/Answers.antt`. CORBA 3.3 Part 1, chapter 15.
#![tactic(auto)]

mod abandoning;
mod adapter_core;
mod arrive_fault;
mod arriving;
mod collected;
mod collecting;
mod connecting;
mod enter_fault;
mod step_out;
mod stepping;

pub use adapter_core::Core;
pub use arrive_fault::ArriveFault;
pub use collected::Collected;
pub use enter_fault::EnterFault;
pub use poa_history::Phase;
pub use step_out::StepOut;
