//! A naming context (CosNaming): names bound to references and to contexts. [`Contexts`] serves a call by what the calls
//! before it bound, and puts its reply behind others. What a call gives is in `specs/Serving.antt`, what stands after it in
//! `specs/Standing.antt`.
#![tactic(auto)]

mod acting;
mod answer;
mod argument;
mod asked;
mod component;
mod context_key;
mod contexts;
mod istring;
mod lead;
mod name_reading;
mod operation;
mod outcomes;
mod reached;
mod reason;
mod replying;
mod serving;
mod target;

pub use component::Component;
pub use contexts::Contexts;
pub use istring::Istring;
pub use target::Target;
