//! The data types of the adapter: names, object ids, paths and keys, endpoints and references, policies, and what stands in
//! a message, a command, a history and a configuration; the limits of a run, and the minor codes.
#![tactic(auto)]

mod answer;
mod bytes;
mod command;
mod config;
mod copy;
mod endpoint;
mod entry;
mod exception;
mod invocation;
mod items;
mod journal;
mod key;
pub mod limits;
mod manager;
mod message;
pub mod minors;
mod name;
mod oid;
mod path;
mod policy;
mod reference;
mod script;
mod servant;
mod session;
mod stage;
mod store;
mod templates;
mod verdict;

pub use answer::{Answer, Reason};
pub use bytes::Bytes;
pub use command::{Command, Order};
pub use config::{
    AdapterConf, Children, Config, ForwardConf, Gives, Kind, ManagerConf, ObjectConf, RuleConf,
    ServantConf,
};
pub use copy::TryClone;
pub use endpoint::Endpoint;
pub use entry::{Attempt, Entry, Incarnation};
pub use exception::{Completion, ExcName, SysExc};
pub use invocation::{Ask, Datum, Outcome, Reply};
pub use items::Items;
pub use journal::Journal;
pub use key::{Key, Lifespan, Stamp};
pub use manager::ManagerState;
pub use message::{Body, Call, Head};
pub use name::Name;
pub use oid::Oid;
pub use path::Path;
pub use policy::{Policy, PolicySet};
pub use reference::{Ior, Profile};
pub use script::ScriptLine;
pub use servant::{Sid, State};
pub use session::{Session, SessionEnd};
pub use stage::{Cause, Point};
pub use std::alloc::AllocError as WantMemory;
pub use store::{Row, Store, stores_change_one_place};
pub use templates::Templates;
pub use verdict::Verdict;
