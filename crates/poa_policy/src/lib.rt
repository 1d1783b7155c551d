//! Settling the policies of an adapter: which policy of each kind a list of policies gives, or the
//! policy of the list that is wrong. CORBA 3.3 Part 1, chapter 15, "POA Policy Objects".
//!
//! `specs/Kept.antt` has the rules that every configuration keeps, as one definition: names that stand once, numbers that
//! name an entry, adapters that have a parent, and objects that have a home.
#![tactic(auto)]

mod kind;
mod laws;
mod rule;
mod settling;

pub use kind::{PolicyKind, kind_of};
pub use laws::{adapters_keep_their_rule, objects_keep_their_rule};
pub use rule::Rule;
pub use settling::{InvalidPolicy, defaults, settle};
