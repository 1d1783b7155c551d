//! The long laws of histories, for every run of an accepted configuration: what stands at its start is sound; what was
//! begun is ended, but for what a manager holds back; the updates of an object that a servant activator incarnates are those
//! of one servant that is never taken down; and after a `shutdown`, or where a worker has nothing left to do, how a run ends;
//! and of two runs, of which the second opens with what the first stored, that the updates of an object go on.
#![tactic(auto)]

pub mod ending_laws;
pub mod laws;
pub mod opening_laws;
pub mod restart_laws;
