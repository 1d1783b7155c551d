//! The words of what stands that a reader would else have to believe, as the entries of a history say them: which
//! adapters were created, which servant an activation has, what a servant activator is told, and which ids the system makes.
#![tactic(auto)]

pub mod laws;
