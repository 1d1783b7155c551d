//! `load N START`: calls and turns drawn from a generator of numbers, played on one configuration, and what is counted of
//! the run that they make.
//!
//! `specs/Schedule.antt` says which calls and turns these are, and `specs/Loading.antt` what is played and printed.
#![tactic(auto)]

mod draw;
mod generator;
mod loading;
mod playing;
mod printing;
mod steps;
mod sum;
mod tally;

pub use loading::{CONFIGURATION, load, the_configuration_is_accepted};
