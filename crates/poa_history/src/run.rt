//! A run, as functions are given it.
use poa_base::Config;
use std::alloc::Global;

/// A run: where it takes its memory, what it is configured to be, and its number.
#[derive(Clone, Copy)]
pub struct Run<'a> {
    pub alloc: Global,
    pub config: &'a Config,
    pub number: u32,
}
