//! The host of a case.
use crate::case::Case;
use crate::files::{File, in_memory};
use anyhow::Result;
use outside::{MemFiles, MemSink, MemSource};
use poad_files::Host;
use std::alloc::Global;

/// Standard input and output and files, in memory.
pub type MemHost = Host<MemSource, MemSink, MemFiles>;

/// The host of a case with these files.
pub fn host_of(alloc: Global, case: &Case, files: &[File]) -> Result<MemHost> {
    Ok(Host {
        source: case.streams.source()?,
        sink: case.streams.sink()?,
        files: in_memory(alloc, &case.failing_takes, &case.failing_puts, files)?,
    })
}
