//! The server is run.
use crate::case::Case;
use crate::files::File;
use crate::hold_gate::HoldGate;
use crate::host::host_of;
use crate::memory_door::MemDoor;
use crate::signal::Signal;
use anyhow::{Result, bail};
use command_words::plan_of;
use outside::{Gate, MemFiles, OpenGate, ThreadCrew};
use poad_cmd::{Means, Served, run_serve};
use std::alloc::Global;
use std::sync::{Arc, Wait};
use std::thread::Threads;
use std::time::Clock;

/// What came of a run, and the files then.
pub type Ran = (Served<MemDoor>, MemFiles);

/// Runs the server by the words of a case, over its doors and these files.
pub fn serve<R>(rt: &R, alloc: Global, case: &Case, files: &[File]) -> Result<Ran>
where
    R: Threads + Wait + Clock + Copy + Send + Sync + Drop + 'static,
{
    if case.held_for.is_none() {
        let gate = Arc::new(alloc, OpenGate)?;
        return serve_past(rt, alloc, case, files, None, &gate);
    }
    let signal = Signal::new(alloc)?;
    let gate = Arc::new(alloc, HoldGate::new(*rt, signal.try_clone()?))?;
    let served = serve_past(rt, alloc, case, files, Some(&signal), &gate);
    if gate.has_timed_out() {
        drop(served);
        bail!("a worker was held in vain");
    }
    served
}

/// The same past this gate, which the signal opens.
fn serve_past<R, G>(
    rt: &R,
    alloc: Global,
    case: &Case,
    files: &[File],
    signal: Option<&Signal>,
    gate: &Arc<G, Global>,
) -> Result<Ran>
where
    R: Threads + Wait + Copy + Send + Drop + 'static,
    G: Gate + Send + Sync + Drop + 'static,
{
    let lanes = match plan_of(alloc, &case.words)? {
        Some(plan) => plan.lanes,
        None => 0,
    };
    let mut crew = ThreadCrew::new(alloc, *rt, case.failing_starts.clone()?);
    let mut host = host_of(alloc, case, files)?;
    let doors = case.doors(lanes, signal)?;
    let means = Means { rt, alloc, gate };
    let served = run_serve(&means, &case.words, &mut host, doors, &mut crew);
    Ok((served, host.files))
}
