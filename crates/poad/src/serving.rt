//! `serve` over sockets and threads.
use crate::ports::Ports;
use command_words::{Plan, plan_of};
use outside::{Files, ThreadCrew};
use outside_sockets::WaitingGate;
use poa_base::Config;
use poad_cmd::{Means, run_serve};
use poad_files::{Host, Status, take_config};
use std::env;
use std::net::Ipv4Addr;
use std::sync::{Arc, Wait};
use std::thread::Threads;

/// Serves clients and administrators at the ports of the configuration that the words name, until an administrator
/// says `shutdown`. Where there are no ports, since the words or the configuration are refused, no door has one.
pub(crate) fn serve<R, S, K, F>(
    rt: &HostRuntime,
    threads: &R,
    words: &[String],
    host: &mut Host<S, K, F>,
) -> Status
where
    R: Threads + Wait + Copy + Send + Drop + 'static,
    F: Files,
{
    let alloc = rt.alloc();
    let Ok(plan) = plan_of(alloc, words) else {
        return Status::WantMemory;
    };
    let (ports, gate_ms) = match planned_ports(rt, plan, &mut host.files) {
        Ok(planned) => planned,
        Err(status) => return status,
    };
    let lanes = match plan {
        Some(plan) => plan.lanes,
        None => 0,
    };
    let doors = match ports.doors(rt, lanes, is_logged(rt)) {
        Ok(doors) => doors,
        Err(status) => return status,
    };
    let Ok(gate) = Arc::new(alloc, WaitingGate::new(*rt, gate_ms)) else {
        return Status::WantMemory;
    };
    let mut crew = ThreadCrew::new(alloc, *threads, Vec::new(alloc));
    let means = Means {
        rt: threads,
        alloc,
        gate: &gate,
    };
    run_serve(&means, words, host, doors, &mut crew).status
}

// Whether a line is to be written for each connection: the variable POAD_LOG says `connections`.
fn is_logged(rt: &HostRuntime) -> bool {
    matches!(env::var(rt, "POAD_LOG"), Ok(value) if value.as_str() == "connections")
}

// The ports of the plan, opened, and how long its gate takes, in milliseconds.
fn planned_ports<F: Files>(
    rt: &HostRuntime,
    plan: Option<Plan<'_>>,
    files: &mut F,
) -> Result<(Ports, u32), Status> {
    let config = planned_config(rt, plan, files)?;
    let ports = open(rt, plan, &config);
    let gate_ms = config.as_ref().map_or(0, |config| config.gate_ms);
    Ok((ports, gate_ms))
}

// The configuration of the plan. None where there is no plan, or its file holds no configuration: `run_serve` tells
// that.
fn planned_config<F: Files>(
    rt: &HostRuntime,
    plan: Option<Plan<'_>>,
    files: &mut F,
) -> Result<Option<Config>, Status> {
    let Some(plan) = plan else {
        return Ok(None);
    };
    match take_config(rt.alloc(), plan.file, files) {
        Ok(config) => Ok(Some(config)),
        Err(status) => none_with_memory(status),
    }
}

// No configuration, unless memory was wanting.
fn none_with_memory(status: Status) -> Result<Option<Config>, Status> {
    match status {
        Status::WantMemory => Err(status),
        _ => Ok(None),
    }
}

// Opens the ports, and says on standard error which they are. None where one can't be had: `run_serve` tells that.
fn open(rt: &HostRuntime, plan: Option<Plan<'_>>, config: &Option<Config>) -> Ports {
    let (Some(plan), Some(config)) = (plan, config) else {
        return Ports::none();
    };
    let Ok(ports) = Ports::open(rt, config) else {
        return Ports::none();
    };
    let host = std::str::from_utf8(config.host.as_slice()).unwrap_or("");
    let _ = eprintln!(rt;
        "poad: serving {host} {}, administrators {}, {} lanes, {} workers",
        config.port, config.admin_port, plan.lanes, plan.workers
    );
    warn_of_any(rt, host);
    ports
}

// Says where the host that references carry is none that a client could connect to.
fn warn_of_any(rt: &HostRuntime, host: &str) {
    if matches!(host.parse::<Ipv4Addr>(), Ok(address) if address.is_unspecified()) {
        let _ = eprintln!(rt;
            "poad: references carry the host {host}, by which clients elsewhere don't reach this machine"
        );
    }
}
