//! The ports of a server, and the doors to them.
ghost use Rattle.std.specs.Prelude.{◌≡◌, IfOk, vec_len};

use crate::lanes::Lanes;
use crate::watched_door::WatchedDoor;
use outside_sockets::{Ears, MioDoor, listen};
use poa_base::Config;
use poad_cmd::Doors;
use poad_files::Status;
use std::alloc::Global;
use std::io;
use std::io::ErrorKind;
use std::net::TcpListener;
use std::sync::Arc;
use std::time::Duration;

// Where administrators come in: they have no password, so nobody does from elsewhere.
const ADMINISTRATORS_HOST: &str = "127.0.0.1";

// For so many milliseconds a lane waits for somebody before it looks whether the run is over.
const LANE_PATIENCE: u64 = 1000;

// For so many milliseconds the administrators' door does before it looks who has said something.
const ADMINISTRATORS_PATIENCE: u64 = 100;

/// The ports at which a server listens, or none of them where one couldn't be had.
#[derive(Drop)]
pub(crate) struct Ports {
    clients: Option<Arc<TcpListener, Global>>,
    administrators: Option<Arc<TcpListener, Global>>,
}

impl Ports {
    /// No ports.
    pub(crate) fn none() -> Self {
        Ports {
            clients: None,
            administrators: None,
        }
    }

    /// The ports of a configuration.
    pub(crate) fn open(rt: &HostRuntime, config: &Config) -> io::Result<Self> {
        let alloc = rt.alloc();
        let Ok(host) = std::str::from_utf8(config.host.as_slice()) else {
            return Ok(Ports::none());
        };
        let patience = Duration::from_millis(LANE_PATIENCE);
        let clients = listen(rt, host, config.port, patience)?;
        let patience = Duration::from_millis(ADMINISTRATORS_PATIENCE);
        let administrators = listen(rt, ADMINISTRATORS_HOST, config.admin_port, patience)?;
        Ok(Ports {
            clients: Some(Arc::new(alloc, clients)?),
            administrators: Some(Arc::new(alloc, administrators)?),
        })
    }

    /// The doors to these ports, with so many lanes. Where that is asked for, they write a line for each connection.
    pub(crate) fn doors(
        &self,
        rt: &HostRuntime,
        count: u32,
        is_logged: bool,
    ) -> Result<Doors<WatchedDoor<HostRuntime>>, Status>
        ensures { IfOk result (λ doors. vec_len doors.lanes ≡ count) }
    {
        let alloc = rt.alloc();
        let shared = Arc::new(alloc, Lanes::new(*rt, count)).map_err(|_| Status::WantMemory)?;
        let mut lanes = Vec::new(alloc);
        while lanes.len() < count as usize {
            let door = self.lane(rt).map_err(status_of)?;
            let shared = Arc::try_clone(&shared).map_err(|_| Status::WantMemory)?;
            let lane = WatchedDoor::new(*rt, door, Some(shared), is_logged);
            lanes.push(lane).map_err(|_| Status::WantMemory)?;
        }
        let door = self.administrators(rt).map_err(status_of)?;
        let admin = WatchedDoor::new(*rt, door, None, is_logged);
        Ok(Doors { admin, lanes })
    }

    // The door of a lane.
    fn lane(&self, rt: &HostRuntime) -> io::Result<MioDoor> {
        let ears = Ears::new(rt.alloc(), rt)?;
        let listener = match &self.clients {
            Some(listener) => Some(Arc::try_clone(listener)?),
            None => None,
        };
        Ok(MioDoor::new(listener, ears))
    }

    // The door of the administrators.
    fn administrators(&self, rt: &HostRuntime) -> io::Result<MioDoor> {
        let ears = Ears::new(rt.alloc(), rt)?;
        let Some(listener) = &self.administrators else {
            return Ok(MioDoor::new(None, ears));
        };
        let listener = Arc::try_clone(listener)?;
        Ok(MioDoor::of_speakers(rt.alloc(), listener, ears)?)
    }
}

// The status where no door could be made.
fn status_of(error: io::Error) -> Status {
    match error.kind() {
        ErrorKind::OutOfMemory => Status::WantMemory,
        _ => Status::ListenFault,
    }
}
