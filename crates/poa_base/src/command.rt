//! The administrator's commands.
use crate::copy::TryClone;
use crate::endpoint::Endpoint;
use crate::name::Name;
use crate::oid::Oid;
use crate::path::Path;
use std::alloc::AllocError;

/// What a manager is told to do.
#[derive(Clone, Copy, PartialEq, Eq, Drop)]
pub enum Order {
    Activate,
    Hold { wait: bool },
    Discard { wait: bool },
    Deactivate { etherealize: bool, wait: bool },
}

/// An administrator's command.
#[derive(Clone, PartialEq, Eq, Drop)]
pub enum Command {
    Manager {
        manager: Name,
        order: Order,
    },
    Create {
        path: Path,
    },
    Destroy {
        path: Path,
        etherealize: bool,
        wait: bool,
    },
    Activate {
        path: Path,
        servant: Name,
    },
    ActivateId {
        path: Path,
        oid: Oid,
        servant: Name,
    },
    Deactivate {
        path: Path,
        oid: Oid,
    },
    Reference {
        path: Path,
        servant: Name,
    },
    /// The line `default`.
    Preset {
        path: Path,
        servant: Name,
    },
    Forward {
        path: Path,
        endpoint: Endpoint,
    },
    Unforward {
        path: Path,
    },
    Shutdown,
    /// A line that is no command: its first wrong word, counted from 1.
    Bad {
        word: u32,
    },
}

impl TryClone for Command {
    fn try_clone(&self) -> Result<Self, AllocError> {
        self.clone()
    }
}
