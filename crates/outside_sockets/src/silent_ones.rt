//! Those who came in at a port and have said nothing yet.
use crate::newcomer::Newcomer;
use poa_base::WantMemory;
use std::alloc::Global;
use std::io;
use std::io::ErrorKind;
use std::net::TcpListener;
use std::sync::Arc;

// So many are kept. Of more the one that has been silent for longest is sent away.
const MOST: usize = 16;

/// Those who came in at a port and have said nothing yet, the longest silent first. A door hands them to its link, which
/// asks whether another waits, and has them back with it.
#[derive(Drop)]
pub(crate) struct SilentOnes {
    listener: Arc<TcpListener, Global>,
    kept: Vec<Newcomer>,
}

impl SilentOnes {
    /// Nobody yet, at this port.
    pub(crate) fn new(
        alloc: Global,
        listener: Arc<TcpListener, Global>,
    ) -> Result<Self, WantMemory> {
        Ok(SilentOnes {
            listener,
            kept: Vec::with_capacity(alloc, MOST)?,
        })
    }

    /// The first who has said something. Where nobody has, one more is let in, and asked too; that nobody came, or
    /// nobody has said anything, is told as `WouldBlock`.
    pub(crate) fn speaker(&mut self) -> io::Result<Newcomer> {
        if let Some(speaker) = self.take_speaker() {
            return Ok(speaker);
        }
        self.let_in()?;
        match self.take_speaker() {
            Some(speaker) => Ok(speaker),
            None => Err(io::Error::from(ErrorKind::WouldBlock)),
        }
    }

    /// Whether somebody has said something, and waits.
    pub(crate) fn has_speaker(&mut self) -> bool {
        if self.is_spoken() {
            return true;
        }
        let _ = self.let_in();
        self.is_spoken()
    }

    fn is_spoken(&self) -> bool {
        self.kept.iter().any(|one| one.has_spoken())
    }

    // The first of those here who has said something. Those who went are forgotten.
    fn take_speaker(&mut self) -> Option<Newcomer> {
        self.kept.retain(|one| !one.is_gone());
        let at = self.kept.iter().position(|one| one.has_spoken())?;
        Some(self.kept.remove(at))
    }

    // Lets in one who waits at the port.
    fn let_in(&mut self) -> io::Result<()> {
        let newcomer = Newcomer::accept_speaking(&self.listener)?;
        if self.kept.len() >= MOST {
            let _ = self.kept.remove(0);
        }
        self.kept.push(newcomer)?;
        Ok(())
    }
}
