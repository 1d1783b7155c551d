//! A session from its beginning to its end.
ghost use Rattle.std.specs.Prelude.{◌<◌};
ghost use Rattle.poa_shared.specs.Helping.{IsReady};
ghost use Rattle.poa_shared.specs.Seats.{IsIdle};
ghost use Rattle.seat_lock.specs.Seats.{view};

use crate::memory_link::MemLink;
use crate::session_messages::CALLS;
use crate::worked_link::WorkedLink;
use conf_toml::read_config;
use journal_entries::Row;
use poa_base::{Entry, Session, Store, WantMemory};
use poa_core::Core;
use poa_session::serve_link;
use poa_shared::{Aid, Seat, Shared};
use std::alloc::Global;
use std::sync::{Arc, Wait};

/// An object with a number.
const OBJECT: &[u8] = b"root = \"active\"
[[servant]]
name = \"counter\"
kind = \"register\"
[[object]]
adapter = \"/\"
servant = \"counter\"
";

/// What the reads give at most, in turn: the first call, a part of the second, and what is left of them.
const PIECES: [usize; 3] = [72, 40, 96];

/// Who makes the worker's turns in a session on one thread.
#[derive(Clone, Copy, Drop)]
pub enum TurnsBy {
    /// The session itself, by its aid. Where the aid finds no memory it leaves the turn to the link.
    Aid,
    /// The link, before each read. Where it finds no memory it gives the run up.
    Link,
}

/// What a session left.
#[derive(Drop)]
pub struct Played {
    pub core: Core,
    pub session: Session,
    link: MemLink,
}

impl Played {
    /// How many calls arrived.
    pub fn arrived(&self) -> usize {
        let entries = self.core.entries();
        (0..entries.len())
            .filter(|place| matches!(entries.get(*place), Some(Row::Whole(Entry::Arrive { .. }))))
            .count()
    }

    /// How many replies were given.
    pub fn given(&self) -> usize {
        let entries = self.core.entries();
        (0..entries.len())
            .filter(|place| matches!(entries.get(*place), Some(Row::Collect { .. })))
            .count()
    }

    /// The bytes that were written to the client.
    pub fn written(&self) -> &[u8] {
        self.link.held()
    }
}

/// What the client sends.
fn input(alloc: Global) -> Result<Vec<u8>, WantMemory> {
    let mut input = Vec::new(alloc);
    for call in &CALLS {
        input.extend_from_slice(call)?;
    }
    Ok(input)
}

/// The client's link.
fn client_link(alloc: Global) -> Result<MemLink, WantMemory> {
    let pieces = Vec::from_slice(alloc, &PIECES)?;
    Ok(MemLink::new(alloc, input(alloc)?, pieces))
}

/// A core with the object.
fn core_of_object(alloc: Global) -> Result<Core, WantMemory> {
    let Ok(config) = read_config(alloc, OBJECT) else {
        return Err(WantMemory);
    };
    Core::new(alloc, config, 1, Store::new(alloc), 4_000_000)
}

/// The aid of a session in which the turns are made so.
fn aid_for(turns: TurnsBy, shared: &Shared, seat: &mut Seat) -> Aid
    requires seat { IsIdle shared.now seat.old }
    requires room { 0 < (view seat.old).room }
    ensures seat { IsIdle shared.now seat.new }
    ensures aid { IsReady shared.now result.seat }
{
    match turns {
        TurnsBy::Aid => Aid {
            seat: Some(shared.split(seat)),
        },
        TurnsBy::Link => Aid::none(),
    }
}

/// Plays the session.
pub fn play_session<R: Wait + Copy + Drop>(
    rt: &R,
    alloc: Global,
    turns: TurnsBy,
) -> Result<Played, WantMemory> {
    let client = client_link(alloc)?;
    let (shared, mut seat) = Shared::new(alloc, core_of_object(alloc)?)?;
    let shared = Arc::new(alloc, shared)?;
    let mut link = WorkedLink {
        rt: *rt,
        link: client,
        shared: Arc::try_clone(&shared)?,
        seat: shared.split(&mut seat),
    };
    let mut aid = aid_for(turns, &*shared, &mut seat);
    let session = serve_link(rt, alloc, &*shared, &mut seat, &mut aid, &mut link);
    let WorkedLink { link, .. } = link;
    Ok(Played {
        core: shared.finish(rt, seat),
        session,
        link,
    })
}
