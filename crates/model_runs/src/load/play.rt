//! A load that is played.
use crate::fault::Fault;
use crate::load::calls::{deactivation, request, shutdown};
use crate::load::draw::Draw;
use crate::load::due::Due;
use conf_toml::read_config;
use poa_base::{Call, Config, Entry, Store};
use poa_history::calls::arrivals;
use poa_model::{Run, slow_next};
use poad_load::CONFIGURATION;
use std::alloc::Global;

/// How many connections there are: those of the clients, and the administrator's behind them.
pub const CONNECTIONS: u32 = 5;

/// The administrator's connection.
const ADMINISTRATOR: u32 = 4;

/// How many workers there are.
const WORKERS: u32 = 16;

/// More turns than a worker has to take until it is idle, and more than all of them.
const TURNS: u32 = 4096;

/// The size of each call. Nothing that is counted depends on it.
const SIZE: u64 = 64;

/// The history so far, and which replies it leaves to be collected.
#[derive(Drop)]
pub struct Play {
    pub alloc: Global,
    pub config: Config,
    /// What was stored before the run: nothing.
    pub store: Store,
    pub history: Vec<Entry>,
    /// The arrivals that aren't decided.
    pub undecided: Vec<u64>,
    /// The replies that are decided and weren't collected, in the order in which they were decided.
    pub due: Vec<Due>,
    /// How many requests and lines have arrived.
    requests: u32,
    lines: u64,
}

impl Play {
    /// A run before the first draw. All connections enter.
    pub fn new(alloc: Global) -> Result<Play, Fault> {
        let mut play = Play {
            alloc,
            config: read_config(alloc, CONFIGURATION)?,
            store: Store::new(alloc),
            history: Vec::new(alloc),
            undecided: Vec::new(alloc),
            due: Vec::new(alloc),
            requests: 0,
            lines: 0,
        };
        play.enter_all()?;
        Ok(play)
    }

    /// All connections enter.
    fn enter_all(&mut self) -> Result<(), Fault> {
        for conn in 0..CONNECTIONS {
            self.history.push(Entry::Entered { conn })?;
        }
        Ok(())
    }

    /// A call arrives, and a worker takes turns.
    pub fn draw(&mut self, draw: Draw) -> Result<(), Fault> {
        if draw.deactivates() {
            self.deactivate(draw.object())?;
        } else {
            self.ask(draw.client(), draw.object())?;
        }
        for _ in 0..draw.turns() {
            self.turn(draw.worker())?;
        }
        Ok(())
    }

    /// All workers run and all replies are collected, a `shutdown` arrives, and the same again.
    pub fn end(&mut self) -> Result<(), Fault> {
        self.finish()?;
        let number = self.next_line()?;
        self.arrive(ADMINISTRATOR, shutdown(self.alloc, number)?)?;
        self.finish()
    }

    /// A client asks an object.
    fn ask(&mut self, conn: u32, object: u64) -> Result<(), Fault> {
        let id = self.requests.checked_add(1).ok_or(Fault::Load)?;
        self.requests = id;
        self.arrive(conn, request(self.alloc, id, object)?)
    }

    /// The administrator deactivates an object.
    fn deactivate(&mut self, object: u64) -> Result<(), Fault> {
        let number = self.next_line()?;
        self.arrive(ADMINISTRATOR, deactivation(self.alloc, number, object)?)
    }

    /// The number of the administrator's next line.
    fn next_line(&mut self) -> Result<u64, Fault> {
        let number = self.lines.checked_add(1).ok_or(Fault::Load)?;
        self.lines = number;
        Ok(number)
    }

    fn arrive(&mut self, conn: u32, call: Call) -> Result<(), Fault> {
        let size = SIZE;
        let arrival = arrivals(&self.history);
        self.history.push(Entry::Arrive { conn, size, call })?;
        self.undecided.push(arrival)?;
        Ok(())
    }

    /// All workers run until none has anything to do, and all replies are collected.
    fn finish(&mut self) -> Result<(), Fault> {
        self.settle()?;
        self.collect_all()
    }

    /// The workers run in their order, again and again.
    fn settle(&mut self) -> Result<(), Fault> {
        for _ in 0..TURNS {
            if !self.run_all()? {
                return Ok(());
            }
        }
        Err(Fault::Load)
    }

    /// The workers run in their order. Whether any made an entry.
    fn run_all(&mut self) -> Result<bool, Fault> {
        let before = self.history.len();
        for worker in 0..WORKERS {
            self.run(worker)?;
        }
        Ok(self.history.len() != before)
    }

    /// A worker takes turns until it is idle.
    fn run(&mut self, worker: u32) -> Result<(), Fault> {
        for _ in 0..TURNS {
            if !self.turn(worker)? {
                return Ok(());
            }
        }
        Err(Fault::Load)
    }

    /// The run, as the slow programs are given it.
    pub fn given(&self) -> Run<'_> {
        Run {
            alloc: self.alloc,
            config: &self.config,
            number: self.config.run,
        }
    }

    /// A worker's next entry is made. Whether there is one.
    fn turn(&mut self, worker: u32) -> Result<bool, Fault> {
        let next = slow_next(&self.given(), &self.history, worker)?;
        let Some(entry) = next else {
            return Ok(false);
        };
        self.history.push(entry)?;
        self.note_decided()?;
        Ok(true)
    }
}
