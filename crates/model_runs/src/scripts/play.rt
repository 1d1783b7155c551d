//! A script that is played.
use crate::fault::Fault;
use crate::scripts::replies::{put_reply, request_id};
use conf_toml::read_config;
use core_standing::standing_of;
use history_standing::nodes::node_at;
use history_standing::templates::{has_template, policies_at};
use object_key::write_key;
use poa_base::{Body, Bytes, Call, Config, Entry, Head, Key, Path, Stamp, Store, WantMemory};
use poa_history::calls::call_of;
use poa_journal::print_entry;
use poa_model::{Run, first_illegal, slow_next, slow_next_reply, slow_owed, slow_reply};
use std::alloc::Global;
use text_words::{any_identity, number32, path, put_number, signed, words};

/// The number of an adapter that never was.
const NEVER: u32 = 4294967295;

/// How many turns a worker takes at most until it is idle.
const TURNS: u32 = 64;

/// How many replies a connection is given at most at once.
const REPLIES: u32 = 64;

/// How many calls the run takes, and the size that each has.
const LIMIT: u64 = 64;

const SIZE: u64 = 64;

/// The connections of the requests and of the administrator's lines.
const CLIENT: u32 = 0;

const ADMINISTRATOR: u32 = 1;

/// The history so far. Requests come over connection 0, and an administrator's lines over 1.
pub struct Play {
    alloc: Global,
    config: Config,
    store: Store,
    history: Vec<Entry>,
    lines: u64,
}

impl Drop for Play {
    fn drop(self) {
        let Play {
            alloc: _,
            config: _,
            store: _,
            history: _,
            lines: _,
        } = self;
    }
}

impl Play {
    /// A script of this configuration before its first line. Both connections enter.
    pub fn new(alloc: Global, configuration: &[u8], out: &mut Vec<u8>) -> Result<Play, Fault> {
        let mut play = Play {
            alloc,
            config: read_config(alloc, configuration)?,
            store: Store::new(alloc),
            history: Vec::new(alloc),
            lines: 0,
        };
        play.add(Entry::Entered { conn: CLIENT }, out)?;
        play.add(
            Entry::Entered {
                conn: ADMINISTRATOR,
            },
            out,
        )?;
        Ok(play)
    }

    /// Does what a line says.
    pub fn line(&mut self, line: &[u8], out: &mut Vec<u8>) -> Result<(), Fault> {
        let words = words(self.alloc, line)?;
        let Some(verb) = words.first() else {
            return Ok(());
        };
        if *verb == b"ask".as_slice() {
            self.ask(&words, out)
        } else if *verb == b"admin".as_slice() {
            self.admin(line, out)
        } else if *verb == b"step".as_slice() {
            self.step(worker_of(&words)?, out)
        } else if *verb == b"run".as_slice() {
            self.run(worker_of(&words)?, out)
        } else {
            Err(Fault::Script)
        }
    }

    /// The run, as the slow programs are given it.
    fn given(&self) -> Run<'_> {
        Run {
            alloc: self.alloc,
            config: &self.config,
            number: self.config.run,
        }
    }

    /// All workers run until they are idle, the connections are given their replies, and the history is
    /// looked over.
    pub fn finish(&mut self, out: &mut Vec<u8>) -> Result<(), Fault> {
        for worker in 0..4 {
            self.run(worker, out)?;
        }
        for conn in [CLIENT, ADMINISTRATOR] {
            self.collect(conn, out)?;
            self.count_owed(conn, out)?;
        }
        self.judge(out)
    }

    /// Says whether the history is legal, or which entry isn't.
    fn judge(&self, out: &mut Vec<u8>) -> Result<(), Fault> {
        let first = first_illegal(&self.given(), LIMIT, &self.history)?;
        match first {
            Some(place) => {
                out.extend_from_slice(b"illegal")?;
                put_number(out, place as u64)?;
            }
            None => out.extend_from_slice(b"legal")?,
        }
        out.extend_from_slice(b"\n")?;
        Ok(())
    }

    /// Adds an entry, and prints it.
    fn add(&mut self, entry: Entry, out: &mut Vec<u8>) -> Result<(), Fault> {
        self.history.push(entry)?;
        self.print_last(out)
    }

    /// Prints the newest entry.
    fn print_last(&self, out: &mut Vec<u8>) -> Result<(), Fault> {
        let entry = self.history.last().ok_or(Fault::Script)?;
        out.extend_from_slice(print_entry(self.alloc, entry)?.as_slice())?;
        out.extend_from_slice(b"\n")?;
        Ok(())
    }

    /// A request arrives: `ask CONN ID PATH OID OP` and perhaps an argument.
    fn ask(&mut self, words: &[&[u8]], out: &mut Vec<u8>) -> Result<(), Fault> {
        let [_, _, id, path, oid, operation, argument @ ..] = words else {
            return Err(Fault::Script);
        };
        let head = Head {
            id: number32(id)?,
            minor: 2,
            little: true,
            flags: 3,
            locate: false,
        };
        let target = self.target(path, oid)?;
        let call = request(self.alloc, head, target, operation, argument)?;
        self.arrive(CLIENT, call, out)
    }

    /// The key of the object of a path and an id.
    fn target(&self, path_word: &[u8], oid: &[u8]) -> Result<Bytes, Fault> {
        let path = path(self.alloc, path_word)?;
        let key = Key {
            stamp: self.stamp(&path)?,
            path,
            oid: any_identity(self.alloc, oid)?,
            tag: 0,
        };
        Ok(write_key(self.alloc, &key)?)
    }

    /// What a key of the path says of its adapter.
    fn stamp(&self, path: &Path) -> Result<Option<Stamp>, WantMemory> {
        let names = path.as_slice();
        if !has_template(&self.config, names) || policies_at(&self.config, names).lasts() {
            return Ok(None);
        }
        let standing = standing_of(self.alloc, &self.config, self.config.run, &self.history)?;
        let number = match node_at(&standing.nodes, names) {
            Some(node) => node.number,
            None => NEVER,
        };
        Ok(Some(Stamp {
            run: self.config.run,
            number,
        }))
    }

    /// An administrator's line arrives: `admin CONN` and its words.
    fn admin(&mut self, line: &[u8], out: &mut Vec<u8>) -> Result<(), Fault> {
        let Some(text) = line.strip_prefix(b"admin m ".as_slice()) else {
            return Err(Fault::Script);
        };
        let number = self.lines.checked_add(1).ok_or(Fault::Script)?;
        self.lines = number;
        let command = admin_line::read_line(self.alloc, text)?;
        self.arrive(ADMINISTRATOR, Call::Line { number, command }, out)
    }

    fn arrive(&mut self, conn: u32, call: Call, out: &mut Vec<u8>) -> Result<(), Fault> {
        let size = SIZE;
        self.add(Entry::Arrive { conn, size, call }, out)
    }

    /// The connection is given the replies that are ready.
    fn collect(&mut self, conn: u32, out: &mut Vec<u8>) -> Result<(), Fault> {
        for _ in 0..REPLIES {
            let next = slow_next_reply(&self.given(), &self.history, conn)?;
            let Some(arrival) = next else {
                return Ok(());
            };
            self.add(Entry::Collect { conn, arrival }, out)?;
            self.tell(conn, arrival, out)?;
        }
        Ok(())
    }

    /// Prints how many replies the connection is still owed.
    fn count_owed(&self, conn: u32, out: &mut Vec<u8>) -> Result<(), Fault> {
        let owed = slow_owed(&self.given(), &self.history, conn)?;
        out.extend_from_slice(b"owed")?;
        put_number(out, u64::from(conn))?;
        put_number(out, owed)?;
        out.extend_from_slice(b"\n")?;
        Ok(())
    }

    /// Prints the reply to an arrival.
    fn tell(&self, conn: u32, arrival: u64, out: &mut Vec<u8>) -> Result<(), Fault> {
        let history = self.history.as_slice();
        let reply = slow_reply(&self.given(), &self.store, history, arrival)?;
        match reply {
            Some(reply) => put_reply(out, conn, request_id(call_of(history, arrival)), &reply),
            None => Err(Fault::Script),
        }
    }

    /// A worker's next entry is made. Whether there is one.
    fn turn(&mut self, worker: u32, out: &mut Vec<u8>) -> Result<bool, Fault> {
        let next = slow_next(&self.given(), &self.history, worker)?;
        let Some(entry) = next else {
            return Ok(false);
        };
        self.add(entry, out)?;
        Ok(true)
    }

    fn step(&mut self, worker: u32, out: &mut Vec<u8>) -> Result<(), Fault> {
        if !self.turn(worker, out)? {
            out.extend_from_slice(b"idle")?;
            put_number(out, worker as u64)?;
            out.extend_from_slice(b"\n")?;
        }
        Ok(())
    }

    fn run(&mut self, worker: u32, out: &mut Vec<u8>) -> Result<(), Fault> {
        for _ in 0..TURNS {
            if !self.turn(worker, out)? {
                return Ok(());
            }
        }
        Ok(())
    }
}

/// The worker that a line names.
fn worker_of(words: &[&[u8]]) -> Result<u32, Fault> {
    let [_, worker] = words else {
        return Err(Fault::Script);
    };
    Ok(number32(worker)?)
}

/// The request with this head, key, operation and perhaps an argument.
fn request(
    alloc: Global,
    head: Head,
    target: Bytes,
    operation: &[u8],
    argument: &[&[u8]],
) -> Result<Call, Fault> {
    let body = body(alloc, argument)?;
    Ok(Call::Request {
        head,
        target: Some(target),
        operation: Bytes::from_vec(Vec::from_slice(alloc, operation)?),
        body,
    })
}

/// The body with its argument, a long long or none.
fn body(alloc: Global, argument: &[&[u8]]) -> Result<Body, Fault> {
    let bytes = match argument.first() {
        Some(word) => {
            let digits = word.strip_prefix(b"i:".as_slice()).ok_or(Fault::Script)?;
            Vec::from_slice(alloc, &signed(digits)?.to_le_bytes())?
        }
        None => Vec::new(alloc),
    };
    Ok(Body {
        bytes: Bytes::from_vec(bytes),
        little: true,
        base: 0,
    })
}
