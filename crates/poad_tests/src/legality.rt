//! What no clause says: that each call succeeds with ample memory, on a run with one `shutdown`.
use poa_base::{
    Answer, Bytes, Call, Command, Config, Entry, Items, ManagerState, Templates, Verdict,
    WantMemory,
};
use poa_model::{Run, first_illegal, may_follow};
use std::alloc::Global;
use std::test::Fail;

/// No adapter but the root.
fn config(alloc: Global) -> Result<Config, WantMemory> {
    Ok(Config {
        run: 1,
        host: Bytes::new(alloc),
        port: 1,
        admin_port: 2,
        gate_ms: 0,
        root: ManagerState::Active,
        managers: Items::new(alloc),
        servants: Items::new(alloc),
        adapters: Templates::from_vec(Vec::new(alloc))?,
        objects: Items::new(alloc),
        forwards: Items::new(alloc),
    })
}

fn shutdown(number: u64) -> Entry {
    Entry::Arrive {
        conn: 0,
        size: 8,
        call: Call::Line {
            number,
            command: Command::Shutdown,
        },
    }
}

/// A connection enters, sends `shutdown`, is answered and leaves.
fn whole(alloc: Global) -> Result<Vec<Entry>, Fail> {
    let mut history = Vec::new(alloc);
    history.push(Entry::Entered { conn: 0 })?;
    history.push(shutdown(1))?;
    history.push(Entry::Admit {
        worker: 3,
        arrival: 0,
        verdict: Verdict::Answer(Answer::Good),
    })?;
    history.push(Entry::Collect {
        conn: 0,
        arrival: 0,
    })?;
    history.push(Entry::Left { conn: 0 })?;
    Ok(history)
}

/// The first run of a configuration.
fn run_of(alloc: Global, config: &Config) -> Run<'_> {
    Run {
        alloc,
        config,
        number: 1,
    }
}

/// The place of the first illegal entry of a history.
fn illegal_place(alloc: Global, history: &[Entry]) -> Result<Option<usize>, WantMemory> {
    let config = config(alloc)?;
    first_illegal(&run_of(alloc, &config), 0, history)
}

/// Whether an entry may come behind these.
fn may_come(alloc: Global, past: &[Entry], entry: &Entry) -> Result<bool, WantMemory> {
    let config = config(alloc)?;
    may_follow(&run_of(alloc, &config), 0, past, entry)
}

#[test]
fn finds_a_whole_run_legal(rt: HostRuntime) -> Result<(), Fail> {
    let history = whole(rt.alloc())?;
    let place = illegal_place(rt.alloc(), &history);
    drop(history);
    assert!(rt; place?.is_none());
    Ok(())
}

/// A whole run, behind which the connection leaves once more.
fn whole_and_more(alloc: Global) -> Result<Vec<Entry>, Fail> {
    let mut history = whole(alloc)?;
    history.push(Entry::Left { conn: 0 })?;
    Ok(history)
}

/// Whether the last entry of a history may not come, and is the first illegal one, at this place.
fn ends_too_late(alloc: Global, history: &[Entry], at: usize) -> Result<bool, WantMemory> {
    let Some((last, past)) = history.split_last() else {
        return Ok(false);
    };
    Ok(!may_come(alloc, past, last)? && illegal_place(alloc, history)? == Some(at))
}

#[test]
fn finds_the_entry_that_comes_too_late(rt: HostRuntime) -> Result<(), Fail> {
    let history = whole_and_more(rt.alloc())?;
    let late = ends_too_late(rt.alloc(), &history, 5);
    drop(history);
    assert!(rt; late?);
    Ok(())
}
