//! What threads make of one core.
use crate::playing::{Played, play};
use crate::task::Task;
use conf_toml::read_config;
use poa_base::{Datum, Entry, Outcome, Reply, Store, WantMemory};
use poa_core::{Core, Phase};
use poa_model::{Run, first_illegal};
use std::alloc::Global;
use std::sync::Wait;
use std::test::Fail;
use std::thread::Threads;

/// Objects with states of their own, which a servant activator brings.
const OBJECTS: &[u8] = b"root = \"active\"
[[manager]]
name = \"m\"
start = \"active\"
[[adapter]]
path = \"/s\"
manager = \"m\"
policies = [\"PERSISTENT\", \"USER_ID\", \"USE_SERVANT_MANAGER\"]
boot = true
[[adapter.rule]]
id = \"*\"
fresh = \"register\"
";

/// A core with these objects.
fn core_of_objects(alloc: Global) -> Result<Core, Fail> {
    let Ok(config) = read_config(alloc, OBJECTS) else {
        return Err(Fail::new("no configuration"));
    };
    Ok(Core::new(alloc, config, 1, Store::new(alloc), 4_000_000)?)
}

/// Does the tasks over a core with these objects.
fn played<R: Threads + Wait + Sync>(rt: &R, alloc: Global, tasks: &[Task]) -> Result<Played, Fail> {
    Ok(play(rt, alloc, core_of_objects(alloc)?, tasks)?)
}

/// How many entries are judged at most: the slow program asks the whole history at each entry, so the time grows with the
/// third power of their number.
const JUDGED: usize = 300;

/// Whether the journal is legal so far, as a slow program computes it from the definitions.
fn is_legal(alloc: Global, core: &Core, entries: &[Entry]) -> Result<bool, Fail> {
    let run = Run {
        alloc,
        config: core.config(),
        number: core.run(),
    };
    let place = first_illegal(&run, 4_000_000, &entries[..entries.len().min(JUDGED)])?;
    Ok(place.is_none())
}

/// How many arrivals were admitted behind a later one of their connection: they were held.
fn held(entries: &[Entry]) -> usize {
    let mut held: usize = 0;
    for (place, entry) in entries.iter().enumerate() {
        if let Entry::Admit { arrival, .. } = entry {
            let is_overtaken = entries[..place].iter().any(|earlier| {
                matches!(earlier, Entry::Admit { arrival: other, .. }
                    if other > arrival && conn_of(entries, *other) == conn_of(entries, *arrival))
            });
            if is_overtaken {
                held = held.saturating_add(1);
            }
        }
    }
    held
}

/// The connection of an arrival.
fn conn_of(entries: &[Entry], arrival: u64) -> Option<u32> {
    let mut calls = entries.iter().filter_map(|entry| match entry {
        Entry::Arrive { conn, .. } => Some(*conn),
        _ => None,
    });
    calls.nth(arrival as usize)
}

/// Whether an object was deactivated and taken out.
fn has_removal(entries: &[Entry]) -> bool {
    entries
        .iter()
        .any(|entry| matches!(entry, Entry::TakeOut { .. }))
}

/// How often a servant ran.
fn runs(entries: &[Entry]) -> usize {
    entries
        .iter()
        .filter(|entry| matches!(entry, Entry::Run { .. }))
        .count()
}

/// How many replies were collected.
fn collected(entries: &[Entry]) -> usize {
    entries
        .iter()
        .filter(|entry| matches!(entry, Entry::Collect { .. }))
        .count()
}

/// What the callers added up to, in the order of the threads.
fn sums(alloc: Global, all: &[Result<Vec<Reply>, WantMemory>]) -> Result<Vec<i64>, Fail> {
    let mut sums = Vec::new(alloc);
    for replies in all {
        let Ok(replies) = replies else {
            return Err(Fail::new("want of memory"));
        };
        for reply in replies {
            if let Reply::Outcome(Outcome::Value(Some(Datum::Long(sum)))) = reply {
                sums.push(*sum)?;
            }
        }
    }
    Ok(sums)
}

/// How many replies the callers were given.
fn given(all: &[Result<Vec<Reply>, WantMemory>]) -> usize {
    let mut given: usize = 0;
    for replies in all {
        if let Ok(replies) = replies {
            given = given.saturating_add(replies.len());
        }
    }
    given
}

/// Whether the callers added up to 1 and 2, in either order.
fn added_both(alloc: Global, all: &[Result<Vec<Reply>, WantMemory>]) -> Result<bool, Fail> {
    let sums = sums(alloc, all)?;
    Ok(sums.as_slice() == [1, 2].as_slice() || sums.as_slice() == [2, 1].as_slice())
}

/// Whether the callers added up to 1 and 2 by two runs, and the journal is legal.
fn added_by_two_runs(alloc: Global, played: &Played) -> Result<bool, Fail> {
    let entries = played.core.entries().to_vec(alloc)?;
    Ok(
        runs(&entries) == 2
            && added_both(alloc, &played.replies)?
            && is_legal(alloc, &played.core, &entries)?,
    )
}

#[test]
fn two_callers_add_to_one_object(rt: HostRuntime) -> Result<(), Fail> {
    let alloc = rt.alloc();
    let tasks = [
        Task::Caller {
            number: 0,
            calls: 1,
        },
        Task::Caller {
            number: 8,
            calls: 1,
        },
        Task::Worker { worker: 0 },
        Task::Worker { worker: 1 },
    ];
    let played = played(&rt, alloc, &tasks)?;
    assert!(rt; added_by_two_runs(alloc, &played)?);
    Ok(())
}

/// The tasks of 16 callers, which ask so many calls each, and of 4 workers.
fn sixteen_callers(alloc: Global, calls: u32) -> Result<Vec<Task>, Fail> {
    let mut tasks = Vec::new(alloc);
    for number in 0..16 {
        tasks.push(Task::Caller { number, calls })?;
    }
    for worker in 0..4 {
        tasks.push(Task::Worker { worker })?;
    }
    Ok(tasks)
}

/// Whether each of so many calls got its reply, and the journal is legal.
fn answered_once(alloc: Global, played: &Played, calls: usize) -> Result<bool, Fail> {
    let entries = played.core.entries().to_vec(alloc)?;
    Ok(
        collected(&entries) == calls
            && played.core.unadmitted() == 0
            && given(&played.replies) == calls
            && is_legal(alloc, &played.core, &entries)?,
    )
}

/// Lets 16 callers ask so many calls each, which 4 workers serve. Whether each call got its reply, and the journal is
/// legal.
fn sixteen<R: Threads + Wait + Sync>(rt: &R, alloc: Global, calls: u32) -> Result<bool, Fail> {
    let played = played(rt, alloc, &sixteen_callers(alloc, calls)?)?;
    answered_once(alloc, &played, 16 * calls as usize)
}

#[test]
fn what_many_threads_make_is_legal(rt: HostRuntime) -> Result<(), Fail> {
    assert!(rt; sixteen(&rt, rt.alloc(), 3)?);
    Ok(())
}

#[test]
fn two_thousand_calls_are_answered_once(rt: HostRuntime) -> Result<(), Fail> {
    assert!(rt; sixteen(&rt, rt.alloc(), 125)?);
    Ok(())
}

/// The tasks of a worker that gives up, of one that holds requests, of three workers, and of 4 callers.
fn with_a_quitter(alloc: Global) -> Result<Vec<Task>, Fail> {
    let mut tasks = Vec::from_slice(
        alloc,
        &[
            Task::Quitter {
                worker: 1,
                turns: 0,
            },
            Task::Holder { rounds: 3 },
            Task::Worker { worker: 0 },
            Task::Worker { worker: 2 },
            Task::Worker { worker: 3 },
        ],
    )?;
    for number in 0..4 {
        tasks.push(Task::Caller { number, calls: 10 })?;
    }
    Ok(tasks)
}

/// Whether all calls got their replies though worker 1 gave up, three were held, and an object was taken out.
fn outlived(played: &Played, entries: &[Entry]) -> bool {
    given(&played.replies) == 43
        && played.core.phase() == Phase::Abandoned { worker: 1 }
        && held(entries) == 3
        && has_removal(entries)
        && entries.len() <= JUDGED
}

/// Whether all calls got their replies though a worker gave up, as `outlived` says it, and the journal is legal.
fn outlived_legally(alloc: Global, played: &Played) -> Result<bool, Fail> {
    let entries = played.core.entries().to_vec(alloc)?;
    Ok(outlived(played, &entries) && is_legal(alloc, &played.core, &entries)?)
}

#[test]
fn a_worker_gives_up_while_calls_are_held_and_objects_deactivated(
    rt: HostRuntime,
) -> Result<(), Fail> {
    let alloc = rt.alloc();
    let played = played(&rt, alloc, &with_a_quitter(alloc)?)?;
    assert!(rt; outlived_legally(alloc, &played)?);
    Ok(())
}
