ghost use Rattle.std.specs.Prelude.{◌≡◌, ◌*◌, ⊤};

use outside::*;
use poa_base::{Bytes, Point};
use std::alloc::Global;
use std::io::{Read, Write};
use std::sync::Arc;
use std::sync::atomic::{AtomicU64, Ordering};
use std::test::Fail;
use std::{fs, io, thread};

// A reader that always fails.
#[derive(Drop)]
struct Broken;

impl Read for Broken {
    fn read(&mut self, _buf: &mut [u8]) -> io::Result<usize> {
        Err(io::Error::from(io::ErrorKind::Other))
    }
}

// A writer that takes nothing.
#[derive(Drop)]
struct Full;

impl Write for Full {
    fn write(&mut self, _buf: &[u8]) -> io::Result<usize> {
        Ok(0)
    }

    fn flush(&mut self) -> io::Result<()> {
        Ok(())
    }
}

#[test]
fn readers_and_writers_are_sources_and_sinks(rt: HostRuntime) -> Result<(), Fail> {
    let mut buf = [0; 4];
    let mut input = StandardInput::new(b"abcdef".as_slice());
    for took in [Took::Got(4), Took::Got(2), Took::End] {
        assert_eq!(rt; input.read(&mut buf), took);
    }
    let mut broken = StandardInput::new(Broken);
    assert_eq!(rt; broken.read(&mut buf), Took::Failed);
    let mut output = StandardOutput::new(Vec::new(rt.alloc()));
    assert_eq!(rt; output.write(b"ab"), Wrote::Wrote(2));
    let mut full = StandardOutput::new(Full);
    assert_eq!(rt; full.write(b"ab"), Wrote::Failed);
    Ok(())
}

// The folder in which the test of the system's files writes, beside where it runs.
const FOLDER: &str = "outside_test_of_system_files";

/// Whether a file that isn't there yet is put, put anew and taken within its limit.
fn keeps(files: &mut impl Files, name: &str) -> bool {
    matches!(files.take(name, 9), Taken::Absent)
        && files.put(name, b"a longer one") == Put::Done
        && files.put(name, b"abc") == Put::Done
        && matches!(files.take(name, 2), Taken::TooLong)
        && matches!(files.take(name, 3), Taken::Bytes(bytes) if bytes.as_slice() == b"abc".as_slice())
}

/// Whether there is no file of a folder that isn't there, and none of a folder's own name.
fn has_none(files: &mut impl Files, nowhere: &str, folder: &str) -> bool {
    files.put(nowhere, b"abc") == Put::Failed
        && matches!(files.take(nowhere, 9), Taken::Absent)
        && matches!(files.take(folder, 9), Taken::Failed)
}

#[test]
fn system_files_are_put_and_taken_within_their_limit(rt: HostRuntime) -> Result<(), Fail> {
    let _ = fs::remove_dir_all(&rt, FOLDER);
    fs::create_dir(&rt, FOLDER)?;
    let mut files = SystemFiles::new(rt.alloc(), &rt);
    assert!(rt; keeps(&mut files, "outside_test_of_system_files/state"));
    assert!(rt;
        has_none(
            &mut files,
            "outside_test_of_system_files/none/state",
            FOLDER
        )
    );
    fs::remove_dir_all(&rt, FOLDER)?;
    Ok(())
}

// Doubles a number, once both of two such jobs were begun.
#[derive(Drop)]
struct Meeting {
    begun: Arc<AtomicU64, Global>,
    number: u32,
}

impl Job for Meeting {
    type Out = u64;

    ghost condition = { λ _. ⊤ };

    ghost promise = { λ job out. out ≡ 2 * job.number };

    fn work(self) -> u64 {
        self.begun.fetch_add(1, Ordering::SeqCst);
        for _ in 0..u64::MAX {
            if self.begun.load(Ordering::SeqCst) >= 2 {
                break;
            }
            thread::yield_now();
        }
        2 * self.number as u64
    }
}

#[test]
fn a_crew_does_jobs_at_once_and_hands_back_what_it_refuses(rt: HostRuntime) -> Result<(), Fail> {
    let begun = Arc::new(rt.alloc(), AtomicU64::new(0))?;
    let mut crew = ThreadCrew::new(rt.alloc(), &rt, vec![in rt.alloc(); 1]?);
    let mut tickets = Vec::new(rt.alloc());
    for number in 0..3 {
        let begun = Arc::try_clone(&begun)?;
        match crew.start(Meeting { begun, number }) {
            Ok(ticket) => tickets.push(ticket)?,
            Err(back) => assert_eq!(rt; back.number, 1),
        }
    }
    assert_eq!(rt; tickets.len(), 2);
    let mut sum = 0u64;
    for ticket in tickets {
        sum = sum.saturating_add(crew.join(ticket));
    }
    assert_eq!(rt; sum, 4);
    Ok(())
}

#[test]
fn an_open_gate_keeps_nobody(rt: HostRuntime) -> Result<(), Fail> {
    OpenGate.pass(Point::Free);
    assert!(rt; OpenGate.is_open());
    Ok(())
}
