//! The program: it makes the real parts, does what its words say, writes the line of any status but `ok`
//! to standard error, and ends with the status' number.
#![tactic(auto)]

mod kept_files;
mod lanes;
mod ports;
mod serving;
mod visit;
mod watched_door;

use crate::kept_files::KeptFiles;
use crate::serving::serve;
use outside::{StandardInput, StandardOutput, SystemFiles};
use outside_sockets::MioConnector;
use poad_call::run_call;
use poad_cmd::run_words;
use poad_files::{Host, Status};
use std::env;
use std::io::ErrorKind;
use std::process::ExitCode;
use std::rt::{Stdin, Stdout};
use std::sync::Wait;
use std::thread::Threads;

fn main(rt: HostRuntime) -> ExitCode {
    let status = match words(&rt) {
        Ok(words) => run(&rt, &rt, words.as_slice()),
        Err(status) => status,
    };
    if status != Status::Ok {
        let _ = eprintln!(rt; "poad: {status}");
    }
    ExitCode::from(status.number())
}

// The words behind the program's name. Words that aren't text are no command.
fn words(rt: &HostRuntime) -> Result<Vec<String>, Status> {
    let mut all = match env::args(rt) {
        Ok(all) => all,
        Err(error) if error.kind() == ErrorKind::OutOfMemory => return Err(Status::WantMemory),
        Err(_) => return Err(Status::BadWords),
    };
    let _ = all.next();
    all.collect(rt.alloc()).map_err(|_| Status::WantMemory)
}

// Does what the words say over standard input and output, the files of the system, and its sockets. `serve` takes its
// configuration twice.
fn run<R: Threads + Wait + Copy + Send + Drop + 'static>(
    rt: &HostRuntime,
    threads: &R,
    words: &[String],
) -> Status {
    let alloc = rt.alloc();
    let files = SystemFiles::new(alloc, *rt);
    match words {
        [first, ..] if first.as_str() == "serve" => {
            let mut host = host_of(rt, KeptFiles::new(alloc, files));
            serve(rt, threads, words, &mut host)
        }
        [first, ..] if first.as_str() == "call" => {
            let mut connector = MioConnector::new(alloc, *rt);
            run_call(alloc, words, &mut host_of(rt, files), &mut connector)
        }
        _ => run_words(alloc, words, &mut host_of(rt, files)),
    }
}

// Standard input and output, and these files.
fn host_of<F>(rt: &HostRuntime, files: F) -> Host<StandardInput<Stdin>, StandardOutput<Stdout>, F> {
    Host {
        source: StandardInput::new(rt.stdin()),
        sink: StandardOutput::new(rt.stdout()),
        files,
    }
}
