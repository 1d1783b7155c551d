//! Threads that do jobs.
ghost use Rattle.std.specs.Prelude.{◌≡◌, IfOk, IfErr, OnOk, IsErr, MatchResult};
ghost use Rattle.outside.specs.Cause.{HasCause};

use crate::working::Job;
use std::alloc::Global;
use std::marker::Model;
use std::snapshot::Snapshot;
use std::sync::atomic::{AtomicBool, Ordering};
use std::sync::{Arc, Wait};
use std::thread;
use std::thread::{Promise, PromisedHandle, Threads};

/// The job that a thread was given. The thread's result keeps its promise, or is the job itself, undone.
#[derive(Drop)]
pub struct Given<J> {
    pub job: Snapshot<J>,
}

impl<J: Job> Promise<Result<J::Out, J>> for Given<J> {
    ghost kept_by = { λ given result. MatchResult result (J.promise given.job.value)
        (λ job. (job ≡ given.job.value) × J.condition job) };
}

/// A job that was begun in a thread, until it is joined: `promise.job` tells which.
pub type Ticket<J> = PromisedHandle<Result<<J as Job>::Out, J>, Given<J>>;

/// Does jobs in threads, one thread a job. A list names the starts that it refuses, for tests.
#[derive(Drop)]
pub struct ThreadCrew<T: Threads + Wait + Drop> {
    runtime: T,
    alloc: Global,
    refused: Vec<u64>,
    starts: u64,
    faults: u64,
}

impl<T: Threads + Wait + Drop> Model for ThreadCrew<T> {
    ghost use Rattle.outside.specs.Crew.{Crew};

    ghost Value = { Crew };

    ghost view = { λ crew. record { faults = crew.faults } };
}

impl<T: Threads + Wait + Drop> ThreadCrew<T> {
    /// A crew that has begun nothing. `refused` lists the starts that it refuses, counted from 0.
    pub fn new(alloc: Global, runtime: T, refused: Vec<u64>) -> Self
        ensures { result.faults ≡ 0 }
    {
        ThreadCrew {
            runtime,
            alloc,
            refused,
            starts: 0,
            faults: 0,
        }
    }

    /// Begins a job in a thread of its own. Where no thread or no memory is there for it, or the start is to be
    /// refused, the crew counts that and hands the job back undone.
    pub fn start<J: Job + Send + Drop + 'static>(&mut self, job: J) -> Result<Ticket<J>, J>
    where
        J::Out: Send + Drop + 'static,
        requires { J.condition job }
        ensures given { IfOk result (λ ticket. ticket.promise.job.value ≡ job) }
        ensures refused { IfErr result (λ back. back ≡ job) }
        ensures failed { HasCause self.old.faults self.new.faults (IsErr result) }
        ensures counted { OnOk result (self.new.faults ≡ self.old.faults) }
    {
        let call = self.starts;
        self.starts = call.saturating_add(1);
        let started = if self.refused.contains(&call) {
            Err(job)
        } else {
            start_thread(&self.runtime, self.alloc, job)
        };
        if started.is_err() {
            self.faults = self.faults.saturating_add(1);
        }
        started
    }

    /// Waits for a job that was begun, and gives its result.
    pub fn join<J: Job>(&self, ticket: Ticket<J>) -> J::Out
        ensures { J.promise ticket.promise.job.value result }
    {
        match ticket.join(&self.runtime) {
            Ok(out) => out,
            Err(job) => job.work(),
        }
    }
}

// Begins a job in a thread, or hands it back. A thread asks first whether it is to leave the job undone: so where
// none can be made, its closure gives the job back.
fn start_thread<R: Threads + Wait, J: Job + Send + Drop + 'static>(
    rt: &R,
    alloc: Global,
    job: J,
) -> Result<Ticket<J>, J>
where
    J::Out: Send + Drop + 'static,
    requires { J.condition job }
    ensures given { IfOk result (λ ticket. ticket.promise.job.value ≡ job) }
    ensures refused { IfErr result (λ back. back ≡ job) }
{
    let Ok(undone) = Arc::new(alloc, AtomicBool::new(false)) else {
        return Err(job);
    };
    let Ok(theirs) = Arc::try_clone(&undone) else {
        return Err(job);
    };
    let given = Given {
        job: Snapshot::of(&job),
    };
    let started = thread::spawn_with(
        rt,
        given,
        move ||
            requires { J.condition job }
        {
            if theirs.load(Ordering::SeqCst) {
                Err(job)
            } else {
                Ok(job.work())
            }
        },
    );
    match started {
        Ok(ticket) => Ok(ticket),
        Err(unstarted) => {
            undone.store(true, Ordering::SeqCst);
            match (unstarted.value)() {
                Err(job) => Err(job),
                Ok(_) => wait_for_ever(rt),
            }
        }
    }
}

// What can't be: a closure that was told to leave its job undone did it. Nothing comes back from here.
fn wait_for_ever<R: Wait, A>(rt: &R) -> A
    ensures { ⊥ }
{
    for _ in rt.forever() {}
    unreachable!()
}
