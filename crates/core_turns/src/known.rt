//! The next entry of a worker: what it has begun goes on, else a removal that is due, else the least arrival that
//! isn't held is admitted.
ghost use Rattle.std.specs.Prelude.{◌≡◌, ◌<◌, true, Some, None, if◌then◌else◌, IfOk, IsOk};
ghost use Rattle.history_standing.specs.declared.stage.Stage.TheVariants.{Free};
ghost use Rattle.history_standing.specs.Changes.{standing as stands_after};
ghost use Rattle.history_standing.specs.Stages as begun;
ghost use Rattle.poa_history.specs.Turns as turns;
ghost use Rattle.core_arrivals.specs.Begun.{WorkersAgree, only_ends};
ghost use Rattle.history_standing.specs.Arrivals.{arrivals};
ghost use Rattle.history_standing.specs.Situations.{facts_of};
ghost use Rattle.poa_history.specs.Verdicts.{verdict};
ghost use Rattle.core_turns.specs.Looks.{looked};
ghost use Rattle.held_queue.specs.Held.{HeldAgrees};
ghost use Rattle.poa_history.specs.Waiting.{is_waiting};
ghost use Rattle.core_turns.specs.Answered.{IsAnswer};
ghost use Rattle.core_arrivals.specs.Firsts.{IsFirst, earlier as the_earlier};
ghost use Rattle.core_arrivals.specs.Queued.{is_waiting_line};
ghost use Rattle.core_turns.specs.Told.{KnownAgrees, history};

use crate::looks::{Look, look_at};
use crate::turns::{going_on, removal};
use crate::verdicts::verdict_on;
use core_arrivals::calls::{Calls, call};
use core_arrivals::queue::{Queue, is_crowded, waits};
use core_arrivals::workers::{Workers, stage};
use core_settings::Settings;
use core_standing::Standing;
use held_queue::HeldQueue;
use history_standing::Stage;
use journal_entries::Entries;
use poa_base::{Config, Entry, Verdict, WantMemory};
use std::alloc::Global;

/// What is known of a run, from which a worker's next entry is told.
#[derive(Clone, Copy)]
pub struct Known<'a> {
    pub config: &'a Config,
    pub run: u32,
    /// The journal, the oldest entry first.
    pub entries: &'a Entries,
    pub calls: &'a Calls,
    pub queue: &'a Queue,
    pub standing: &'a Standing,
    pub settings: &'a Settings,
}

/// What comes of asking the least call that is ready.
#[derive(Drop)]
enum Asked {
    /// It waits no longer, or is held: another one is to be asked.
    Another,
    /// There is none.
    Nobody,
    /// It isn't held.
    Ready(u64, Verdict),
}

/// Of two that aren't held the one that arrived first.
fn earlier(one: Option<(u64, Verdict)>, other: Option<(u64, Verdict)>) -> Option<(u64, Verdict)>
    ensures { result ≡ the_earlier one other }
{
    match (one, other) {
        (Some(one), Some(other)) => {
            if one.0 < other.0 {
                Some(one)
            } else {
                Some(other)
            }
        }
        (None, other) => other,
        (one, None) => one,
    }
}

impl<'a> Known<'a> {
    /// The verdict on a line; none where it is held.
    fn verdict_of(
        &self,
        alloc: Global,
        worker: u32,
        arrival: u64,
    ) -> Result<Option<Verdict>, WantMemory>
        requires { KnownAgrees self.now }
        ensures { IfOk result
            (λ it. it ≡ verdict self.now.config.now self.now.run (history self.now) arrival
            worker) }
    {
        let Some(call) = call(self.entries, self.calls, arrival) else {
            return Ok(None);
        };
        verdict_on(
            alloc,
            self.config,
            self.run,
            self.standing,
            self.settings,
            is_crowded(self.queue, arrival),
            call,
            worker,
        )
    }

    /// The first line that waits and isn't held, with its verdict.
    fn first_line(&self, alloc: Global, worker: u32) -> Result<Option<(u64, Verdict)>, WantMemory>
        requires { KnownAgrees self.now }
        ensures { IfOk result
            (λ found. IsFirst (is_waiting_line (history self.now))
            (λ r. verdict self.now.config.now self.now.run (history self.now) r worker)
            (arrivals (history self.now)) found) }
    {
        for i in 0..self.queue.lines.len() {
            let arrival = self.queue.lines[i];
            if let Some(verdict) = self.verdict_of(alloc, worker, arrival)? {
                return Ok(Some((arrival, verdict)));
            }
        }
        Ok(None)
    }

    /// Looks at a request or a locate; none where it doesn't wait.
    fn look(&self, alloc: Global, worker: u32, arrival: u64) -> Result<Option<Look>, WantMemory>
        requires { KnownAgrees self.now }
        ensures { IfOk result
            (λ look. look ≡
            (if is_waiting (history self.now) arrival then Some
            (looked (facts_of self.now.config.now self.now.run (history self.now) arrival)
            worker) else None)) }
    {
        if !waits(self.queue, arrival) {
            return Ok(None);
        }
        let Some(call) = call(self.entries, self.calls, arrival) else {
            return Ok(None);
        };
        let look = look_at(
            alloc,
            self.config,
            self.run,
            self.standing,
            self.settings,
            is_crowded(self.queue, arrival),
            call,
            worker,
        )?;
        Ok(Some(look))
    }

    /// Asks the least of the requests and locates that are ready.
    fn ask(&self, alloc: Global, worker: u32, held: &mut HeldQueue) -> Result<Asked, WantMemory>
        requires told { KnownAgrees self.now }
        requires held { HeldAgrees self.now.config.now self.now.run (history self.now) held.old }
        ensures held { HeldAgrees self.now.config.now self.now.run (history self.now) held.new }
        ensures asked { IfOk result (λ asked. IsAnswer self.now worker asked) }
    {
        held.settle(&self.standing.flights, worker)?;
        let Some(arrival) = held.least() else {
            return Ok(Asked::Nobody);
        };
        match self.look(alloc, worker, arrival)? {
            None => held.drop_least(arrival),
            Some(Look::Held(hold)) => held.put(alloc, arrival, hold)?,
            Some(Look::Go(verdict)) => return Ok(Asked::Ready(arrival, verdict)),
        }
        Ok(Asked::Another)
    }

    /// The first request or locate that waits and isn't held, with its verdict.
    fn first_message(
        &self,
        alloc: Global,
        worker: u32,
        held: &mut HeldQueue,
    ) -> Result<Option<(u64, Verdict)>, WantMemory>
        requires told { KnownAgrees self.now }
        requires held { HeldAgrees self.now.config.now self.now.run (history self.now) held.old }
        ensures held { HeldAgrees self.now.config.now self.now.run (history self.now) held.new }
        ensures first { IfOk result
            (λ found. IsFirst (is_waiting (history self.now))
            (λ r. verdict self.now.config.now self.now.run (history self.now) r worker)
            (arrivals (history self.now)) found) }
    {
        for _ in 0..u64::MAX {
            match self.ask(alloc, worker, held)? {
                Asked::Another => {}
                Asked::Nobody => return Ok(None),
                Asked::Ready(arrival, verdict) => return Ok(Some((arrival, verdict))),
            }
        }
        Err(WantMemory)
    }

    /// The Admit of the least arrival that is unadmitted and isn't held for the worker.
    pub fn admission(
        &self,
        alloc: Global,
        worker: u32,
        held: &mut HeldQueue,
    ) -> Result<Option<Entry>, WantMemory>
        requires told { KnownAgrees self.now }
        requires held { HeldAgrees self.now.config.now self.now.run (history self.now) held.old }
        ensures held { HeldAgrees self.now.config.now self.now.run (history self.now) held.new }
        ensures admission { IfOk result
            (λ entry. entry ≡ turns.admission self.now.config.now self.now.run (history self.now)
            worker) }
    {
        let line = self.first_line(alloc, worker)?;
        let message = self.first_message(alloc, worker, held)?;
        match earlier(line, message) {
            Some((arrival, verdict)) => Ok(Some(Entry::Admit {
                worker,
                arrival,
                verdict,
            })),
            None => Ok(None),
        }
    }

    /// The removal that is due.
    fn removal(&self, worker: u32) -> Option<Entry>
        requires { KnownAgrees self.now }
        ensures { result ≡ turns.removal self.now.config.now
            (stands_after self.now.config.now self.now.run (history self.now)) worker }
    {
        removal(self.config, self.standing, worker)
    }

    /// The next entry of a worker that has begun nothing.
    fn next_free(
        &self,
        alloc: Global,
        worker: u32,
        held: &mut HeldQueue,
    ) -> Result<Option<Entry>, WantMemory>
        requires told { KnownAgrees self.now }
        requires held { HeldAgrees self.now.config.now self.now.run (history self.now) held.old }
        ensures held { HeldAgrees self.now.config.now self.now.run (history self.now) held.new }
        ensures next { IfOk result
            (λ entry. entry ≡ turns.next_of self.now.config.now self.now.run (history self.now)
            worker Free) }
    {
        match self.removal(worker) {
            Some(entry) => Ok(Some(entry)),
            None => self.admission(alloc, worker, held),
        }
    }

    /// What a worker has begun goes on.
    fn going_on(&self, worker: u32, stage: Stage) -> Result<Option<Entry>, WantMemory>
        requires told { KnownAgrees self.now }
        requires begun { stage ≡ begun.stage (history self.now) worker }
        ensures next { IfOk result
            (λ entry. entry ≡ turns.going_on self.now.config.now
            (stands_after self.now.config.now self.now.run (history self.now)) worker stage) }
        ensures ends { only_ends stage ≡ true → IsOk result }
    {
        going_on(self.config, self.standing, worker, stage)
    }

    /// The entry that a worker makes next, or none. Fails for want of memory, and never where what was begun is
    /// only to be ended.
    #[tactic(auto, unfolding(poa_history::specs::Turns::turn))]
    pub fn next(
        &self,
        alloc: Global,
        workers: &Workers,
        worker: u32,
        held: &mut HeldQueue,
    ) -> Result<Option<Entry>, WantMemory>
        requires worker { worker < 16 }
        requires begun { WorkersAgree (history self.now) workers.now }
        requires told { KnownAgrees self.now }
        requires held { HeldAgrees self.now.config.now self.now.run (history self.now) held.old }
        ensures held { HeldAgrees self.now.config.now self.now.run (history self.now) held.new }
        ensures next { IfOk result
            (λ entry. entry ≡ turns.turn self.now.config.now self.now.run (history self.now)
            worker) }
        ensures ends { only_ends (begun.stage (history self.now) worker) ≡ true → IsOk result }
    {
        match stage(workers, worker) {
            Stage::Free => self.next_free(alloc, worker, held),
            begun => self.going_on(worker, begun),
        }
    }
}
