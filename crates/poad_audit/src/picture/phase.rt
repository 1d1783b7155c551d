//! The phases of a call that a picture shows.
ghost use Rattle.std.specs.Prelude.{◌≡◌};
ghost use Rattle.poad_audit.specs.PicturePhases as drawn;

use held_queue::Hold;
use journal_explain::{Event, Wait};
use poa_base::{Attempt, Verdict};

/// A phase of a call.
#[derive(Clone, Copy, Drop)]
pub(crate) enum Phase {
    /// It waits for a worker.
    Waiting,
    /// This holds it.
    Held(Hold),
    /// The adapter activator is asked.
    Trying,
    /// The servant activator is asked.
    Bringing,
    /// A worker has it, and its servant is to run.
    Serving,
    /// Its servant ran.
    Running,
    /// Its servant ran, and its reply was taken, but the request is in flight.
    Closing,
    /// It is a command that is done, and its answer waits.
    Pending,
    /// Its reply is fixed, and waits to be taken.
    Replying,
    /// Nothing has been seen of it, or nothing more is to come.
    Over,
}

impl Phase {
    /// The phase that an event begins behind this one. `asked`: a reply is asked.
    pub(crate) fn then(self, asked: bool, event: &Event) -> Phase
        ensures { result ≡ drawn.phase_by asked self event.now }
    {
        match event {
            Event::Arrived => Phase::Waiting,
            Event::Waits(wait) => waiting(*wait),
            Event::Admitted { verdict, .. } => decided(asked, verdict),
            Event::Tried(answer) => tried(asked, *answer),
            Event::Incarnated { servant } => brought_by(asked, servant.is_some()),
            Event::Ran => Phase::Running,
            Event::Ended => self.done(asked),
            Event::Collected(_) => self.taken(),
            Event::Ends(_) => self,
        }
    }

    /// Its reply is taken.
    fn taken(self) -> Phase
        ensures { result ≡ drawn.taken self }
    {
        match self {
            Phase::Running => Phase::Closing,
            _ => Phase::Over,
        }
    }

    /// The request ends.
    fn done(self, asked: bool) -> Phase
        ensures { result ≡ drawn.done asked self }
    {
        match self {
            Phase::Closing => Phase::Over,
            _ => replied(asked),
        }
    }

    /// A worker is at it.
    pub(crate) fn is_work(self) -> bool
        ensures { result ≡ drawn.is_work self }
    {
        match self {
            Phase::Trying | Phase::Bringing | Phase::Serving | Phase::Running | Phase::Closing =>
                true,
            Phase::Waiting | Phase::Held(_) | Phase::Pending | Phase::Replying | Phase::Over =>
                false,
        }
    }

    /// It isn't drawn.
    pub(crate) fn is_over(self) -> bool
        ensures { result ≡ drawn.is_over self }
    {
        matches!(self, Phase::Over)
    }
}

/// Whether an event begins a phase of its call: that the activation ends which serves it, or did, begins none.
pub(crate) fn is_phase(event: &Event) -> bool
    ensures { result ≡ drawn.is_phase event.now }
{
    match event {
        Event::Ends(_) => false,
        _ => true,
    }
}

fn waiting(wait: Wait) -> Phase
    ensures { result ≡ drawn.waiting wait }
{
    match wait {
        Wait::Worker => Phase::Waiting,
        Wait::Held(hold) => Phase::Held(hold),
    }
}

/// The phase that a verdict begins.
fn decided(asked: bool, verdict: &Verdict) -> Phase
    ensures { result ≡ drawn.decided asked verdict.now }
{
    match verdict {
        Verdict::Serve(_) | Verdict::Preset(_) | Verdict::Locator(_) => Phase::Serving,
        Verdict::Incarnate(_) => Phase::Bringing,
        Verdict::Try => Phase::Trying,
        Verdict::Wait => Phase::Pending,
        Verdict::Refuse(_)
        | Verdict::Forward(_)
        | Verdict::Addressing
        | Verdict::Here
        | Verdict::Unknown
        | Verdict::Answer(_) => replied(asked),
    }
}

fn tried(asked: bool, answer: Attempt) -> Phase
    ensures { result ≡ drawn.tried asked answer }
{
    match answer {
        Attempt::Yes { .. } => Phase::Waiting,
        Attempt::No | Attempt::Raised | Attempt::Dying => replied(asked),
    }
}

fn brought_by(asked: bool, brought: bool) -> Phase
    ensures { result ≡ drawn.brought asked brought }
{
    if brought {
        Phase::Serving
    } else {
        replied(asked)
    }
}

/// The phase of a call whose reply is fixed.
fn replied(asked: bool) -> Phase
    ensures { result ≡ drawn.replied asked }
{
    if asked { Phase::Replying } else { Phase::Over }
}

/// The activation that a verdict names.
pub(crate) fn activation_of(verdict: &Verdict) -> Option<u32>
    ensures { result ≡ drawn.activation_of verdict.now }
{
    match verdict {
        Verdict::Serve(activation) | Verdict::Incarnate(activation) => Some(*activation),
        Verdict::Preset(_)
        | Verdict::Locator(_)
        | Verdict::Try
        | Verdict::Refuse(_)
        | Verdict::Forward(_)
        | Verdict::Addressing
        | Verdict::Here
        | Verdict::Unknown
        | Verdict::Answer(_)
        | Verdict::Wait => None,
    }
}
