//! What an entry frees of what holds calls.
ghost use Rattle.std.specs.Prelude.{◌≡◌, ℕ, List};
ghost use Rattle.poa_base.specs.declared.Config.{Config};
ghost use Rattle.poa_base.specs.declared.Entry.{Entry as EntryOf};
ghost use Rattle.held_queue.specs.Frees as frees;
ghost use Rattle.history_standing.specs.Stages.{stage};
ghost use Rattle.poa_history.specs.Entries.{stage_at};
ghost use Rattle.core_standing.specs.Answers.{AnswersAs};
ghost use Rattle.core_standing.specs.Seen.{seen};

use core_standing::Standing;
use core_standing::asked_commands::is_accepted;
use core_standing::searches::activation_numbered;
use held_queue::Freed;
use history_standing::Stage;
use history_standing::flights::flight_of;
use poa_base::Entry;
use poa_history::workers::arrival_in;

/// The request or trial of an arrival ends.
fn landing(standing: &Standing, arrival: Option<u64>) -> Freed
    ensures { result ≡ frees.landing (seen standing.now) arrival }
{
    let Some(arrival) = arrival else {
        return Freed::nothing();
    };
    match flight_of(&standing.flights, arrival) {
        Some(flight) => Freed {
            landed: Some(flight.adapter),
            moved: flight.activation,
            ..Freed::nothing()
        },
        None => Freed::nothing(),
    }
}

/// An incarnation ends.
fn incarnating(standing: &Standing, begun: Stage) -> Freed
    ensures { result ≡ frees.incarnating (seen standing.now) begun }
{
    match begun {
        Stage::Incarnating(arrival, _) => {
            let landed = landing(standing, Some(arrival));
            Freed {
                changed: landed.landed,
                ..landed
            }
        }
        _ => Freed::nothing(),
    }
}

/// An etherealization ends.
fn etherealizing(standing: &Standing, begun: Stage) -> Freed
    ensures { result ≡ frees.etherealizing (seen standing.now) begun }
{
    match begun {
        Stage::Removing(number) => Freed {
            changed: activation_numbered(standing, number).map(|activation| activation.adapter),
            moved: Some(number),
            ..Freed::nothing()
        },
        _ => Freed::nothing(),
    }
}

/// What the end of the request that a worker ran frees of what holds calls, by what stands before it.
pub fn landed(standing: &Standing, begun: Stage) -> Freed
    ensures { (c : Config) (run : ℕ) (past : List EntryOf) (w : ℕ)
        → AnswersAs c run past (seen standing.now) → begun ≡ stage past w
        → result ≡ frees.freed_by c run past (EntryOf.Done w) }
{
    landing(standing, arrival_in(begun))
}

/// What an entry frees of what holds calls, by what stands before it and what its worker had begun.
pub fn freed_by(standing: &Standing, begun: Stage, entry: &Entry) -> Freed
    ensures { (c : Config) (run : ℕ) (past : List EntryOf)
        → AnswersAs c run past (seen standing.now) → begun ≡ stage_at past entry.now
        → result ≡ frees.freed_by c run past entry.now }
{
    match entry {
        Entry::Admit { verdict, .. } => {
            if is_accepted(verdict) {
                Freed::everything()
            } else {
                Freed::nothing()
            }
        }
        Entry::Tried { .. } => Freed::everything(),
        Entry::Incarnated { .. } => incarnating(standing, begun),
        Entry::Done { .. } => landed(standing, begun),
        Entry::TakeOut {
            activation,
            etherealize: false,
            ..
        } => Freed {
            moved: Some(*activation),
            ..Freed::nothing()
        },
        Entry::Etherealized { .. } => etherealizing(standing, begun),
        _ => Freed::nothing(),
    }
}
