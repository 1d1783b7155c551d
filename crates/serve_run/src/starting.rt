//! A piece is started.
ghost use Rattle.std.specs.Prelude.{◌≡◌, ◌+◌, ◌<◌, IfOk, IfErr, OnOk, OnErr, Some};
ghost use Rattle.std.specs.Arc.{arc_value};
ghost use Rattle.poa_shared.specs.Seats.{IsIdle};
ghost use Rattle.poa_shared.specs.Helping.{IsReady};
ghost use Rattle.seat_lock.specs.Seats.{view};
ghost use Rattle.serve_run.specs.Promises.{IsNumbered};
ghost use Rattle.serve_run.specs.Starting.{IsKept, IsStarted};
ghost use Rattle.serve_run.specs.Threads.{CountsThreads};

use crate::outcome::Want;
use crate::piece::Piece;
use crate::server::Server;
use crate::task::Task;
use outside::{Acceptor, Gate, ThreadCrew, Ticket};
use poa_shared::{Aid, Seat};
use std::sync::{Arc, Wait};
use std::thread::Threads;

/// The task and the aid of a piece that wasn't started, and for want of what.
#[derive(Drop)]
pub struct Unstarted<A, G> {
    pub task: Task<A, G>,
    pub aid: Aid,
    pub want: Want,
}

/// Starts a piece with this task and this aid on a new seat. Where it can't be started, both are handed back, and its seat is
/// joined.
pub fn start<T, R, A, G>(
    server: &Server<'_, R, G>,
    seat: &mut Seat,
    crew: &mut ThreadCrew<T>,
    task: Task<A, G>,
    aid: Aid,
) -> Result<Ticket<Piece<R, A, G>>, Unstarted<A, G>>
where
    T: Threads + Wait + Drop,
    R: Wait + Copy + Send + Drop + 'static,
    A: Acceptor + Send + Drop + 'static,
    A::Link: Send + 'static,
    G: Gate + Send + Sync + Drop + 'static,
    requires seat { IsIdle (arc_value server.now.shared.now) seat.old }
    requires room { 0 < (view seat.old).room }
    requires numbered { IsNumbered task }
    requires aid { IsReady (arc_value server.now.shared.now) aid.seat }
    ensures seat { IsIdle (arc_value server.now.shared.now) seat.new }
    ensures kept { IsKept (view seat.old) (view seat.new) }
    ensures taken { OnOk result ((view seat.new).room + 1 ≡ (view seat.old).room) }
    ensures same { OnErr result ((view seat.new).room ≡ (view seat.old).room) }
    ensures started { IfOk result
        (λ ticket. IsStarted (arc_value server.now.shared.now) task aid.seat (view seat.old)
        ticket.promise.job.value) }
    ensures back { IfErr result (λ it. it.task ≡ task) }
    ensures aid { IfErr result (λ it. it.aid ≡ aid) }
    ensures counted { OnOk result (crew.new.faults ≡ crew.old.faults) }
    ensures threads { IfErr result
        (λ it. CountsThreads crew.old.faults crew.new.faults (Some it.want)) }
{
    let own = server.shared.split(seat);
    let shared_too = match Arc::try_clone(server.shared) {
        Ok(too) => too,
        Err(_) => {
            server.shared.join(seat, own);
            return Err(Unstarted {
                task,
                aid,
                want: Want::Memory,
            });
        }
    };
    let piece = Piece {
        rt: *server.rt,
        alloc: server.alloc,
        shared: shared_too,
        seat: own,
        aid,
        task,
    };
    match crew.start(piece) {
        Ok(ticket) => Ok(ticket),
        Err(piece) => {
            let Piece {
                seat: own,
                aid,
                task,
                ..
            } = piece;
            server.shared.join(seat, own);
            Err(Unstarted {
                task,
                aid,
                want: Want::Thread,
            })
        }
    }
}
