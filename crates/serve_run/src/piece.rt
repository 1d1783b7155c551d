//! A piece of the running server.
use crate::attending::serve_door;
use crate::ran::{PieceEnd, Ran};
use crate::reception::Reception;
use crate::task::Task;
use outside::{Acceptor, Gate, Job};
use poa_shared::{Aid, Seat, Shared, work};
use session_laws::Peer;
use std::alloc::Global;
use std::sync::{Arc, Wait};

/// What runs in a thread of its own: its task, and the seat that was split for it, which has made nothing yet. The aid's
/// seat is a second one, for a worker's turns: a lane may have one where the gate never keeps anybody.
#[derive(Drop)]
pub struct Piece<R, A, G> {
    pub rt: R,
    pub alloc: Global,
    pub shared: Arc<Shared, Global>,
    pub seat: Seat,
    pub aid: Aid,
    pub task: Task<A, G>,
}

impl<R: Wait + Copy, A: Acceptor, G: Gate + Drop> Job for Piece<R, A, G> {
    ghost use Rattle.std.specs.Prelude.{◌≡◌, Some};
    ghost use Rattle.seat_lock.specs.Seats.{view};
    ghost use Rattle.std.specs.Arc.{arc_value};
    ghost use Rattle.poa_history.specs.declared.givens.Givens.{Givens};
    ghost use Rattle.poa_shared.specs.Helping.{Aids};
    ghost use Rattle.serve_run.specs.Promises.{AreIdle, IsFresh, Keeps};

    type Out = Ran<A>;

    ghost condition = { λ piece. AreIdle (arc_value piece.shared) piece.seat piece.aid.seat × IsFresh piece.task (view piece.seat) };

    ghost promise = { λ piece ran. AreIdle (arc_value piece.shared) ran.seat ran.aid.seat × Aids piece.aid.seat ran.aid.seat
        × ((g : Givens) → (view piece.seat).givens ≡ Some g → Keeps g A.Link.shown A.standing A.faults A.ends piece.task (view piece.seat) ran) };

    fn work(self) -> Ran<A> {
        let Piece {
            rt,
            alloc,
            shared,
            mut seat,
            aid,
            task,
        } = self;
        match task {
            Task::Lane(door) => {
                let reception = Reception {
                    rt: &rt,
                    alloc,
                    shared: &shared,
                    peer: Peer::Client,
                };
                serve_door(&reception, seat, aid, door)
            }
            Task::Admin(door) => {
                let reception = Reception {
                    rt: &rt,
                    alloc,
                    shared: &shared,
                    peer: Peer::Administrator,
                };
                serve_door(&reception, seat, aid, door)
            }
            Task::Worker { worker, gate } => {
                let end = work(&rt, &shared, &mut seat, worker, &*gate);
                Ran {
                    seat,
                    aid,
                    door: None,
                    refused: None,
                    end: PieceEnd::Worked(end),
                }
            }
        }
    }
}
