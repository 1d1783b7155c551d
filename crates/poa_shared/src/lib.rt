//! One adapter for many threads. Each call through a seat takes the core out of its lock, has it make at most one entry,
//! and puts it back: it is one event of the one history. What a seat knows of that history, and which connections are its
//! own, is in `specs/Seen.antt`. A worker makes its turns so, one entry after another, until the run is over; who serves
//! connections may make turns of the first worker himself, by an aid. Beside them stand bells, and the place before the
//! lock, on which no clause rests.
#![tactic(auto)]

mod aid;
mod arriving;
mod belfry;
mod bell;
mod collecting;
mod entering;
mod front;
mod helping;
mod news;
mod pause;
mod printing;
mod ringing;
mod shared;
mod stepping;
mod turning;
mod work_end;
mod working;

pub use aid::Aid;
pub use bell::Bell;
pub use front::Front;
pub use news::News;
pub use poa_base::WantMemory;
pub use shared::{Seat, Shared};
pub use work_end::WorkEnd;
pub use working::work;
