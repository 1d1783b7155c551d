//! Scripts played on the adapter, and what that prints: the entries that workers make, the replies that
//! connections collect, the store and the journal. The player has the adapter and what was printed so far: workers make their
//! turns, calls come, replies are collected, and each prints its lines. And steps played one by one, of which nothing is printed.
//!
//! `specs/Playing.antt` says what a script prints: its steps lead from one world to the next, each with its text.
#![tactic(auto)]

mod asking;
mod calling;
mod channel;
mod collecting;
mod finishing;
mod full;
mod line;
mod mark;
mod played;
mod player;
mod printing;
mod quiet;
mod reading;
mod replaying;
mod showing;
mod talking;
mod working;

pub use full::Full;
pub use played::Played;
pub use quiet::QuietPlay;
pub use replaying::replay;
