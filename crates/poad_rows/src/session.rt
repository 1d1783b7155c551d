//! The session of a client that sends three calls, on one thread, and its verdict.

use poad_cases::{Judgement, TurnsBy, judge, play_session};
use std::alloc::Global;
use std::process::ExitCode;
use std::sync::Wait;

/// Plays the session, the turns being made so, and prints how it ended, how many calls arrived, how much was written, and whether that is what a
/// session is.
///
/// The status is 0 where the session ended with all its replies, and 1 where memory was wanting before it began. It is 2
/// where memory was wanting in the session: what arrived and what was written are a beginning then. A session that is none
/// of these is printed as wrong, with the status 0.
pub fn run<R: Wait + Copy + Drop + Print>(rt: &R, alloc: Global, turns: TurnsBy) -> ExitCode {
    let Ok(played) = play_session(rt, alloc, turns) else {
        return ExitCode::FAILURE;
    };
    let judgement = judge(&played);
    let end = played.session.end;
    let arrived = played.arrived();
    let written = played.written().len();
    let Ok(()) = println!(rt;
        "{judgement:?}: {end:?}, {arrived} calls arrived, {written} bytes written"
    ) else {
        return ExitCode::FAILURE;
    };
    match judgement {
        Judgement::Whole | Judgement::Wrong => ExitCode::SUCCESS,
        Judgement::Beginning => ExitCode::from(2),
    }
}
