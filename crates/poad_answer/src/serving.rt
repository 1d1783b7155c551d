//! A client's calls are served as its bytes come, whoever answers.
ghost use Rattle.std.specs.Prelude.{◌+◌, ◌≤◌, ◌^◌, length};
ghost use Rattle.poa_history.specs.Legal.{IsSize};
ghost use Rattle.session_laws.specs.Calls.{IsHeaded};
ghost use Rattle.poad_answer.specs.Piece.{Does, IsOfClient, IsStopBy, ServesUpTo, TakesPiece, Turns, server};

use crate::answerer::Answerer;
use crate::stop::Stop;
use poa_base::Call;
use poa_core::ArriveFault;
use session_laws::{Input, Told};
use std::alloc::Global;

/// Serves the calls that a piece of input makes whole, up to what stops it. Their replies stand behind those that stood
/// there.
pub(crate) fn take_piece<A: Answerer>(
    alloc: Global,
    answerer: &mut A,
    input: &mut Input,
    piece: &[u8],
    replies: &mut Vec<u8>,
) -> Stop
    requires fits { A.meaning.fits answerer.old }
    requires client { IsOfClient input.old }
    requires room { input.old.taken + length piece.now ≤ 2 ^ 40 }
    ensures takes { TakesPiece A.meaning result piece.now
        (server answerer.old input.old replies.old.items)
        (server answerer.new input.new replies.new.items) }
    ensures fits { A.meaning.fits answerer.new }
{
    let Ok(()) = input.feed(piece) else {
        return Stop::NoMemory;
    };
    serve(alloc, answerer, input, replies)
}

// Serves the calls that stand whole, up to what stops it.
fn serve<A: Answerer>(
    alloc: Global,
    answerer: &mut A,
    input: &mut Input,
    replies: &mut Vec<u8>,
) -> Stop
    requires fits { A.meaning.fits answerer.old }
    requires client { IsOfClient input.old }
    ensures served { ServesUpTo A.meaning result
        (server answerer.old input.old replies.old.items)
        (server answerer.new input.new replies.new.items) }
    ensures fits { A.meaning.fits answerer.new }
{
    loop {
        if let Some(why) = serve_next(alloc, answerer, input, replies) {
            return why;
        }
    }
}

// Serves what stands next. Answers why where nothing is served.
fn serve_next<A: Answerer>(
    alloc: Global,
    answerer: &mut A,
    input: &mut Input,
    replies: &mut Vec<u8>,
) -> Option<Stop>
    requires fits { A.meaning.fits answerer.old }
    requires client { IsOfClient input.old }
    ensures turns { Turns A.meaning result
        (server answerer.old input.old replies.old.items)
        (server answerer.new input.new replies.new.items) }
    ensures fits { A.meaning.fits answerer.new }
{
    let Ok(told) = input.next(alloc) else {
        return Some(Stop::NoMemory);
    };
    match told {
        Told::Call { call, size } => serve_call(alloc, answerer, call, size, replies),
        Told::Nothing => None,
        Told::More { have } => Some(Stop::Waits { have }),
        Told::Closed => Some(Stop::Closed),
        Told::Bad { at } => Some(Stop::Refused { at }),
    }
}

// Serves a call of this size. Answers why where it isn't served.
fn serve_call<A: Answerer>(
    alloc: Global,
    answerer: &mut A,
    call: Call,
    size: u64,
    replies: &mut Vec<u8>,
) -> Option<Stop>
    requires fits { A.meaning.fits answerer.old }
    requires headed { IsHeaded call }
    requires sized { IsSize size }
    ensures done { Does A.meaning result call size answerer.old answerer.new replies.old.items
        replies.new.items }
    ensures fits { A.meaning.fits answerer.new }
{
    match answerer.answer(alloc, call, size, replies) {
        Ok(()) => None,
        Err(fault) => Some(stop_of(fault)),
    }
}

// Why a call that doesn't arrive stops serving.
fn stop_of(fault: ArriveFault) -> Stop
    ensures { IsStopBy fault result }
{
    match fault {
        ArriveFault::Limit { arrivals, bytes } => Stop::Full { arrivals, bytes },
        ArriveFault::WantMemory => Stop::NoMemory,
    }
}
