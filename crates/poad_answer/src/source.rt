//! The loop over a source, whoever answers.
ghost use Rattle.std.specs.Prelude.{◌≡◌, ◌<◌, false, ◌≢◌, length};
ghost use Rattle.outside.specs.Cause.{HasCause};
ghost use Rattle.outside.specs.Reading.{IsWithin, Delivers};
ghost use Rattle.outside.specs.Told.{IfTold};
ghost use Rattle.poad_answer.specs.Closing.{EndsAt};
ghost use Rattle.poad_answer.specs.Source.{ServesSource};

use crate::answerer::Answerer;
use crate::closing::{close, waiting, write_replies};
use crate::end::End;
use crate::serving::take_piece;
use outside::{Sink, Source, Took};
use session_laws::{Input, Peer};
use std::alloc::Global;

/// How much a read takes at most.
const PIECE: usize = 65_536;

/// How much is taken of a source at most.
const INPUT_LIMIT: u64 = 1 << 32;

/// Serves the messages of the source in order, and writes the replies that a piece of input owes before it reads the
/// next piece. Where a message is bad MessageError follows the replies, and where its call is refused CloseConnection
/// does, of the version of the first message, and of 1.2 where there is none.
pub(crate) fn serve_source<A: Answerer, S: Source, K: Sink>(
    alloc: Global,
    answerer: &mut A,
    source: &mut S,
    sink: &mut K,
) -> End
    requires fits { A.meaning.fits answerer.old }
    requires patient { S.is_waiting source.old ≡ false }
    ensures serves { ServesSource A.meaning result answerer.old answerer.new
        (S.left source.old) (S.left source.new) (K.held sink.old) (K.held sink.new) }
    ensures read { HasCause (S.read_faults source.old) (S.read_faults source.new)
        (result ≡ End.ReadFault) }
    ensures written { HasCause (K.write_faults sink.old) (K.write_faults sink.new)
        (result ≡ End.WriteFault) }
{
    let Ok(mut buffer) = Vec::from_elem(alloc, 0u8, PIECE) else {
        return End::WantMemory;
    };
    let mut input = Input::new(alloc, Peer::Client);
    let mut replies = Vec::new(alloc);
    let mut left_over = 0;
    let mut taken = 0;
    while taken < INPUT_LIMIT {
        match read_front(source, &mut buffer, INPUT_LIMIT - taken) {
            Took::Got(count) => {
                taken += count as u64;
                let piece = &buffer[..count];
                let why = take_piece(alloc, answerer, &mut input, piece, &mut replies);
                let Some(have) = waiting(why) else {
                    return close(input, why, replies.as_slice(), sink);
                };
                if !write_replies(&mut replies, sink) {
                    return End::WriteFault;
                }
                left_over = have;
            }
            Took::End => return ended(left_over),
            Took::Failed => return End::ReadFault,
            // Never comes, since the source doesn't wait.
            Took::Quiet => return End::ReadFault,
        }
    }
    End::InputLimit { taken }
}

// Reads no more than `most` bytes into the front of the buffer.
fn read_front<S: Source>(source: &mut S, buffer: &mut [u8], most: u64) -> Took
    requires some { 0 < length buffer.old }
    requires allowed { 0 < most }
    requires patient { S.is_waiting source.old ≡ false }
    ensures within { IsWithin result (length buffer.old) }
    ensures most { IsWithin result most }
    ensures bytes { IfTold (S.left source.old) (S.left source.new) (Delivers result buffer.new) }
    ensures patient { S.is_waiting source.new ≡ false }
    ensures failed { HasCause (S.read_faults source.old) (S.read_faults source.new)
        (result ≡ Took.Failed) }
    ensures loud { result ≢ Took.Quiet }
{
    let room = most.min(buffer.len() as u64) as usize;
    source.read(&mut buffer[..room])
}

// How serving ends at the end of the source, where so many bytes belong to no message.
fn ended(left_over: u64) -> End
    ensures { EndsAt result left_over }
{
    match left_over {
        0 => End::Read,
        have => End::Truncated { have },
    }
}
