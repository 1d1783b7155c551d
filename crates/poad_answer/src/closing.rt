//! How serving ends: the replies that wait are written, and the message that closes the stream.
ghost use Rattle.std.specs.Prelude.{◌≡◌, ◌≢◌, ◌≤◌, ◌++◌, ℕ, List, [], IfOk, false};
ghost use Rattle.outside.specs.Cause.{HasCause};
ghost use Rattle.outside.specs.Told.{IfTold};
ghost use Rattle.poad_files.specs.Delivery.{Hands};
ghost use Rattle.session_laws.specs.HearingPieces.{KnowsFirst};
ghost use Rattle.session_laws.specs.declared.peer.Peer.TheVariants.{Client};
ghost use Rattle.poad_answer.specs.Closing.{Closes, EndsSo, IsOver, WaitsSo};
ghost use Rattle.poad_answer.specs.Stop.{ClosesIn, has_closing as has_closing_words, last_words};

use crate::end::End;
use crate::stop::Stop;
use giop_answer::kind::MINOR;
use giop_answer::{write_closing, write_error};
use outside::Sink;
use poa_base::WantMemory;
use poad_files::deliver;
use session_laws::Input;

/// How many bytes wait, where serving stopped for want of more of them alone.
pub(crate) fn waiting(why: Stop) -> Option<u64>
    ensures { WaitsSo result why }
{
    match why {
        Stop::Waits { have } => Some(have),
        Stop::Closed | Stop::Refused { .. } | Stop::Full { .. } | Stop::NoMemory => None,
    }
}

/// Writes the replies that wait. Answers whether the sink took them. None waits then.
pub(crate) fn write_replies<K: Sink>(replies: &mut Vec<u8>, sink: &mut K) -> bool
    ensures held { IfTold (K.held sink.old) (K.held sink.new) (Hands result replies.old.items) }
    ensures none_waits { replies.new.items ≡ [] }
    ensures failed { HasCause (K.write_faults sink.old) (K.write_faults sink.new) (result ≡ false) }
{
    let written = deliver(sink, replies.as_slice());
    replies.clear();
    written
}

/// Writes the replies that wait, and behind them MessageError where a message is bad, or CloseConnection where a call is
/// refused, of the version of the first message, and of 1.2 where there is none. Answers how serving ends.
pub(crate) fn close<K: Sink>(input: Input, why: Stop, replies: &[u8], sink: &mut K) -> End
    requires { IsOver why }
    ensures closes { Closes result why input replies.now (K.held sink.old) (K.held sink.new) }
    ensures written { HasCause (K.write_faults sink.old) (K.write_faults sink.new)
        (result ≡ End.WriteFault) }
{
    let Ok(minor) = closing_minor(input, why) else {
        return End::WantMemory;
    };
    if !write_all(replies, why, minor, sink) {
        return End::WriteFault;
    }
    end_of(why)
}

// The minor version of the message that is written behind the replies, where one is.
fn closing_minor(input: Input, why: Stop) -> Result<u8, WantMemory>
    ensures first { IfOk result (λ minor. (text : List ℕ) → KnowsFirst Client input.ear text
        → ClosesIn why text minor) }
    ensures known { IfOk result (λ minor. minor ≤ 2) }
{
    if !has_closing(why) {
        return Ok(MINOR);
    }
    input.closing_minor()
}

// Writes the replies, and what stands behind them, in this minor version. Answers whether the sink took them.
fn write_all<K: Sink>(replies: &[u8], why: Stop, minor: u8, sink: &mut K) -> bool
    requires { minor ≤ 2 }
    ensures held { IfTold (K.held sink.old) (K.held sink.new)
        (Hands result (replies.now ++ last_words minor why)) }
    ensures failed { HasCause (K.write_faults sink.old) (K.write_faults sink.new) (result ≡ false) }
{
    if !deliver(sink, replies) {
        return false;
    }
    write_last(why, minor, sink)
}

// Writes what stands behind the replies.
fn write_last<K: Sink>(why: Stop, minor: u8, sink: &mut K) -> bool
    requires { minor ≤ 2 }
    ensures held { IfTold (K.held sink.old) (K.held sink.new)
        (Hands result (last_words minor why)) }
    ensures failed { HasCause (K.write_faults sink.old) (K.write_faults sink.new) (result ≡ false) }
{
    match why {
        Stop::Refused { .. } => deliver(sink, &write_error(minor)),
        Stop::Full { .. } => deliver(sink, &write_closing(minor)),
        Stop::Waits { .. } | Stop::Closed | Stop::NoMemory => true,
    }
}

// Whether a message is written behind the replies.
fn has_closing(why: Stop) -> bool
    ensures { result ≡ has_closing_words why }
{
    match why {
        Stop::Refused { .. } | Stop::Full { .. } => true,
        Stop::Waits { .. } | Stop::Closed | Stop::NoMemory => false,
    }
}

// How serving ends that stopped so.
fn end_of(why: Stop) -> End
    requires { IsOver why }
    ensures ends { EndsSo result why }
    ensures no_fault { result ≢ End.WriteFault }
{
    match why {
        Stop::Waits { .. } => unreachable!(),
        Stop::Closed => End::Read,
        Stop::Refused { at } => End::Malformed { at },
        Stop::Full { arrivals, bytes } => End::Full { arrivals, bytes },
        Stop::NoMemory => End::WantMemory,
    }
}
