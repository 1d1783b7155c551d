//! A link: bytes both ways.
ghost use Rattle.std.specs.Prelude.{◌≡◌, ◌<◌, length};
ghost use Rattle.outside.specs.Cause.{HasCause};
ghost use Rattle.outside.specs.Reading.{IsWithin};
ghost use Rattle.outside.specs.Writing.{IsWithin as IsPart};
ghost use Rattle.outside.specs.Link.{Shown, IsRead, IsWritten};

use crate::alarm::Alarm;
use crate::reading::Took;
use crate::writing::Wrote;
use poa_base::WantMemory;

/// Where bytes come from and go to, as over a connection. It is a waiting one: it may have nothing now and more
/// later.
pub trait Link {
    /// What it has left and holds, where it tells them, and its counts.
    ghost shown: { Self → Shown };

    /// Reads what is there into the front of the buffer, at least a byte and at most all of it. A link that
    /// waits does so for its input, its alarm or a while, and then says `Quiet`. Where no reply is owed, so that nothing
    /// is decided meanwhile that can't wait, it may hear its alarm a moment late.
    fn read(&mut self, buf: &mut [u8], is_owed: bool) -> Took
        requires { 0 < length buf.old }
        ensures within { IsWithin result (length buf.old) }
        ensures bytes { IsRead result buf.new (shown self.old) (shown self.new) }
        ensures failed { HasCause (shown self.old).read_faults (shown self.new).read_faults (result ≡ Took.Failed) }
        ensures quiet { HasCause (shown self.old).quiets (shown self.new).quiets (result ≡ Took.Quiet) };

    /// Writes the front of the piece, at least a byte and at most all of it.
    fn write(&mut self, piece: &[u8]) -> Wrote
        requires { 0 < length piece.now }
        ensures within { IsPart result (length piece.now) }
        ensures bytes { IsWritten result piece.now (shown self.old) (shown self.new) }
        ensures failed { HasCause (shown self.old).write_faults (shown self.new).write_faults (result ≡ Wrote.Failed) };

    /// The alarm that ends its reads, for others to ring. No clause speaks of waiting. `WantMemory` where no
    /// memory was left.
    fn alarm(&self) -> Result<Alarm, WantMemory>;
}
