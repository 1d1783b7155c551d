//! A source of bytes.
ghost use Rattle.std.specs.Prelude.{◌≡◌, ℕ, ◌<◌, List, Bool, true, Option, length};
ghost use Rattle.outside.specs.Cause.{HasCause};
ghost use Rattle.outside.specs.Reading.{IsWithin, Delivers};
ghost use Rattle.outside.specs.Told.{IfTold};

/// What a read gave.
#[derive(Clone, Copy, Debug, PartialEq, Eq, Drop)]
pub enum Took {
    /// So many bytes, at the front of the buffer.
    Got(usize),
    /// Nothing is left, and nothing will come.
    End,
    /// Nothing is there now.
    Quiet,
    /// The source failed, and counted it.
    Failed,
}

/// Where bytes come from.
pub trait Source {
    /// The bytes left, where the source tells them.
    ghost left: { Self → Option (List ℕ) };

    /// Whether it is a waiting source, one that may have nothing now and more later.
    ghost is_waiting: { Self → Bool };

    /// How many reads failed.
    ghost read_faults: { Self → ℕ };

    /// How many reads found nothing there for now.
    ghost quiets: { Self → ℕ };

    /// Reads what is there into the front of the buffer, at least a byte and at most all of it.
    fn read(&mut self, buf: &mut [u8]) -> Took
        requires { 0 < length buf.old }
        ensures within { IsWithin result (length buf.old) }
        ensures bytes { IfTold (left self.old) (left self.new) (Delivers result buf.new) }
        ensures waiting { is_waiting self.new ≡ is_waiting self.old }
        ensures patient { result ≡ Took.Quiet → is_waiting self.old ≡ true }
        ensures failed { HasCause (read_faults self.old) (read_faults self.new) (result ≡ Took.Failed) }
        ensures quiet { HasCause (quiets self.old) (quiets self.new) (result ≡ Took.Quiet) };
}
