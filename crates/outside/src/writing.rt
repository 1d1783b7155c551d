//! A sink for bytes.
ghost use Rattle.std.specs.Prelude.{◌≡◌, ℕ, ◌<◌, List, Option, length};
ghost use Rattle.outside.specs.Cause.{HasCause};
ghost use Rattle.outside.specs.Writing.{IsWithin, Gains};
ghost use Rattle.outside.specs.Told.{IfTold};

/// What a write did.
#[derive(Clone, Copy, Debug, PartialEq, Eq, Drop)]
pub enum Wrote {
    /// It took so many bytes from the front of the piece.
    Wrote(usize),
    /// The sink failed or takes nothing, and counted it.
    Failed,
}

/// Where bytes go.
pub trait Sink {
    /// The bytes held, where the sink tells them.
    ghost held: { Self → Option (List ℕ) };

    /// How many writes failed.
    ghost write_faults: { Self → ℕ };

    /// Writes the front of the piece, at least a byte and at most all of it.
    fn write(&mut self, piece: &[u8]) -> Wrote
        requires { 0 < length piece.now }
        ensures within { IsWithin result (length piece.now) }
        ensures bytes { IfTold (held self.old) (held self.new) (Gains result piece.now) }
        ensures failed { HasCause (write_faults self.old) (write_faults self.new)
            (result ≡ Wrote.Failed) };
}
