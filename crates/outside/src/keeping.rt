//! Named files.
ghost use Rattle.std.specs.Prelude.{◌≡◌, ℕ, Option, List};
ghost use Rattle.outside.specs.Cause.{HasCause};
ghost use Rattle.outside.specs.Keeping.{Contents, IsWithin, Shows, Stores};
ghost use Rattle.outside.specs.Told.{IfTold};

use poa_base::Bytes;

/// What a take gave.
#[derive(Drop)]
pub enum Taken {
    /// The whole content.
    Bytes(Bytes),
    /// No such name is held.
    Absent,
    /// The content is longer than the limit.
    TooLong,
    /// The files failed, and counted it.
    Failed,
    WantMemory,
}

/// What a put did.
#[derive(Clone, Copy, Debug, Drop)]
pub enum Put {
    Done,
    /// The files failed, and counted it.
    Failed,
}

/// Files by their names.
pub trait Files {
    /// What is held under each name, where the files tell it.
    ghost contents: { Self → Option Contents };

    /// How many takes failed.
    ghost take_faults: { Self → ℕ };

    /// How many puts failed.
    ghost put_faults: { Self → ℕ };

    /// How many takes found no such name.
    ghost absents: { Self → ℕ };

    /// How many takes found a content beyond the limit.
    ghost long_ones: { Self → ℕ };

    /// The content under the name, of at most `limit` bytes.
    fn take(&mut self, name: &str, limit: u64) -> Taken
        ensures within { IsWithin result limit }
        ensures content { IfTold (contents self.old) (contents self.new)
            (λ old new. Shows result limit (old name.now) × ((other : List ℕ) → new other ≡ old other)) }
        ensures failed { HasCause (take_faults self.old) (take_faults self.new) (result ≡ Taken.Failed) }
        ensures absent { HasCause (absents self.old) (absents self.new) (result ≡ Taken.Absent) }
        ensures long { HasCause (long_ones self.old) (long_ones self.new) (result ≡ Taken.TooLong) }
        ensures puts { put_faults self.new ≡ put_faults self.old };

    /// Holds the content under the name, in place of what was held there.
    fn put(&mut self, name: &str, content: &[u8]) -> Put
        ensures content { IfTold (contents self.old) (contents self.new)
            (Stores result name.now content.now) }
        ensures failed { HasCause (put_faults self.old) (put_faults self.new) (result ≡ Put.Failed) }
        ensures done { result ≡ Put.Done → put_faults self.new ≡ put_faults self.old }
        ensures takes { take_faults self.new ≡ take_faults self.old }
        ensures absents { absents self.new ≡ absents self.old }
        ensures long_ones { long_ones self.new ≡ long_ones self.old };
}
