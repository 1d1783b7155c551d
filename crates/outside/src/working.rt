//! Jobs, which threads may do.

/// What is to be done once, and what its result is promised to be.
pub trait Job {
    type Out;

    /// What holds of a job before it is begun.
    ghost condition: { Self → Type 0 };

    /// What its result is.
    ghost promise: { Self → Self.Out → Type 0 };

    /// Does the job.
    fn work(self) -> Self::Out
        requires { condition self }
        ensures { promise self result };
}
