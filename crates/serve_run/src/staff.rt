//! The workers that were started.
ghost use Rattle.std.specs.Prelude.{◌≤◌};

/// The workers that were started: from this one to before that one. A run has at most 16.
#[derive(Clone, Copy, Drop)]
pub struct Staff {
    pub first: u32,
    pub end: u32,
    ghost few: { end ≤ 16 },
}
