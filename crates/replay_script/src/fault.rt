use std::alloc::AllocError;

/// Why a text was not read.
#[derive(Clone, Copy, Drop)]
pub enum ScriptFault {
    /// The first line, from 1 on, that is outside the grammar, also by what the lines before it say.
    BadLine { line: u64 },
    /// There was no memory.
    WantMemory,
}

impl From<AllocError> for ScriptFault {
    ghost use Rattle.std.specs.Prelude.{◌≡◌};
    ghost use Rattle.replay_script.specs.declared.fault.ScriptFault.TheVariants.{WantMemory};

    ghost from_gives = { λ e fault. fault ≡ WantMemory };

    fn from(_: AllocError) -> ScriptFault {
        ScriptFault::WantMemory
    }
}
