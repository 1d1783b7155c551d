use std::alloc::AllocError;

/// Why a word was not read.
#[derive(Clone, Copy, Drop)]
pub enum WordFault {
    /// The word is outside the form that was asked for.
    OutOfForm,
    /// There was no memory for the value.
    WantMemory,
}

impl From<AllocError> for WordFault {
    ghost use Rattle.std.specs.Prelude.{◌≡◌};
    ghost use Rattle.text_words.specs.declared.fault.WordFault.TheVariants.{WantMemory};

    ghost from_gives = { λ e fault. fault ≡ WantMemory };

    fn from(_: AllocError) -> WordFault {
        WordFault::WantMemory
    }
}
