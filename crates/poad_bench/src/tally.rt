use seat_lock::Chronicle;

/// A count, which stands for no history at all: the lock's own cost is what is timed.
#[derive(Drop)]
pub struct Tally {
    pub count: u64,
}

impl Chronicle for Tally {
    type Givens = ();

    type Entry = ();

    ghost use Rattle.std.specs.Prelude.{[], None};

    ghost givens = { λ _. tt };

    ghost history = { λ _. [] };

    ghost owner = { λ _. None };
}
