//! The tally of a run.
ghost use Rattle.std.specs.Prelude.{◌≡◌, [], OnOk};
ghost use Rattle.core_arrivals.specs.Tallies.{TallyAgrees, HasRoomForOne, TallyStays};

use poa_base::WantMemory;
use poa_history::Full;
use std::alloc::Global;

/// What is counted of a run.
#[derive(Drop)]
pub struct Tally {
    /// Of each connection that entered, whether it has left.
    pub left: Vec<bool>,
    /// How many connections but the first haven't left.
    pub staying: u64,
    /// How many calls arrived.
    pub arrivals: u64,
    /// How many bytes arrived.
    pub bytes: u64,
    /// What stood when the run was filled.
    pub filled: Option<Full>,
    /// Whether a `shutdown` arrived.
    pub ordered: bool,
    /// Whether a `shutdown` was admitted.
    pub shut: bool,
    /// The worker that gave the run up first.
    pub given_up: Option<u32>,
}

/// The tally of a run that hasn't begun. Takes no memory.
pub fn none(alloc: Global) -> Tally
    ensures { TallyAgrees [] result }
{
    Tally {
        left: Vec::new(alloc),
        staying: 0,
        arrivals: 0,
        bytes: 0,
        filled: None,
        ordered: false,
        shut: false,
        given_up: None,
    }
}

/// Makes room for a connection; all else is as it was.
pub fn reserve(tally: &mut Tally) -> Result<(), WantMemory>
    ensures room { OnOk result (HasRoomForOne tally.new) }
    ensures same { TallyStays tally.old tally.new }
{
    tally.left.try_reserve(1)?;
    Ok(())
}
