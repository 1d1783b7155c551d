//! The state in which a fresh servant begins.
use core_state::restored;
use poa_base::{Items, Kind, State, WantMemory};
use std::alloc::Global;
use std::test::Fail;

/// Whether a register begins at this value where that state is stored.
fn begins_at(alloc: Global, stored: Option<&State>, value: i64) -> Result<bool, WantMemory> {
    let state = restored(alloc, Kind::Register, stored)?;
    Ok(matches!(state, State::Register(begun) if begun == value))
}

/// Whether a register begins at 5 where this register of 5 is stored, and at 0 where this log or nothing is.
fn counts_its_kind(alloc: Global, five: &State, log: &State) -> Result<bool, WantMemory> {
    Ok(
        begins_at(alloc, Some(five), 5)?
            && begins_at(alloc, Some(log), 0)?
            && begins_at(alloc, None, 0)?,
    )
}

#[test]
fn what_is_stored_counts_where_it_is_of_the_kind(rt: HostRuntime) -> Result<(), Fail> {
    let alloc = rt.alloc();
    let five = State::Register(5);
    let log = State::Book(Items::new(alloc));
    assert!(rt; counts_its_kind(alloc, &five, &log)?);
    Ok(())
}
