//! The managers of adapters: CORBA 3.3 Part 1, chapter 15.

/// What a manager does with requests to its adapters.
#[derive(Clone, Copy, Drop)]
pub enum ManagerState {
    Holding,
    Active,
    Discarding,
    Inactive,
}
