//! Real threads over one shared core: callers, workers, and one that gives up. The tests ask whether the journal that they
//! made together is a legal history, and whether every call was decided once. And a diary under the lock alone, which many
//! threads write. It is tests alone.
#![tactic(auto)]

#[cfg(test)]
mod asking;
#[cfg(test)]
mod calling;
mod diary;
#[cfg(test)]
mod job;
#[cfg(test)]
mod lock_tests;
#[cfg(test)]
mod playing;
#[cfg(test)]
mod shared;
#[cfg(test)]
mod task;
#[cfg(test)]
mod tests;
#[cfg(test)]
mod turns;
#[cfg(test)]
mod writers;
