//! What the tables of cases don't reach: the texts of faults, journals that are read, what a view lends, streams of millions
//! of parts, what is said of an illegal history, and the outside world over standard streams, files, threads and sockets. It
//! is tests alone.
#![tactic(auto)]

#[cfg(test)]
mod alarms;
#[cfg(test)]
mod fields;
#[cfg(test)]
mod journals;
#[cfg(test)]
mod legality;
#[cfg(test)]
mod lent;
#[cfg(test)]
mod replies;
#[cfg(test)]
mod sockets;
#[cfg(test)]
mod states;
#[cfg(test)]
mod statuses;
#[cfg(test)]
mod streams;
#[cfg(test)]
mod waiting;
#[cfg(test)]
mod worlds;
