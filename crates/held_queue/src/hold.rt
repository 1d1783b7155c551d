//! Why a call is held.

/// Why a request or a locate is held: CORBA 3.3 Part 1, sections 15.2.3 and 15.3.
#[derive(Clone, Copy, PartialEq, Eq, Drop)]
pub enum Hold {
    /// This manager is in the state HOLDING.
    Manager(u32),
    /// A trial of the missing child of this adapter is in flight.
    Trial(u32),
    /// A request is in flight in this adapter, under SINGLE_THREAD_MODEL.
    Turn(u32),
    /// Under MAIN_THREAD_MODEL the call is for the first worker.
    Main,
    /// This activation of its id is on its way in or out.
    Id(u32),
    /// An incarnation or etherealization is unfinished in this adapter, which has a servant activator.
    Change(u32),
}
