//! The entries of a history.
use crate::copy::TryClone;
use crate::endpoint::Endpoint;
use crate::exception::SysExc;
use crate::message::Call;
use crate::name::Name;
use crate::verdict::Verdict;
use std::alloc::AllocError;

/// What the adapter activator answered: CORBA 3.3 Part 1, chapter 15, AdapterActivator.
#[derive(Clone, Copy, PartialEq, Eq, Drop)]
pub enum Attempt {
    /// The child is created, under this number.
    Yes { number: u32 },
    No,
    Raised,
    /// The parent is being destroyed.
    Dying,
}

/// What the servant activator brought: CORBA 3.3 Part 1, chapter 15, ServantActivator.
#[derive(Clone, PartialEq, Eq, Drop)]
pub enum Incarnation {
    /// A new servant, under this number.
    Fresh(u32),
    /// A configured servant.
    Named(Name),
    /// A configured servant that is active already where ids are unique.
    Double,
    Forward(Endpoint),
    Raise(SysExc),
}

/// One step of the server. The journal is the list of them.
#[derive(Clone, PartialEq, Eq, Drop)]
pub enum Entry {
    /// A connection came.
    Entered {
        conn: u32,
    },
    /// A call came, in a message of so many bytes.
    Arrive {
        conn: u32,
        size: u64,
        call: Call,
    },
    /// A call would have passed the limits of the run; the connection takes no more.
    Filled {
        conn: u32,
        size: u64,
    },
    /// A connection left.
    Left {
        conn: u32,
    },
    /// The reply to an arrival was taken for writing.
    Collect {
        conn: u32,
        arrival: u64,
    },
    /// The verdict on an arrival.
    Admit {
        worker: u32,
        arrival: u64,
        verdict: Verdict,
    },
    /// The adapter activator answered.
    Tried {
        worker: u32,
        answer: Attempt,
    },
    /// The servant activator answered.
    Incarnated {
        worker: u32,
        answer: Incarnation,
    },
    /// The servant acted.
    Run {
        worker: u32,
    },
    /// The request ended.
    Done {
        worker: u32,
    },
    /// An activation was taken out of the map.
    TakeOut {
        worker: u32,
        activation: u32,
        etherealize: bool,
    },
    /// The servant taken out was etherealized.
    Etherealized {
        worker: u32,
        cleanup: bool,
        remaining: bool,
    },
    /// A worker gave the run up.
    Abandon {
        worker: u32,
    },
}

impl TryClone for Incarnation {
    fn try_clone(&self) -> Result<Self, AllocError> {
        self.clone()
    }
}

impl TryClone for Entry {
    fn try_clone(&self) -> Result<Self, AllocError> {
        self.clone()
    }
}
