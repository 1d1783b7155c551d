//! What the verdict on a request or a locate asks, and what it gives.
use poa_base::{Cause, Endpoint, ManagerState, Name, PolicySet, SysExc, Verdict};

/// What stands about a request or a locate, in the order in which the table of verdicts asks it.
#[derive(Drop)]
pub struct Facts {
    /// A locate, and not a request.
    pub locate: bool,
    /// Too many calls stood unadmitted when it arrived.
    pub crowded: bool,
    pub key: KeyFact,
    pub walk: WalkFact,
    /// The number of the adapter found, or of the parent of a missing child.
    pub adapter: u32,
    /// The number of that adapter's manager.
    pub manager: u32,
    /// The state of that manager.
    pub state: ManagerState,
    /// A trial of the missing child is in flight.
    pub trial: bool,
    /// The parent has an adapter activator.
    pub tries: bool,
    /// What the endpoint table finds for the key's path.
    pub entry: Option<Endpoint>,
    /// The lifespan differs, or the number of a transient key's adapter.
    pub differs: bool,
    /// The key is persistent and has another tag than the adapter's template.
    pub other_tag: bool,
    pub policies: PolicySet,
    /// A request is in flight in the adapter.
    pub running: bool,
    pub slot: MapFact,
    /// The id is none that the adapter made.
    pub bad_id: bool,
    /// The default servant.
    pub preset: Option<Name>,
    /// The adapter has a servant manager.
    pub rules: bool,
    /// An incarnation or etherealization is unfinished in the adapter.
    pub busy: bool,
    /// The number of the next activation.
    pub next: u32,
    pub located: Located,
}

/// What the target of a call is as a key.
#[derive(Clone, Copy, Drop)]
pub enum KeyFact {
    /// The target gives no key.
    Absent,
    /// The key is no spelling of one.
    Bad,
    /// The key is transient and of another run.
    OtherRun,
    /// The key is transient and of this run.
    Transient,
    Persistent,
}

/// What the walk from the root along the key's path meets.
#[derive(Clone, Copy, Drop)]
pub enum WalkFact {
    /// An adapter that is being destroyed.
    Dying,
    /// A missing child.
    Missing,
    /// The adapter.
    Found,
}

/// What the active object map has for the id.
#[derive(Clone, Copy, Drop)]
pub enum MapFact {
    /// This activation, complete and not ending.
    Active(u32),
    /// This activation, which is on its way in or out.
    Busy(u32),
    Free,
}

/// What the first matching rule of a servant locator gives.
#[derive(Drop)]
pub enum Located {
    Servant(Name),
    Forward(Endpoint),
    Raise(SysExc),
    NoRule,
}

/// What the table of verdicts gives.
#[derive(Drop)]
pub enum Choice {
    Go(Verdict),
    /// The call is held, until its cause changes.
    Held { cause: Option<Cause> },
}
