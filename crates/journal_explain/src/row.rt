//! The rows of the table of verdicts.

/// A row of the table of verdicts on a request or a locate, in the order of the table: CORBA 3.3 Part 1, sections 15.2.3 and
/// 15.3. The first that applies decides.
#[derive(Clone, Copy, PartialEq, Eq, Drop)]
pub enum Row {
    /// When the call arrived, too many requests and locates stood unadmitted.
    Crowded,
    /// The target gives no key.
    NoKey,
    /// The key is no spelling of one.
    BadKey,
    /// The key is transient and of another run.
    OtherRun,
    /// An adapter on the way from the root is being destroyed.
    AdapterDying,
    /// A child is missing, and the key is transient.
    ChildGone,
    /// A child is missing, and its parent's manager isn't ACTIVE.
    ParentManager,
    /// A child is missing, and a trial of it is in flight.
    ChildTried,
    /// A child is missing, and its parent has an adapter activator.
    ChildActivator,
    /// A child is missing, and the endpoint table has an entry for the path.
    ChildForward,
    /// A child is missing.
    ChildMissing,
    /// The lifespan differs, or the number that a transient key gives.
    OtherLifespan,
    /// The key has another tag than the adapter.
    OtherTag,
    /// The adapter's manager isn't ACTIVE.
    Manager,
    /// A request waits for another one in the adapter, or for the first worker, by the thread policy.
    Thread,
    /// RETAIN: the id is active.
    Active,
    /// RETAIN: the id is on its way into the active object map or out of it.
    Changing,
    /// The id isn't active, and no servant is brought for it.
    NotActive,
    /// USE_DEFAULT_SERVANT, and one is set.
    DefaultServant,
    /// USE_DEFAULT_SERVANT, and none is set.
    NoDefaultServant,
    /// USE_SERVANT_MANAGER, and there is none.
    NoServantManager,
    /// RETAIN: a locate of an id that a servant activator may bring.
    ActivatorHere,
    /// RETAIN: an incarnation or etherealization is unfinished in the adapter.
    ActivatorBusy,
    /// RETAIN: the servant activator incarnates the id.
    Incarnate,
    /// NON_RETAIN: a locate of an id that a servant locator may find.
    LocatorHere,
    /// NON_RETAIN: the servant locator's first rule that matches.
    Locator,
    /// NON_RETAIN: none matches.
    NoRule,
}
