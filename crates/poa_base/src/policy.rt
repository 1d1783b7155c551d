//! The policies of an adapter: CORBA 3.3 Part 1, chapter 15.
ghost use Rattle.std.specs.Prelude.{◌≡◌};
ghost use Rattle.poa_base.specs.Policies.{is_single_thread, is_main_thread, is_persistent, is_unique_id, is_multiple_id, is_system_id, is_implicit, is_retain, is_map_only, is_default_servant, is_servant_manager};

/// The values of the seven kinds of policy.
#[derive(Clone, Copy, Drop)]
pub enum Policy {
    /// Thread: ORB_CTRL_MODEL.
    OrbCtrl,
    /// Thread: SINGLE_THREAD_MODEL.
    SingleThread,
    /// Thread: MAIN_THREAD_MODEL.
    MainThread,
    /// Lifespan: TRANSIENT.
    Transient,
    /// Lifespan: PERSISTENT.
    Persistent,
    /// Id uniqueness: UNIQUE_ID.
    UniqueId,
    /// Id uniqueness: MULTIPLE_ID.
    MultipleId,
    /// Id assignment: SYSTEM_ID.
    SystemId,
    /// Id assignment: USER_ID.
    UserId,
    /// Implicit activation: NO_IMPLICIT_ACTIVATION.
    NoImplicit,
    /// Implicit activation: IMPLICIT_ACTIVATION.
    Implicit,
    /// Servant retention: RETAIN.
    Retain,
    /// Servant retention: NON_RETAIN.
    NonRetain,
    /// Request processing: USE_ACTIVE_OBJECT_MAP_ONLY.
    MapOnly,
    /// Request processing: USE_DEFAULT_SERVANT.
    DefaultServant,
    /// Request processing: USE_SERVANT_MANAGER.
    ServantManager,
}

/// One policy of each kind.
#[derive(Clone, Copy, Drop)]
pub struct PolicySet {
    pub thread: Policy,
    pub lifespan: Policy,
    pub uniqueness: Policy,
    pub assignment: Policy,
    pub implicit: Policy,
    pub retention: Policy,
    pub processing: Policy,
}

impl PolicySet {
    /// Whether it has SINGLE_THREAD_MODEL.
    pub fn is_single_thread(self) -> bool
        ensures { result ≡ is_single_thread self.thread }
    {
        matches!(self.thread, Policy::SingleThread)
    }

    /// Whether it has MAIN_THREAD_MODEL.
    pub fn is_main_thread(self) -> bool
        ensures { result ≡ is_main_thread self.thread }
    {
        matches!(self.thread, Policy::MainThread)
    }

    /// Whether it has PERSISTENT.
    pub fn lasts(self) -> bool
        ensures { result ≡ is_persistent self.lifespan }
    {
        matches!(self.lifespan, Policy::Persistent)
    }

    /// Whether it has UNIQUE_ID.
    pub fn is_unique(self) -> bool
        ensures { result ≡ is_unique_id self.uniqueness }
    {
        matches!(self.uniqueness, Policy::UniqueId)
    }

    /// Whether it has MULTIPLE_ID.
    pub fn is_multiple(self) -> bool
        ensures { result ≡ is_multiple_id self.uniqueness }
    {
        matches!(self.uniqueness, Policy::MultipleId)
    }

    /// Whether it has SYSTEM_ID.
    pub fn makes_ids(self) -> bool
        ensures { result ≡ is_system_id self.assignment }
    {
        matches!(self.assignment, Policy::SystemId)
    }

    /// Whether it has IMPLICIT_ACTIVATION.
    pub fn activates_implicitly(self) -> bool
        ensures { result ≡ is_implicit self.implicit }
    {
        matches!(self.implicit, Policy::Implicit)
    }

    /// Whether it has RETAIN.
    pub fn retains(self) -> bool
        ensures { result ≡ is_retain self.retention }
    {
        matches!(self.retention, Policy::Retain)
    }

    /// Whether it has USE_ACTIVE_OBJECT_MAP_ONLY.
    pub fn uses_map_only(self) -> bool
        ensures { result ≡ is_map_only self.processing }
    {
        matches!(self.processing, Policy::MapOnly)
    }

    /// Whether it has USE_DEFAULT_SERVANT.
    pub fn uses_default_servant(self) -> bool
        ensures { result ≡ is_default_servant self.processing }
    {
        matches!(self.processing, Policy::DefaultServant)
    }

    /// Whether it has USE_SERVANT_MANAGER.
    pub fn uses_servant_manager(self) -> bool
        ensures { result ≡ is_servant_manager self.processing }
    {
        matches!(self.processing, Policy::ServantManager)
    }
}
