//! Why a name isn't found.
ghost use Rattle.std.specs.Prelude.{◌≡◌};
ghost use Rattle.naming_context.specs.Outcomes.{reason_number as number_of};

/// Why a name isn't found: `NotFoundReason` of CosNaming.
#[derive(Clone, Copy)]
pub enum Reason {
    /// The component isn't bound.
    MissingNode,
    /// The component is bound to a reference, and it isn't the last one.
    NotContext,
    /// The last component is bound to a context, where a reference is to take its place.
    NotObject,
}

impl Reason {
    /// The number of the reason in a message.
    pub(crate) fn number(self) -> u32
        ensures { result ≡ number_of self }
    {
        match self {
            Reason::MissingNode => 0,
            Reason::NotContext => 1,
            Reason::NotObject => 2,
        }
    }
}
