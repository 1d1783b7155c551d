//! A connector: where links are opened.
ghost use Rattle.std.specs.Prelude.{◌≡◌, ◌<◌, Option, IfSome};
ghost use Rattle.outside.specs.Cause.{HasCause};
ghost use Rattle.outside.specs.Told.{IfTold};
ghost use Rattle.outside.specs.Connecting.{Calls, Tally, Dials, HangsUp, IsRaised};

use crate::linking::Link;
use poa_base::Endpoint;

/// What came of a dial.
#[derive(Drop)]
pub enum Opened<L> {
    Link(L),
    /// The connector failed, and counted it.
    Failed,
}

/// Where links are opened by whoever asks a server, and where they go back to when they are done with.
pub trait Connector {
    type Link: Link;

    /// The links that were opened and closed, where the connector tells them.
    ghost calls: { Self → Option Calls };

    /// How many dials failed; and the counts of the links that were closed, summed up.
    ghost tally: { Self → Tally };

    /// A link to the endpoint.
    fn dial(&mut self, endpoint: &Endpoint) -> Opened<Self::Link>
        ensures calls { IfTold (calls self.old) (calls self.new) (Dials endpoint.now Self.Link.shown result) }
        ensures failed { HasCause (tally self.old).dial_faults (tally self.new).dial_faults (result ≡ Opened.Failed) }
        ensures reads { (tally self.new).read_faults ≡ (tally self.old).read_faults }
        ensures writes { (tally self.new).write_faults ≡ (tally self.old).write_faults }
        ensures quiets { (tally self.new).quiets ≡ (tally self.old).quiets };

    /// Closes a link, and adds its counts to those of the links closed before.
    fn close(&mut self, link: Self::Link)
        requires { IfSome (calls self.old) (λ calls. 0 < calls.out) }
        ensures calls { IfTold (calls self.old) (calls self.new) (HangsUp (Self.Link.shown link)) }
        ensures dials { (tally self.new).dial_faults ≡ (tally self.old).dial_faults }
        ensures reads { IsRaised (Self.Link.shown link).read_faults (tally self.old).read_faults (tally self.new).read_faults }
        ensures writes { IsRaised (Self.Link.shown link).write_faults (tally self.old).write_faults (tally self.new).write_faults }
        ensures quiets { IsRaised (Self.Link.shown link).quiets (tally self.old).quiets (tally self.new).quiets };
}
