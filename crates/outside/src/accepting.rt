//! A door: where links come in.
ghost use Rattle.std.specs.Prelude.{◌≡◌, ◌≢◌, ◌<◌, ℕ, Option, IfSome};
ghost use Rattle.outside.specs.Cause.{HasCause};
ghost use Rattle.outside.specs.Told.{IfTold};
ghost use Rattle.outside.specs.Accepting.{Standing, Opens, TakesBack};

use crate::linking::Link;
use poa_base::Session;

/// What came in.
#[derive(Drop)]
pub enum Door<L> {
    Link(L),
    /// Nobody is there now.
    Quiet,
    /// No link is left, and none will come.
    End,
    /// The acceptor failed, and counted it.
    Failed,
}

/// Where links come in, and where they go back to when their sessions have ended.
pub trait Acceptor {
    type Link: Link;

    /// The links left, those that are out and those given back, where the acceptor tells them.
    ghost standing: { Self → Option (Standing Self.Link) };

    /// How many calls of `next` failed.
    ghost faults: { Self → ℕ };

    /// How many calls of `next` found nobody there for now.
    ghost quiets: { Self → ℕ };

    /// How many calls of `next` found that no link is left, and that none will come.
    ghost ends: { Self → ℕ };

    /// The next link.
    fn next(&mut self) -> Door<Self::Link>
        ensures standing { IfTold (standing self.old) (standing self.new) (Opens result) }
        ensures failed { HasCause (faults self.old) (faults self.new) (result ≡ Door.Failed) }
        ensures counted { result ≢ Door.Failed → faults self.new ≡ faults self.old }
        ensures quiet { HasCause (quiets self.old) (quiets self.new) (result ≡ Door.Quiet) }
        ensures ended { HasCause (ends self.old) (ends self.new) (result ≡ Door.End) };

    /// Takes a link back, with how its session ended.
    fn give_back(&mut self, link: Self::Link, session: Session)
        requires { IfSome (standing self.old) (λ s. 0 < s.out) }
        ensures standing { IfTold (standing self.old) (standing self.new) (TakesBack link session) }
        ensures faults { faults self.new ≡ faults self.old }
        ensures quiets { quiets self.new ≡ quiets self.old }
        ensures ends { ends self.new ≡ ends self.old };
}
