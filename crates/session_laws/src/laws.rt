//! The laws of sessions.
ghost use Rattle.std.specs.Prelude.{◌≡◌, ℕ, List, ◌++◌};
ghost use Rattle.poa_base.specs.declared.Entry.{Entry};
ghost use Rattle.poa_base.specs.declared.SessionEnd.{SessionEnd};
ghost use Rattle.poa_history.specs.declared.Givens.{Givens};
ghost use Rattle.poa_history.specs.Owners.{HasNone};
ghost use Rattle.poa_history.specs.GivenRuns.{IsLog};
ghost use Rattle.session_laws.specs.declared.peer.Peer.{Peer};
ghost use Rattle.session_laws.specs.Hearing.{Heard, Stop};
ghost use Rattle.session_laws.specs.Sessions.{Hears, Session};

/// A session stays what it is while others make entries of the run.
pub fn sessions_stay()
    ensures { (g : Givens) (peer : Peer) (log more : List Entry) (c : ℕ) (text out : List ℕ)
        (end : SessionEnd)
        → IsLog g (log ++ more) → HasNone c more → Session g peer log c text out end
        → Session g peer (log ++ more) c text out end }
{}

/// Of one text of a peer one thing is heard.
pub fn one_hearing()
    ensures { (peer : Peer) (text : List ℕ) (calls others : List Heard) (stop other : Stop)
        → Hears peer text calls stop → Hears peer text others other
        → (calls ≡ others) × (stop ≡ other) }
{}
