//! The laws of how a run ends.
ghost use Rattle.std.specs.Prelude.{◌≡◌, ℕ, ◌≤◌, ◌<◌, ◌⊎◌, true, List, ◌++◌, None, Some};
ghost use Rattle.poa_base.specs.declared.Entry.{Entry};
ghost use Rattle.history_standing.specs.Arrivals.{arrivals, conn_of, connections};
ghost use Rattle.history_standing.specs.Stages.{stage};
ghost use Rattle.poa_history.specs.Turns.{turn};
ghost use Rattle.history_standing.specs.declared.stage.Stage.TheVariants.{Free};
ghost use Rattle.history_laws.specs.Undone.{AreIdle, IsAllOver};
ghost use Rattle.poa_history.specs.Leaving.{is_shut};
ghost use Rattle.poa_history.specs.declared.givens.Givens.{Givens};
ghost use Rattle.poa_history.specs.GivenRuns.{IsHistory};
ghost use Rattle.history_laws.specs.Closing.{HasNoTurn, IsClosed, IsOver};

/// Where a `shutdown` was admitted, whatever it was answered, and no worker has a next entry, every activation is void or
/// finished, and every call is decided.
pub fn shut_runs_end()
    ensures { (g : Givens) (h : List Entry) → IsHistory g h → AreIdle g.config g.run h
        → is_shut h ≡ true → IsAllOver g.config g.run h }
{}

/// A worker without a next entry has begun nothing.
pub fn idle_workers_are_free()
    ensures { (g : Givens) (h : List Entry) (worker : ℕ) → IsHistory g h
        → turn g.config g.run h worker ≡ None → stage h worker ≡ Free }
{}

/// Where one worker has closed, no worker has begun anything, and from then on none makes an entry, the run is over for
/// good.
pub fn closed_runs_are_over()
    ensures { (g : Givens) (more h : List Entry) (worker : ℕ) → IsHistory g (more ++ h)
        → IsClosed g worker h → ((w : ℕ) → stage h w ≡ Free)
        → HasNoTurn more → IsOver g more h }
{}

/// Once a worker has closed, a call can still arrive only on the first connection, or on one that entered since.
pub fn late_calls_come_on_late_connections()
    ensures { (g : Givens) (more h : List Entry) (worker r conn : ℕ) → IsHistory g (more ++ h)
        → IsClosed g worker h → arrivals h ≤ r
        → r < arrivals (more ++ h) → conn_of (more ++ h) r ≡ Some conn
        → (conn ≡ 0) ⊎ (connections h ≤ conn) }
{}
