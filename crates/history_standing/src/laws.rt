//! What the words of this crate come to.
ghost use Rattle.std.specs.Prelude.{◌≡◌, ℕ, true, false, ◌≤◌, List, None};
ghost use Rattle.poa_base.specs.declared.Config.{Config};
ghost use Rattle.poa_base.specs.declared.Entry.{Entry};
ghost use Rattle.history_standing.specs.Nodes.{stands_under};
ghost use Rattle.history_standing.specs.Trees.{In};
ghost use Rattle.history_standing.specs.declared.activation.Activation.{Activation};
ghost use Rattle.history_standing.specs.declared.flight.Flight.{Flight};
ghost use Rattle.history_standing.specs.Arrivals.{arrivals, call_of, conn_of};
ghost use Rattle.history_standing.specs.Ends.{is_clear, is_over};
ghost use Rattle.history_standing.specs.Standings.{Standing};

/// Calls are numbered as they arrive: what has no number yet has no call and no connection.
pub fn calls_are_numbered()
    ensures calls { (h : List Entry) (r : ℕ) → arrivals h ≤ r → call_of h r ≡ None }
    ensures connections { (h : List Entry) (r : ℕ) → arrivals h ≤ r → conn_of h r ≡ None }
{}

/// An adapter that goes has nothing left in it or below it: no request or trial is in flight, and each activation is over.
pub fn nothing_is_left()
    ensures idle { (c : Config) (s : Standing) (p : List (List ℕ)) (f : Flight)
        → is_clear c s p ≡ true → In f s.flights
        → stands_under s.nodes p f.adapter ≡ false }
    ensures over { (c : Config) (s : Standing) (p : List (List ℕ)) (a : Activation)
        → is_clear c s p ≡ true → In a s.activations
        → stands_under s.nodes p a.adapter ≡ true → is_over c a ≡ true }
{}
