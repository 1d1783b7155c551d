//! The law of two runs, of which the second opens with what the first stored.
ghost use Rattle.std.specs.Prelude.{ℕ, List};
ghost use Rattle.poa_base.specs.declared.Kind.{Kind};
ghost use Rattle.history_laws.specs.Restarts.{GoesOn, IsStoredAt, KeepsOn, OneRun, RepliesOn, StandsOn};

/// An object's updates are one line over a restart. Let a path and an id have in both runs a servant activator whose first
/// matching rule brings fresh servants of one kind, let each activation of the id in both be begun by a request that had it
/// incarnated, and none be ended first by a destroy that etherealizes nothing. Let one have been etherealized in the first
/// run and all of them be over at its end, or none begun in it; and let the second open with what the first stored for the
/// id. Then the replies
/// of both runs, in order, are those of one servant that opens with what was stored before the first; the servant that the
/// id has in the second is in that one servant's state; and where one was etherealized in it, too, and all are over, that
/// state is what is stored. CORBA 3.3 Part 1, section 15.3.6.
pub fn updates_go_on()
    ensures line { (kind : Kind) (p : List (List ℕ)) (oid : List ℕ)
        (first second : OneRun kind p oid) → GoesOn kind p oid first second
        → RepliesOn kind p oid first second }
    ensures state { (kind : Kind) (p : List (List ℕ)) (oid : List ℕ)
        (first second : OneRun kind p oid) → GoesOn kind p oid first second
        → StandsOn kind p oid first second }
    ensures kept { (kind : Kind) (p : List (List ℕ)) (oid : List ℕ)
        (first second : OneRun kind p oid) → GoesOn kind p oid first second
        → IsStoredAt kind p oid second → KeepsOn kind p oid first second }
{}
