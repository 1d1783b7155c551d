//! What is said of activations.
ghost use Rattle.std.specs.Prelude.{◌≡◌, ◌==◌, ◌&&◌};
ghost use Rattle.history_standing.specs.Standings as stands;

use history_standing::{Activation, Phase};
use poa_base::Sid;

/// Whether the activation has its servant.
pub fn is_complete(activation: &Activation) -> bool
    ensures { result ≡ stands.is_complete activation.now }
{
    match activation.phase {
        Phase::Complete(_) => true,
        Phase::Begun | Phase::Void => false,
    }
}

/// Whether its incarnation brought no servant.
pub fn is_void(activation: &Activation) -> bool
    ensures { result ≡ stands.is_void activation.now }
{
    match activation.phase {
        Phase::Void => true,
        Phase::Begun | Phase::Complete(_) => false,
    }
}

/// Whether its servant is still being incarnated.
pub fn is_begun(activation: &Activation) -> bool
    ensures { result ≡ stands.is_begun activation.now }
{
    match activation.phase {
        Phase::Begun => true,
        Phase::Complete(_) | Phase::Void => false,
    }
}

/// Whether an activation that isn't void is ending.
pub fn is_ending(activation: &Activation) -> bool
    ensures { result ≡ stands.is_ending activation.now }
{
    activation.ending && !is_void(activation)
}

/// Whether the id can be served by this activation.
pub fn is_active(activation: &Activation) -> bool
    ensures { result ≡ stands.is_active activation.now }
{
    is_complete(activation) && !activation.ending
}

/// Whether the servant is in the active object map by this activation.
pub fn is_mapped(activation: &Activation) -> bool
    ensures { result ≡ stands.is_mapped activation.now }
{
    is_complete(activation) && !activation.out
}

/// Whether both are the same servant.
pub fn same_servant(one: Sid, other: Sid) -> bool
    ensures { result ≡ stands.same_servant one other }
{
    match one {
        Sid::Named(j) => match other {
            Sid::Named(k) => j == k,
            Sid::Fresh(_) => false,
        },
        Sid::Fresh(m) => match other {
            Sid::Fresh(n) => m == n,
            Sid::Named(_) => false,
        },
    }
}

/// Whether the activation has this servant.
pub fn has_servant(servant: Sid, activation: &Activation) -> bool
    ensures { result ≡ stands.has_servant servant activation.now }
{
    match activation.phase {
        Phase::Complete(its) => same_servant(its, servant),
        Phase::Begun | Phase::Void => false,
    }
}

/// Whether the activation is of this id of this adapter.
pub fn is_of(adapter: u32, oid: &[u8], activation: &Activation) -> bool
    ensures { result ≡ stands.is_of adapter oid.now activation.now }
{
    activation.adapter == adapter && activation.oid.as_slice() == oid
}
