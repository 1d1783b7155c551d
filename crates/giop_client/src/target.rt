//! By what a client asks an object.
ghost use Rattle.std.specs.Prelude.{◌≡◌, ◌≤◌, IfOk, IfSome};
ghost use Rattle.giop_answer.specs.declared.kind.TheConstants.{MINOR};
ghost use Rattle.giop_client.specs.Target.{IsTarget, MayReach, target_of_body};

use giop_answer::kind::MINOR;
use ior_text::{ProfileBody, read_body};
use poa_base::{Bytes, Endpoint, Ior, Profile, WantMemory};
use std::alloc::Global;

/// By what a client asks an object: where its server listens, its key, and the minor version of GIOP 1 that is spoken.
#[derive(Drop)]
pub struct Target {
    pub endpoint: Endpoint,
    pub key: Bytes,
    pub minor: u8,
}

impl Target {
    /// The target of a reference: its first IIOP profile of a version 1.x whose data can be read.
    pub(crate) fn of(alloc: Global, reference: &Ior) -> Result<Option<Target>, WantMemory>
        ensures target { IfOk result (λ found. IsTarget reference.now found) }
        ensures spoken { IfOk result (λ found. IfSome found (λ target. target.minor ≤ MINOR)) }
    {
        for profile in reference.profiles.as_slice() {
            if let Some(target) = reached_by(alloc, profile)? {
                return Ok(Some(target));
            }
        }
        Ok(None)
    }

    // The target that the data of a profile tell. Of a later version as much is spoken as of 1.2.
    fn told(body: ProfileBody) -> Target
        ensures { result ≡ target_of_body body }
    {
        let ProfileBody {
            minor,
            host,
            port,
            key,
            ..
        } = body;
        Target {
            endpoint: Endpoint { host, port },
            key,
            minor: minor.min(MINOR),
        }
    }
}

// The target that a profile tells, if it is an IIOP profile of a version 1.x whose data can be read.
fn reached_by(alloc: Global, profile: &Profile) -> Result<Option<Target>, WantMemory>
    ensures target { IfOk result (λ found. MayReach profile.now found) }
    ensures spoken { IfOk result (λ found. IfSome found (λ target. target.minor ≤ MINOR)) }
{
    let Some(body) = read_body(alloc, profile)? else {
        return Ok(None);
    };
    if body.major != 1 {
        return Ok(None);
    }
    Ok(Some(Target::told(body)))
}
