//! The steps of scripts that are played.
ghost use Rattle.std.specs.Prelude.{◌≡◌, ◌++◌, IfOk, codes, decimal};
ghost use Rattle.poa_base.specs.Limits.{IsName};
ghost use Rattle.poad_load.specs.Schedule as schedule;

use crate::draw::Draw;
use poa_base::{Bytes, Datum, Name, Oid, Path, WantMemory};
use replay_script::Step;
use std::alloc::Global;

/// How many connections there are: four of clients, and the administrator's.
pub(crate) const CONNECTIONS: usize = 5;

/// The place of the administrator's connection.
const ADMINISTRATOR: usize = 4;

/// How a call of a draw comes: an administrator's line, or a request with this id.
pub(crate) fn call_step(alloc: Global, id: u32, draw: Draw) -> Result<Step, WantMemory>
    ensures { IfOk result (λ step. step ≡ schedule.call_step id draw.bits) }
{
    if draw.is_command() {
        deactivation(alloc, draw)
    } else {
        request(alloc, id, draw)
    }
}

/// The administrator ends the run.
pub(crate) fn shutdown(alloc: Global) -> Result<Step, WantMemory>
    ensures { IfOk result (λ step. step ≡ schedule.shutdown) }
{
    Ok(Step::Admin {
        connection: ADMINISTRATOR,
        words: Bytes::from_vec(Vec::from_slice(alloc, b"shutdown")?),
    })
}

/// The names of the connections.
pub(crate) fn names(alloc: Global) -> Result<Vec<Name>, WantMemory>
    ensures { IfOk result (λ all. all.items ≡ schedule.names) }
{
    let mut all = Vec::new(alloc);
    all.push(name(alloc, b"a")?)?;
    all.push(name(alloc, b"b")?)?;
    all.push(name(alloc, b"c")?)?;
    all.push(name(alloc, b"d")?)?;
    all.push(name(alloc, b"m")?)?;
    Ok(all)
}

fn deactivation(alloc: Global, draw: Draw) -> Result<Step, WantMemory>
    ensures { IfOk result (λ step. step ≡ schedule.deactivation draw.bits) }
{
    let object = draw.object();
    let words = format!(in alloc; "deactivate /load t:o{object}")?;
    Ok(Step::Admin {
        connection: ADMINISTRATOR,
        words: Bytes::from_vec(words.into_bytes()),
    })
}

fn request(alloc: Global, id: u32, draw: Draw) -> Result<Step, WantMemory>
    ensures { IfOk result (λ step. step ≡ schedule.request id draw.bits) }
{
    Ok(Step::Ask {
        connection: draw.client(),
        id,
        path: path(alloc)?,
        oid: object_id(alloc, draw)?,
        operation: name(alloc, b"add")?,
        argument: Some(Datum::Long(1)),
    })
}

fn object_id(alloc: Global, draw: Draw) -> Result<Oid, WantMemory>
    ensures { IfOk result (λ oid. oid ≡ schedule.object_id draw.bits) }
{
    let object = draw.object();
    let text = format!(in alloc; "o{object}")?;
    Ok(Oid::from_vec(text.into_bytes()).unwrap())
}

fn path(alloc: Global) -> Result<Path, WantMemory>
    ensures { IfOk result (λ path. path ≡ schedule.path) }
{
    let mut names = Vec::new(alloc);
    names.push(name(alloc, b"load")?)?;
    Ok(Path::from_vec(names).unwrap())
}

fn name(alloc: Global, text: &[u8]) -> Result<Name, WantMemory>
    requires { IsName text.now }
    ensures { IfOk result (λ name. name ≡ text.now) }
{
    Ok(Name::from_vec(Vec::from_slice(alloc, text)?).unwrap())
}
