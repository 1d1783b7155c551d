//! The verdict on the command `reference`: the reference of a servant, or the reason why it has none.
ghost use Rattle.std.specs.Prelude.{◌≡◌, suc, IfOk};
ghost use Rattle.history_standing.specs.Commands as rows;
ghost use Rattle.history_standing.specs.Opening.{made_id as id_made};
ghost use Rattle.core_standing.specs.Seen.{seen};

use crate::answered::refusal;
use crate::references::reference_text;
use core_standing::Standing;
use core_standing::asked_commands::{is_implicit, live_at, referred};
use core_standing::ids::{made_id, next};
use history_standing::Node;
use history_standing::templates::servant_number;
use poa_base::{Answer, Config, Name, Oid, Path, Reason, Verdict, WantMemory};
use std::alloc::Global;

/// The answer with the reference of an id.
fn ior_row(
    alloc: Global,
    config: &Config,
    run: u32,
    node: &Node,
    path: &Path,
    oid: &Oid,
    servant: u32,
) -> Result<Option<Verdict>, WantMemory>
    ensures { IfOk result
        (λ verdict. verdict ≡ rows.ior_row config.now run node.now path.now oid.now servant) }
{
    let text = reference_text(alloc, config, run, node.number, path, oid, servant)?;
    Ok(Some(Verdict::Answer(Answer::GoodIor(text))))
}

/// The reference under the next system-made id.
fn made_ior_row(
    alloc: Global,
    config: &Config,
    run: u32,
    standing: &Standing,
    node: &Node,
    path: &Path,
    servant: u32,
) -> Result<Option<Verdict>, WantMemory>
    ensures { IfOk result
        (λ verdict. verdict ≡ rows.ior_row config.now run node.now path.now
        (id_made run (suc standing.now.made)) servant) }
{
    let ordinal = next(standing.made)?;
    let oid = made_id(alloc, run, ordinal)?;
    ior_row(alloc, config, run, node, path, &oid, servant)
}

/// The reference of a servant that the adapter activates under a system-made id.
fn implicit_row(
    alloc: Global,
    config: &Config,
    run: u32,
    standing: &Standing,
    node: &Node,
    path: &Path,
    servant: u32,
) -> Result<Option<Verdict>, WantMemory>
    ensures { IfOk result
        (λ verdict. verdict ≡ rows.implicit_row config.now run (seen standing.now) node.now path.now
        servant) }
{
    if is_implicit(config, standing, node, servant) {
        made_ior_row(alloc, config, run, standing, node, path, servant)
    } else {
        Ok(refusal(Reason::ServantNotActive))
    }
}

/// The reference of a servant that the adapter knows or activates.
fn servant_row(
    alloc: Global,
    config: &Config,
    run: u32,
    standing: &Standing,
    node: &Node,
    path: &Path,
    servant: u32,
) -> Result<Option<Verdict>, WantMemory>
    ensures { IfOk result
        (λ verdict. verdict ≡ rows.servant_row config.now run (seen standing.now) node.now path.now
        servant) }
{
    match referred(config, standing, node, servant) {
        Some(activation) => ior_row(alloc, config, run, node, path, &activation.oid, servant),
        None => implicit_row(alloc, config, run, standing, node, path, servant),
    }
}

/// The reference of a servant of an adapter that stands.
pub fn reference_row(
    alloc: Global,
    config: &Config,
    run: u32,
    standing: &Standing,
    path: &Path,
    servant: &Name,
) -> Result<Option<Verdict>, WantMemory>
    ensures { IfOk result
        (λ verdict. verdict ≡ rows.reference_row config.now run (seen standing.now) path.now
        servant.now) }
{
    let Some(node) = live_at(standing, path.as_slice()) else {
        return Ok(refusal(Reason::AdapterNonExistent));
    };
    let Some(number) = servant_number(config, servant)? else {
        return Ok(refusal(Reason::NoServant));
    };
    servant_row(alloc, config, run, standing, node, path, number)
}
