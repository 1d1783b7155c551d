//! The commands that were done, and the adapters and activations that they name.
ghost use Rattle.std.specs.Prelude.{◌≡◌, None, if◌then◌else◌, option_copied, reverse};
ghost use Rattle.history_standing.specs.Commands as rows;
ghost use Rattle.history_standing.specs.Arrivals as calls;
ghost use Rattle.history_standing.specs.Logs as logs;
ghost use Rattle.history_standing.specs.Opening as opens;
ghost use Rattle.core_standing.specs.Seen.{seen};

use crate::searches::mapped;
use crate::standing::Standing;
use history_standing::nodes::node_at;
use history_standing::templates::policies_at;
use history_standing::{Activation, Node};
use poa_base::{Answer, Call, Command, Config, Entry, Name, Sid, Verdict};
use poa_history::calls::call_of;

/// Whether the command was done.
pub fn is_accepted(verdict: &Verdict) -> bool
    ensures { result ≡ logs.is_accepted verdict.now }
{
    match verdict {
        Verdict::Answer(Answer::No(_)) => false,
        Verdict::Answer(_) | Verdict::Wait => true,
        _ => false,
    }
}

/// The command of a call.
pub fn command_in<'a>(call: Option<&'a Call>) -> Option<&'a Command>
    ensures { option_copied result ≡ logs.command_in (option_copied call.entry) }
{
    match call {
        Some(Call::Line { command, .. }) => Some(command),
        Some(Call::Request { .. } | Call::Locate { .. }) | None => None,
    }
}

/// The command that the Admit of an arrival does, after the entries before it.
pub fn done_by<'a>(past: &'a [Entry], arrival: u64, verdict: &Verdict) -> Option<&'a Command>
    ensures { option_copied result ≡
        (if logs.is_accepted verdict.now then logs.command_in
        (calls.call_of (reverse past.now) arrival) else None) }
{
    if is_accepted(verdict) {
        command_in(call_of(past, arrival))
    } else {
        None
    }
}

/// The command that an entry does, after the entries before it.
pub fn command_done<'a>(past: &'a [Entry], entry: &Entry) -> Option<&'a Command>
    ensures { option_copied result ≡ logs.command_done (reverse past.now) entry.now }
{
    match entry {
        Entry::Admit {
            arrival,
            verdict,
            ..
        } => done_by(past, *arrival, verdict),
        _ => None,
    }
}

/// The adapter at the path, where it isn't being destroyed.
pub fn live_at<'a>(standing: &'a Standing, path: &[Name]) -> Option<&'a Node>
    ensures { option_copied result ≡ rows.live_at (seen standing.now) path.now }
{
    match node_at(&standing.nodes, path) {
        Some(node) => { if node.dying { None } else { Some(node) } }
        None => None,
    }
}

/// The number of the adapter at a path.
pub fn number_at(standing: &Standing, path: &[Name]) -> u32
    ensures { result ≡ opens.number_at (seen standing.now) path.now }
{
    match node_at(&standing.nodes, path) {
        Some(node) => node.number,
        None => 0,
    }
}

/// The activation by which a servant has its one reference.
pub fn referred<'a>(
    config: &Config,
    standing: &'a Standing,
    node: &Node,
    servant: u32,
) -> Option<&'a Activation>
    ensures { option_copied result ≡ rows.referred config.now (seen standing.now) node.now servant }
{
    let policies = policies_at(config, node.path.as_slice());
    if policies.retains() && policies.is_unique() {
        mapped(standing, node.number, Sid::Named(servant))
    } else {
        None
    }
}

/// Whether the servant is activated under a system-made id.
pub fn is_implicit(config: &Config, standing: &Standing, node: &Node, servant: u32) -> bool
    ensures { result ≡ rows.is_implicit config.now (seen standing.now) node.now servant }
{
    let policies = policies_at(config, node.path.as_slice());
    referred(config, standing, node, servant).is_none()
        && (policies.retains() && policies.activates_implicitly())
}
