//! What a line is to its connection.
ghost use Rattle.std.specs.Prelude.{◌≡◌};
ghost use Rattle.std.specs.Option.{option_map};
ghost use Rattle.replay_script.specs.Connections.{entered_by_line, is_void as is_void_line, role_of as the_role_of};

use poa_base::{Name, ScriptLine};

/// What a line is to its connection.
#[derive(Clone, Copy, Drop)]
pub(crate) enum Role {
    /// It brings calls.
    Call,
    /// It brings an administrator's command.
    Command,
    /// It ends the connection.
    End,
    /// It collects replies.
    Collect,
}

/// The connection of a line, and what the line is to it; none of a line that speaks of no connection.
pub(crate) fn role_of(line: &ScriptLine) -> Option<(&Name, Role)>
    ensures { option_map (λ x. (x.0.now, x.1)) result ≡ the_role_of line.now }
{
    match line {
        ScriptLine::Ask { conn, .. }
        | ScriptLine::Flood { conn, .. }
        | ScriptLine::Feed { conn, .. } => Some((conn, Role::Call)),
        ScriptLine::Admin { conn, .. } => Some((conn, Role::Command)),
        ScriptLine::End { conn } => Some((conn, Role::End)),
        ScriptLine::Collect { conn } => Some((conn, Role::Collect)),
        ScriptLine::Skipped
        | ScriptLine::Step { .. }
        | ScriptLine::Run { .. }
        | ScriptLine::Store
        | ScriptLine::Journal => None,
    }
}

// A flood of no request stands for no line.
fn is_void(line: &ScriptLine) -> bool
    ensures { result ≡ is_void_line line.now }
{
    match line {
        ScriptLine::Flood { count, .. } => *count == 0,
        _ => false,
    }
}

/// The connection that a line enters, where no line before it did.
pub(crate) fn entering(line: &ScriptLine) -> Option<&Name>
    ensures { option_map (λ n. n.now) result ≡ entered_by_line line.now }
{
    if is_void(line) {
        return None;
    }
    match role_of(line) {
        None => None,
        Some((name, _)) => Some(name),
    }
}
