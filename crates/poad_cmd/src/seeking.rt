//! What a command asks of the calls of a journal.
ghost use Rattle.std.specs.Prelude.{◌≡◌};
ghost use Rattle.poad_cmd.specs.Commands as commands;

use command_words::CallsAsked;
use journal_explain::Selection;

/// What words ask for.
pub(crate) fn sought(calls: CallsAsked) -> Selection
    ensures { result ≡ commands.sought calls }
{
    match calls {
        CallsAsked::Arrival(arrival) => Selection::Arrival(u64::from(arrival)),
        CallsAsked::Call { conn, id } => Selection::Call { conn, id },
        CallsAsked::Object { path, oid } => Selection::Object { path, oid },
        CallsAsked::Picture { from, to } => Selection::Picture {
            from: u64::from(from),
            to: u64::from(to),
        },
        CallsAsked::All => Selection::All,
    }
}
