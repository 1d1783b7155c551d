//! The rows of the table of verdicts in words.
ghost use Rattle.std.specs.Prelude.{◌≡◌};
ghost use Rattle.poad_audit.specs.Story as printed;

use journal_explain::Row;

/// What a row says of the call that it decides.
pub(crate) fn row_text(row: Row) -> &'static str
    ensures { result.now ≡ printed.row_text row }
{
    match row {
        Row::Crowded => "when it arrived, 65536 requests and locates stood unadmitted",
        Row::NoKey => "its target gives no key",
        Row::BadKey => "its key is no spelling of one",
        Row::OtherRun => "its key is transient and of another run",
        Row::AdapterDying => "an adapter on the way from the root is being destroyed",
        Row::ChildGone => "an adapter of its path is missing, and its key is transient",
        Row::ParentManager =>
            "an adapter of its path is missing, and the manager of the one above isn't ACTIVE",
        Row::ChildTried => "an adapter of its path is missing, and a trial of it is in flight",
        Row::ChildActivator =>
            "an adapter of its path is missing, and the adapter activator above is asked",
        Row::ChildForward =>
            "an adapter of its path is missing, and the endpoint table has an entry for the path",
        Row::ChildMissing => "an adapter of its path is missing",
        Row::OtherLifespan =>
            "its key has another lifespan than the adapter, or is of an adapter that stood there before",
        Row::OtherTag => "its key has another tag than the adapter",
        Row::Manager => "the manager of its adapter isn't ACTIVE",
        Row::Thread => "the thread policy of its adapter lets it wait",
        Row::Active => "its object is active",
        Row::Changing => "its object is on its way into the active object map or out of it",
        Row::NotActive => "its object isn't active, and its adapter brings none",
        Row::DefaultServant => "its object isn't active, and the default servant serves it",
        Row::NoDefaultServant => "its object isn't active, and no default servant is set",
        Row::NoServantManager => "its object isn't active, and its adapter has no servant manager",
        Row::ActivatorHere => "its object isn't active, and the servant activator may bring it",
        Row::ActivatorBusy =>
            "its object isn't active, and the servant activator is at another one",
        Row::Incarnate => "its object isn't active, and the servant activator is asked",
        Row::LocatorHere => "the servant locator may find its object",
        Row::Locator => "the servant locator has a rule for its object",
        Row::NoRule => "the servant locator has no rule for its object",
    }
}

/// Why a call was admitted: by a row, or as a command.
pub(crate) fn reason_text(row: Option<Row>) -> &'static str
    ensures { result.now ≡ printed.reason_text row }
{
    match row {
        Some(row) => row_text(row),
        None => "it is a command",
    }
}
