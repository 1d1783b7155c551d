//! Whether two commands are one and the same.
ghost use Rattle.std.specs.Prelude.{◌≡◌, ◌↔◌, IsTrue};
ghost use Rattle.poa_base.specs.declared.Command.{Command as Commands};

use poa_base::{Command, Endpoint, Name, Oid, Order, Path};

/// Whether two commands are one and the same.
pub(crate) fn same_command(a: &Command, b: &Command) -> bool
    ensures { IsTrue result ↔ (a.now ≡ b.now) }
{
    match a {
        Command::Manager { manager, order } => is_manager(b, manager, order),
        Command::Create { path } => is_create(b, path),
        Command::Destroy {
            path,
            etherealize,
            wait,
        } => is_destroy(b, path, *etherealize, *wait),
        Command::Activate { path, servant } => is_activate(b, path, servant),
        Command::ActivateId { path, oid, servant } => is_activate_id(b, path, oid, servant),
        Command::Deactivate { path, oid } => is_deactivate(b, path, oid),
        Command::Reference { path, servant } => is_reference(b, path, servant),
        Command::Preset { path, servant } => is_preset(b, path, servant),
        Command::Forward { path, endpoint } => is_forward(b, path, endpoint),
        Command::Unforward { path } => is_unforward(b, path),
        Command::Shutdown => is_shutdown(b),
        Command::Bad { word } => is_bad(b, *word),
    }
}

/// Whether it is the order to that manager.
fn is_manager(command: &Command, manager: &Name, order: &Order) -> bool
    ensures { IsTrue result ↔ (Commands.Manager manager.now order.now ≡ command.now) }
{
    match command {
        Command::Manager {
            manager: first,
            order: second,
        } => manager == first && order == second,
        _ => false,
    }
}

/// Whether it is the creation at that path.
fn is_create(command: &Command, path: &Path) -> bool
    ensures { IsTrue result ↔ (Commands.Create path.now ≡ command.now) }
{
    match command {
        Command::Create { path: first } => same_path(path, first),
        _ => false,
    }
}

/// Whether it is the destruction at that path, with these flags.
fn is_destroy(command: &Command, path: &Path, etherealize: bool, wait: bool) -> bool
    ensures { IsTrue result ↔ (Commands.Destroy path.now etherealize wait ≡ command.now) }
{
    match command {
        Command::Destroy {
            path: first,
            etherealize: second,
            wait: third,
        } => same_path(path, first) && (etherealize == *second && wait == *third),
        _ => false,
    }
}

/// Whether it is the activation at that path of that servant.
fn is_activate(command: &Command, path: &Path, servant: &Name) -> bool
    ensures { IsTrue result ↔ (Commands.Activate path.now servant.now ≡ command.now) }
{
    match command {
        Command::Activate {
            path: first,
            servant: second,
        } => same_path(path, first) && servant == second,
        _ => false,
    }
}

/// Whether it is the activation at that path of that servant under that id.
fn is_activate_id(command: &Command, path: &Path, oid: &Oid, servant: &Name) -> bool
    ensures { IsTrue result ↔ (Commands.ActivateId path.now oid.now servant.now ≡ command.now) }
{
    match command {
        Command::ActivateId {
            path: first,
            oid: second,
            servant: third,
        } => same_path(path, first) && (oid == second && servant == third),
        _ => false,
    }
}

/// Whether it is the deactivation at that path of that id.
fn is_deactivate(command: &Command, path: &Path, oid: &Oid) -> bool
    ensures { IsTrue result ↔ (Commands.Deactivate path.now oid.now ≡ command.now) }
{
    match command {
        Command::Deactivate {
            path: first,
            oid: second,
        } => same_path(path, first) && oid == second,
        _ => false,
    }
}

/// Whether it is the reference at that path of that servant.
fn is_reference(command: &Command, path: &Path, servant: &Name) -> bool
    ensures { IsTrue result ↔ (Commands.Reference path.now servant.now ≡ command.now) }
{
    match command {
        Command::Reference {
            path: first,
            servant: second,
        } => same_path(path, first) && servant == second,
        _ => false,
    }
}

/// Whether it is the default servant at that path.
fn is_preset(command: &Command, path: &Path, servant: &Name) -> bool
    ensures { IsTrue result ↔ (Commands.Preset path.now servant.now ≡ command.now) }
{
    match command {
        Command::Preset {
            path: first,
            servant: second,
        } => same_path(path, first) && servant == second,
        _ => false,
    }
}

/// Whether it is the forward of that path to that endpoint.
fn is_forward(command: &Command, path: &Path, endpoint: &Endpoint) -> bool
    ensures { IsTrue result ↔ (Commands.Forward path.now endpoint.now ≡ command.now) }
{
    match command {
        Command::Forward {
            path: first,
            endpoint: second,
        } => same_path(path, first) && endpoint == second,
        _ => false,
    }
}

/// Whether it is the end of the forward of that path.
fn is_unforward(command: &Command, path: &Path) -> bool
    ensures { IsTrue result ↔ (Commands.Unforward path.now ≡ command.now) }
{
    match command {
        Command::Unforward { path: first } => same_path(path, first),
        _ => false,
    }
}

/// Whether it is the shutdown.
fn is_shutdown(command: &Command) -> bool
    ensures { IsTrue result ↔ (Commands.Shutdown ≡ command.now) }
{
    matches!(command, Command::Shutdown)
}

/// Whether it is the line that is none from that word on.
fn is_bad(command: &Command, word: u32) -> bool
    ensures { IsTrue result ↔ (Commands.Bad word ≡ command.now) }
{
    match command {
        Command::Bad { word: first } => word == *first,
        _ => false,
    }
}

/// Whether two paths are one and the same.
fn same_path(a: &Path, b: &Path) -> bool
    ensures { IsTrue result ↔ (a.now ≡ b.now) }
{
    a == b
}
