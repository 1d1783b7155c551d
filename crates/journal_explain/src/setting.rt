//! What is set, by which calls are held and decided.
ghost use Rattle.std.specs.Prelude.{◌≡◌};
ghost use Rattle.journal_explain.specs.Origins as origins;

use poa_base::Path;

/// What the configuration sets, and the administrator's commands change.
#[derive(Drop)]
pub enum Setting {
    /// The state of the manager of this number: 0 is `root`, and the configured ones follow.
    Manager(u32),
    /// The default servant of the adapter at this path.
    DefaultServant(Path),
    /// The endpoint of this path.
    Endpoint(Path),
}

impl Setting {
    /// Whether it is the same that both speak of.
    pub(crate) fn is(&self, other: &Setting) -> bool
        ensures { result ≡ origins.same_setting self.now other.now }
    {
        match (self, other) {
            (Setting::Manager(one), Setting::Manager(other)) => one == other,
            (Setting::DefaultServant(one), Setting::DefaultServant(other)) => one == other,
            (Setting::Endpoint(one), Setting::Endpoint(other)) => one == other,
            _ => false,
        }
    }
}
