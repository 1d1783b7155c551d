//! Which lines a connection has had.
ghost use Rattle.std.specs.Prelude.{◌≡◌};
ghost use Rattle.replay_script.specs.Traffic.{allowed, no_traffic, with_role};

use crate::role::Role;

/// Which lines a connection has had.
#[derive(Clone, Copy, Drop)]
pub(crate) struct Traffic {
    pub(crate) calls: bool,
    pub(crate) commands: bool,
    pub(crate) ended: bool,
}

impl Traffic {
    /// That of a connection before its first line.
    pub(crate) fn none() -> Self
        ensures { result ≡ no_traffic }
    {
        Traffic {
            calls: false,
            commands: false,
            ended: false,
        }
    }

    /// That behind one more line.
    pub(crate) fn with(self, role: Role) -> Self
        ensures { result ≡ with_role role self }
    {
        let Traffic {
            calls,
            commands,
            ended,
        } = self;
        match role {
            Role::Call => Traffic {
                calls: true,
                commands,
                ended,
            },
            Role::Command => Traffic {
                calls,
                commands: true,
                ended,
            },
            Role::End => Traffic {
                calls,
                commands,
                ended: true,
            },
            Role::Collect => self,
        }
    }

    /// Whether the connection may have a line of this role next.
    pub(crate) fn allows(self, role: Role) -> bool
        ensures { result ≡ allowed self role }
    {
        match role {
            Role::Call => !self.commands && !self.ended,
            Role::Command => !self.calls && !self.ended,
            Role::End => !self.ended,
            Role::Collect => true,
        }
    }
}
