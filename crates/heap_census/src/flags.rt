//! Which roles a cell was found to have.
ghost use Rattle.heap_census.specs.Flags.{has_any, has_role, no_roles, with_role};
ghost use Rattle.std.specs.Prelude.{◌≡◌};

use crate::layouts::Role;

#[derive(Clone, Copy)]
pub(crate) struct Roles {
    pub anchor: bool,
    pub version: bool,
    pub node: bool,
    pub entry: bool,
    pub text: bool,
}

impl Roles {
    /// None so far.
    pub(crate) fn none() -> Roles
        ensures { result ≡ no_roles }
    {
        Roles {
            anchor: false,
            version: false,
            node: false,
            entry: false,
            text: false,
        }
    }

    pub(crate) fn has(self, role: Role) -> bool
        ensures { result ≡ has_role self role }
    {
        match role {
            Role::Anchor => self.anchor,
            Role::Version => self.version,
            Role::Node => self.node,
            Role::Entry => self.entry,
            Role::Text => self.text,
        }
    }

    pub(crate) fn has_any(self) -> bool
        ensures { result ≡ has_any self }
    {
        self.anchor || self.version || self.node || self.entry || self.text
    }

    /// These and one more.
    pub(crate) fn with(self, role: Role) -> Roles
        ensures { result ≡ with_role self role }
    {
        let mut roles = self;
        match role {
            Role::Anchor => roles.anchor = true,
            Role::Version => roles.version = true,
            Role::Node => roles.node = true,
            Role::Entry => roles.entry = true,
            Role::Text => roles.text = true,
        }
        roles
    }
}
