// The name that the root is to have. Takes and hands out a name.

ghost use Rattle.std.specs.Prelude.{◌≡◌, IfOk};

use crate::shared_names::SharedName;
use dir_entry::{Name, Shared};
use std::alloc::{AllocError, Global};
use std::marker::Model;

enum Holding {
    Own(Name),
    Shared(SharedName),
}

// Not derived: see "What the gate takes" in docs/ARCHITECTURE.md.
impl Drop for Holding {
    fn drop(self) {
        match self {
            Holding::Own(_) => {}
            Holding::Shared(_) => {}
        }
    }
}

/// The name that the root is to have. It is in shared memory once there has been a second owner.
pub struct Suffix {
    name: Holding,
}

// Not derived: see "What the gate takes" in docs/ARCHITECTURE.md.
impl Drop for Suffix {
    fn drop(self) {
        let Suffix { name: _ } = self;
    }
}

impl Model for Suffix {
    ghost use Rattle.std.specs.Prelude.{List};
    ghost use Rattle.dir_entry.specs.ldap_dn.Names.{RdnModel};

    ghost Value = { List RdnModel };

    ghost use Rattle.dir_tree.specs.Holdings.{name_held};

    ghost view = { λ s. name_held s.name };
}

impl Suffix {
    /// A name of one's own. It takes no memory.
    pub fn of(name: Name) -> Suffix
        ensures { result ≡ name }
    {
        Suffix {
            name: Holding::Own(name),
        }
    }

    /// The name.
    pub fn get(&self) -> &Name
        ensures { result.now ≡ self.now }
    {
        match &self.name {
            Holding::Own(name) => name,
            Holding::Shared(name) => name.get(),
        }
    }

    /// A second owner: of a name of one's own a copy, of which further owners take no memory.
    pub fn share(&self, alloc: Global) -> Result<Suffix, AllocError>
        ensures { IfOk result (λ s. s ≡ self.now) }
    {
        let name = match &self.name {
            Holding::Own(name) => SharedName::new(alloc, name.copy(alloc)?)?,
            Holding::Shared(name) => name.share()?,
        };
        Ok(Suffix {
            name: Holding::Shared(name),
        })
    }
}
