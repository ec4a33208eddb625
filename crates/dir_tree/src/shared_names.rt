// Names and relative names in memory that is shared. Takes and hands out names.

ghost use Rattle.std.specs.Prelude.{◌≡◌, ◌≤◌, length, IfOk};

use dir_entry::{Name, Rdn, Shared};
use std::alloc::{AllocError, Global};
use std::marker::Model;
use std::sync::Arc;

/// A relative name; a contract sees what it is, not where it lies in memory, nor who else has it.
pub struct SharedRdn {
    rdn: Arc<Rdn>,
}

// Not derived: see "What the gate takes" in docs/ARCHITECTURE.md.
impl Drop for SharedRdn {
    fn drop(self) {
        let SharedRdn { rdn: _ } = self;
    }
}

impl Model for SharedRdn {
    ghost use Rattle.std.specs.Arc.{arc_value};
    ghost use Rattle.dir_entry.specs.ldap_dn.Names.{RdnModel};

    ghost Value = { RdnModel };

    ghost view = { λ s. arc_value s.rdn };
}

impl SharedRdn {
    /// This relative name, which nobody else has yet. Its only error is want of memory.
    pub fn new(alloc: Global, rdn: Rdn) -> Result<SharedRdn, AllocError>
        ensures { IfOk result (λ s. s ≡ rdn) }
    {
        let rdn = Arc::new(alloc, rdn)?;
        Ok(SharedRdn { rdn })
    }

    /// The relative name.
    pub fn get(&self) -> &Rdn
        ensures { result.now ≡ self.now }
    {
        &self.rdn
    }
}

impl Shared for SharedRdn {
    fn share(&self) -> Result<SharedRdn, AllocError> {
        let rdn = Arc::try_clone(&self.rdn)?;
        Ok(SharedRdn { rdn })
    }

    fn most_in_leaf() -> usize {
        16
    }

    fn mostly_rises() -> bool {
        false
    }
}

/// A name; a contract sees what it is, not where it lies in memory, nor who else has it.
pub struct SharedName {
    name: Arc<Name>,
}

// Not derived: see "What the gate takes" in docs/ARCHITECTURE.md.
impl Drop for SharedName {
    fn drop(self) {
        let SharedName { name: _ } = self;
    }
}

impl Model for SharedName {
    ghost use Rattle.std.specs.Prelude.{List};
    ghost use Rattle.std.specs.Arc.{arc_value};
    ghost use Rattle.dir_entry.specs.ldap_dn.Names.{RdnModel};

    ghost Value = { List RdnModel };

    ghost use Rattle.std.specs.Prelude.{◌≤◌, length};

    ghost view = { λ s. arc_value s.name };

    // A count of relative names and one more for each entry on a way up fits in 64 bits.
    ghost invariant = { λ s. length (arc_value s.name) ≤ 9223372036854775807 };
}

impl SharedName {
    /// This name, which nobody else has yet. Its only error is want of memory.
    pub fn new(alloc: Global, name: Name) -> Result<SharedName, AllocError>
        ensures { IfOk result (λ s. s ≡ name) }
    {
        if name.len() > 9_223_372_036_854_775_807 {
            return Err(AllocError);
        }
        let name = Arc::new(alloc, name)?;
        Ok(SharedName { name })
    }

    /// How many relative names it has.
    pub fn len(&self) -> usize
        ensures value { result ≡ length self.now }
        ensures bound { result ≤ 9223372036854775807 }
    {
        self.name.len()
    }

    /// The name.
    pub fn get(&self) -> &Name
        ensures { result.now ≡ self.now }
    {
        &self.name
    }
}

impl Shared for SharedName {
    fn share(&self) -> Result<SharedName, AllocError> {
        let name = Arc::try_clone(&self.name)?;
        Ok(SharedName { name })
    }

    fn most_in_leaf() -> usize {
        16
    }

    fn mostly_rises() -> bool {
        false
    }
}
