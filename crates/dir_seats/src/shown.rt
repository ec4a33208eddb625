//! The published value: one version of the directory, which has as many owners as it is shared with, and how many
//! records made it.
ghost use Rattle.std.specs.Prelude.{◌≡◌, length, IfOk};
ghost use Rattle.state_machine.specs.Executing.{directory_at};

use left_right::Absorb;
use state_machine::{Executed, Store};
use std::alloc::{AllocError, Global};
use std::marker::Model;
use std::snapshot::Snapshot;
use std::sync::Arc;

/// A directory, and how many records made it. Contracts see what was executed.
struct Version {
    store: Store,
    count: u64,
    executed: Snapshot<Executed>,
}

// Not derived: see "What the gate takes" in docs/ARCHITECTURE.md.
impl Drop for Version {
    fn drop(self) {
        let Version {
            store: _,
            count: _,
            executed: _,
        } = self;
    }
}

impl Model for Version {
    ghost use Rattle.state_machine.specs.Executing.{ExecutedValue};
    ghost use Rattle.dir_seats.specs.private.Versions.{IsAfter};

    ghost Value = { ExecutedValue };

    ghost view = { λ v. v.executed.value };

    ghost invariant = { λ v. IsAfter v.store v.count v.executed.value };
}

impl Version {
    /// What was executed; its directory gets a second owner.
    fn of(executed: &Executed) -> Result<Version, AllocError>
        ensures { IfOk result (λ v. v ≡ executed.now) }
    {
        let store = executed.store().share()?;
        let count = executed.len() as u64;
        Ok(Version {
            store,
            count,
            executed: Snapshot::of(executed),
        })
    }

    fn count(&self) -> u64
        ensures { result ≡ length self.now.records }
    {
        self.count
    }

    fn store(&self) -> &Store
        ensures directory { result.now.directory ≡ directory_at self.now }
        ensures indexes { result.now.indexes ≡ self.now.indexes }
    {
        &self.store
    }
}

/// An owner of one version of the directory.
pub struct Shown {
    version: Arc<Version>,
}

// Not derived: see "What the gate takes" in docs/ARCHITECTURE.md.
impl Drop for Shown {
    fn drop(self) {
        let Shown { version: _ } = self;
    }
}

impl Model for Shown {
    ghost use Rattle.state_machine.specs.Executing.{ExecutedValue};
    ghost use Rattle.std.specs.Arc.{arc_value};

    ghost Value = { ExecutedValue };

    ghost view = { λ s. arc_value s.version };
}

impl Shown {
    /// What was executed. No record is copied, and no entry.
    pub fn of(alloc: Global, executed: &Executed) -> Result<Shown, AllocError>
        ensures { IfOk result (λ shown. shown ≡ executed.now) }
    {
        let version = Arc::new(alloc, Version::of(executed)?)?;
        Ok(Shown { version })
    }

    /// A second owner. It takes no memory; the only error is that there are too many.
    pub fn share(&self) -> Result<Shown, AllocError>
        ensures { IfOk result (λ shown. shown ≡ self.now) }
    {
        let version = Arc::try_clone(&self.version)?;
        Ok(Shown { version })
    }

    /// How many records.
    pub fn count(&self) -> u64
        ensures { result ≡ length self.now.records }
    {
        self.version.count()
    }

    /// The directory after them.
    pub fn store(&self) -> &Store
        ensures directory { result.now.directory ≡ directory_at self.now }
        ensures indexes { result.now.indexes ≡ self.now.indexes }
    {
        self.version.store()
    }
}

impl Absorb<Shown> for Shown {
    // What was executed; no value of it is made.
    type State = Executed;

    ghost state = { λ shown. shown };

    ghost applied = { λ _ next. next };

    fn absorb_first(&mut self, operation: &Shown, _other: &Shown) -> Result<(), AllocError> {
        *self = operation.share()?;
        Ok(())
    }

    fn absorb_second(&mut self, operation: Shown, _other: &Shown) -> Result<(), Shown> {
        *self = operation;
        Ok(())
    }
}
