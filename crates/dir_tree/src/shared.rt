// An entry's attributes in memory that is shared. Takes and hands out attributes.

ghost use Rattle.std.specs.Prelude.{◌≡◌, IfOk};

use dir_entry::{Entry, Shared};
use std::alloc::{AllocError, Global};
use std::marker::Model;
use std::ops::Deref;
use std::sync::Arc;

/// The attributes of an entry; a contract sees what they are, not where they lie in memory, nor who else has them.
pub struct SharedEntry {
    entry: Arc<Entry>,
}

// Not derived: see "What the gate takes" in docs/ARCHITECTURE.md.
impl Drop for SharedEntry {
    fn drop(self) {
        let SharedEntry { entry: _ } = self;
    }
}

impl Model for SharedEntry {
    ghost use Rattle.std.specs.Prelude.{List};
    ghost use Rattle.std.specs.Arc.{arc_value};
    ghost use Rattle.dir_entry.specs.Entry.{KeyedAttribute};

    ghost Value = { List KeyedAttribute };

    ghost view = { λ s. arc_value s.entry };
}

impl SharedEntry {
    /// These attributes, which nobody else has yet. Its only error is want of memory.
    pub fn new(alloc: Global, mut entry: Entry) -> Result<SharedEntry, AllocError>
        ensures { IfOk result (λ s. s ≡ entry) }
    {
        entry.shrink();
        let entry = Arc::new(alloc, entry)?;
        Ok(SharedEntry { entry })
    }

    /// The same attributes, in the same memory. It takes none; the only error is that it is shared too often.
    pub fn share(&self) -> Result<SharedEntry, AllocError>
        ensures { IfOk result (λ s. s ≡ self.now) }
    {
        let entry = Arc::try_clone(&self.entry)?;
        Ok(SharedEntry { entry })
    }
}

impl Shared for SharedEntry {
    fn share(&self) -> Result<SharedEntry, AllocError> {
        let entry = Arc::try_clone(&self.entry)?;
        Ok(SharedEntry { entry })
    }

    fn most_in_leaf() -> usize {
        16
    }

    fn mostly_rises() -> bool {
        false
    }
}

impl Deref for SharedEntry {
    type Target = Entry;

    ghost deref_gives = { λ s e. e ≡ s };

    fn deref(&self) -> &Entry
        ensures { result.now ≡ self.now }
    {
        &self.entry
    }
}
