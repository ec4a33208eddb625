// What is kept of each number: where its entry stands, and what stands below it.

ghost use Rattle.std.specs.Prelude.{◌≡◌, ◌∷◌, [], IfOk};
ghost use Rattle.dir_tree.specs.private.Superiors.{alone};
ghost use Rattle.dir_tree.specs.private.Changes.{child_put, within_put};

use crate::digested_names::DigestedRdn;
use crate::shared::SharedEntry;
use crate::shared_names::{SharedName, SharedRdn};
use dir_entry::{NumberSet, Shared, SharedMap};
use std::alloc::{AllocError, Global};

/// Where an entry stands.
pub enum Place {
    /// It is the root, of this name.
    Root(SharedName),
    /// It stands right under the entry of a number, by its own relative name.
    Under(u64, SharedRdn),
}

// Not derived: see "What the gate takes" in docs/ARCHITECTURE.md.
impl Drop for Place {
    fn drop(self) {
        match self {
            Place::Root(_) => {}
            Place::Under(_, _) => {}
        }
    }
}

impl Shared for Place {
    fn share(&self) -> Result<Place, AllocError> {
        match self {
            Place::Root(name) => Ok(Place::Root(name.share()?)),
            Place::Under(above, rdn) => Ok(Place::Under(*above, rdn.share()?)),
        }
    }

    fn most_in_leaf() -> usize {
        16
    }

    fn mostly_rises() -> bool {
        false
    }
}

/// An entry, and where it stands.
pub struct Standing {
    pub place: Place,
    /// Its number, as the set of what stands at or below it while nothing stands below it.
    pub own: NumberSet,
    pub entry: SharedEntry,
}

// Not derived: see "What the gate takes" in docs/ARCHITECTURE.md.
impl Drop for Standing {
    fn drop(self) {
        let Standing {
            place: _,
            own: _,
            entry: _,
        } = self;
    }
}

impl Standing {
    /// An entry of this number at a place, as long as nothing stands below it.
    pub fn new(number: u64, place: Place, entry: SharedEntry) -> Standing
        ensures { result ≡ record { place = place; own = number ∷ []; entry = entry } }
    {
        Standing {
            place,
            own: NumberSet::of_one(number),
            entry,
        }
    }
}

impl Shared for Standing {
    fn share(&self) -> Result<Standing, AllocError> {
        Ok(Standing {
            place: self.place.share()?,
            own: self.own.share()?,
            entry: self.entry.share()?,
        })
    }

    fn most_in_leaf() -> usize {
        6
    }

    fn mostly_rises() -> bool {
        false
    }
}

/// The entries by number.
pub type Entries = SharedMap<u64, Standing>;

/// What stands below an entry.
pub struct Below {
    /// The numbers of the entries right under it, by their relative names.
    pub names: SharedMap<DigestedRdn, u64>,
    /// The numbers of the entries right under it.
    pub children: NumberSet,
    /// The numbers of the entries at or below it, its own too.
    pub within: NumberSet,
}

// Not derived: see "What the gate takes" in docs/ARCHITECTURE.md.
impl Drop for Below {
    fn drop(self) {
        let Below {
            names: _,
            children: _,
            within: _,
        } = self;
    }
}

impl Below {
    /// What is kept of an entry that nothing stands below.
    pub fn alone(number: u64) -> Below
        ensures { result ≡ alone number }
    {
        Below {
            names: SharedMap::new(),
            children: NumberSet::new(),
            within: NumberSet::of_one(number),
        }
    }

    /// The same with an entry more right under it.
    pub fn with_child(self, alloc: Global, rdn: SharedRdn, number: u64) -> Result<Below, AllocError>
        ensures { IfOk result (λ b. b ≡ child_put self rdn number) }
    {
        let Below {
            names,
            children,
            within,
        } = self;
        let names = names.insert(alloc, DigestedRdn::new(rdn), number)?;
        let children = children.insert(alloc, number)?;
        Ok(Below {
            names,
            children,
            within,
        })
    }

    /// The same with a number more at or below it.
    pub fn with_number(self, alloc: Global, number: u64) -> Result<Below, AllocError>
        ensures { IfOk result (λ b. b ≡ within_put self number) }
    {
        let Below {
            names,
            children,
            within,
        } = self;
        let within = within.insert(alloc, number)?;
        Ok(Below {
            names,
            children,
            within,
        })
    }
}

impl Shared for Below {
    fn share(&self) -> Result<Below, AllocError> {
        Ok(Below {
            names: self.names.share()?,
            children: self.children.share()?,
            within: self.within.share()?,
        })
    }

    fn most_in_leaf() -> usize {
        6
    }

    fn mostly_rises() -> bool {
        false
    }
}

/// What stands below the entry of each number; a number that nothing stands below may be left out.
pub type Levels = SharedMap<u64, Below>;
