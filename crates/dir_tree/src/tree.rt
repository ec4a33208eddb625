// The directory's tree. Takes names, numbers and attributes; hands out entries, numbers, sets of numbers and names.

ghost use Rattle.std.specs.Prelude.{◌≡◌, ◌++◌, ◌∷◌, [], ℕ, None, Some, true, false, IfOk, IfSome, OnOk, OnErr, IsTrue, ◌↔◌, is_some, length, map, option_copied, reverse, slice_get};
ghost use Rattle.std.specs.Option.{option_and_then, option_map};
ghost use Rattle.dir_entry.specs.ldap_dn.Names.{rdns};
ghost use Rattle.dir_tree.specs.Directory.{NameKey, Entered, AllBelow, IsDirectory, number_found, name_eq, begins, above, moved, is_right_under, is_at_or_below, find, entry_at, front, has_below, has_footing, numbers, unnumbered, replaced};
ghost use Rattle.dir_tree.specs.Placed.{name_placed, IsSpelled, IsPlacedAsSpelled};

use crate::place::Standing;
use crate::reach::Reach;
use crate::reading_ahead::Wanted;
use crate::roots::Roots;
use crate::shared::SharedEntry;
use crate::suffix::Suffix;
use crate::visit::Visit;
use dir_entry::{Name, NumberSet, Rdn, SharedMap};
use std::alloc::{AllocError, Global};
use std::marker::Model;

/// The entries of a directory, by number and by name. It is a value, and a second owner of the whole costs a few second
/// owners. `added`, `deleted`, `replaced` and `renamed` take it and may change in place what has no other owner. `add`,
/// `delete`, `replace` and `rename` make new maps, which share with the old ones all that stays.
pub struct Tree {
    alloc: Global,
    roots: Roots,
}

// Not derived: see "What the gate takes" in docs/ARCHITECTURE.md.
impl Drop for Tree {
    fn drop(self) {
        let Tree { alloc: _, roots: _ } = self;
    }
}

impl Model for Tree {
    ghost use Rattle.dir_tree.specs.Directory.{TreeModel};

    ghost Value = { TreeModel };

    ghost use Rattle.dir_tree.specs.Kept.{shown};
    ghost use Rattle.dir_tree.specs.private.Kept.{IsTree};

    ghost view = { λ t. record { suffix = t.roots.suffix; entries = shown t.roots } };

    ghost invariant = { λ t. IsTree t.roots };
}

impl Tree {
    /// A directory without entries, whose root is to have this name.
    pub fn new(alloc: Global, suffix: Name) -> Tree
        ensures { result ≡ record { suffix = suffix; entries = [] } }
    {
        Tree {
            alloc,
            roots: Roots {
                suffix: Suffix::of(suffix),
                root: None,
                reach: Reach::one(),
                entries: SharedMap::new(),
                levels: SharedMap::new(),
                none: NumberSet::new(),
            },
        }
    }

    /// A second owner of the same tree: a few second owners, whatever the size. As long as nothing
    /// has changed since the tree was made, the name of the root is copied.
    pub fn share(&self) -> Result<Tree, AllocError>
        ensures { IfOk result (λ t. t ≡ self.now) }
    {
        let roots = self.roots.share(self.alloc)?;
        Ok(Tree {
            alloc: self.alloc,
            roots,
        })
    }

    /// The name of the root.
    pub fn suffix(&self) -> &Name
        ensures { result.now ≡ self.now.suffix }
    {
        self.roots.suffix.get()
    }

    /// How many entries.
    pub fn len(&self) -> u64
        ensures { result ≡ length self.now.entries }
    {
        self.roots.entries.len()
    }

    /// The number of a name's entry: two look-ups for each relative name below the root, and no memory.
    pub fn find(&self, name: &[Rdn]) -> Option<u64>
        ensures { result ≡ option_map (λ e. e.number) (find (rdns name.now) self.now.entries) }
    {
        self.roots.number_of(name)
    }

    /// Whether a name has an entry.
    #[tactic(auto, using(crate::proofs::TreeReads::some_mapped))]
    pub fn has(&self, name: &[Rdn]) -> bool
        ensures { result ≡ is_some (find (rdns name.now) self.now.entries) }
    {
        self.find(name).is_some()
    }

    /// Whether a number is above all.
    pub fn is_above_all(&self, number: u64) -> bool
        ensures { IsTrue result ↔ AllBelow number self.now.entries }
    {
        self.roots.is_above_all(number)
    }

    /// The tree, to be asked about many numbers, of whose entries this is wanted.
    pub fn visit(&self, wanted: Wanted) -> Visit<'_>
        ensures { result ≡ self.now }
    {
        Visit::of(self, &self.roots.entries, wanted)
    }

    /// What stands at each number, looked up together.
    pub(crate) fn standing_each(
        &self,
        numbers: &[u64],
    ) -> Result<Vec<Option<&Standing>>, AllocError> {
        self.roots.entries.find_each(self.alloc, numbers)
    }

    /// The attributes of a number's entry.
    pub fn entry(&self, number: u64) -> Option<&SharedEntry>
        ensures { option_map (λ e. e.now) result
            ≡ option_map (λ e. e.entry) (entry_at number self.now.entries) }
    {
        self.roots.entry(number)
    }

    /// The number of the entry right above a number's entry, and the relative name that the entry has below it; none,
    /// where it is a root's. It takes one look-up, and no memory.
    pub fn superior_of(&self, number: u64) -> Option<(u64, &Rdn)>
        ensures here { IfSome result (λ p. is_some (entry_at number self.now.entries) ≡ true) }
        ensures name { IfSome result (λ p. option_map (λ e. e.name) (entry_at number self.now.entries)
            ≡ option_map (λ e. e.name ++ p.1.now ∷ []) (entry_at p.0 self.now.entries)) }
    {
        self.roots.superior_of(number)
    }

    /// The relative name that is `up` steps above the last of a number's name, 0 its own; none past
    /// the first. It takes a look-up for each step, and no memory.
    pub fn rdn_above(&self, number: u64, up: usize) -> Option<&Rdn>
        ensures { option_copied result
            ≡ option_and_then (λ e. slice_get (reverse e.name) up) (entry_at number self.now.entries) }
    {
        self.roots.rdn_above(number, up)
    }

    /// The relative names of a number's name, the root's first.
    pub fn rdns(&self, alloc: Global, number: u64) -> Result<Option<Vec<&Rdn>>, AllocError>
        ensures { IfOk result (λ o. option_map (λ v. map (λ r. r.now) v.items) o
            ≡ option_map (λ e. e.name) (entry_at number self.now.entries)) }
    {
        if self.roots.has_number(number) {
            Ok(Some(self.roots.rdns(alloc, number)?))
        } else {
            Ok(None)
        }
    }

    /// The relative names of a number's name, its own first and the root's last.
    pub fn rdns_from_leaf(
        &self,
        alloc: Global,
        number: u64,
    ) -> Result<Option<Vec<&Rdn>>, AllocError>
        ensures { IfOk result (λ o. option_map (λ v. map (λ r. r.now) v.items) o
            ≡ option_map (λ e. reverse e.name) (entry_at number self.now.entries)) }
    {
        if self.roots.has_number(number) {
            Ok(Some(self.roots.rdns_from_leaf(alloc, number)?))
        } else {
            Ok(None)
        }
    }

    /// How many relative names a number's name has. It takes a look-up for each entry above it, and
    /// no memory.
    pub fn count_of_rdns(&self, number: u64) -> Option<usize>
        ensures { result ≡ option_map (λ e. length e.name) (entry_at number self.now.entries) }
    {
        if self.roots.has_number(number) {
            Some(self.roots.count_of_rdns(number))
        } else {
            None
        }
    }

    /// A number's name.
    pub fn name(&self, alloc: Global, number: u64) -> Result<Option<Name>, AllocError>
        ensures { IfOk result (λ o. o ≡ option_map (λ e. e.name) (entry_at number self.now.entries)) }
    {
        if self.roots.has_number(number) {
            Ok(Some(self.roots.name(alloc, number)?))
        } else {
            Ok(None)
        }
    }

    /// The length of the longest front of a name that is an entry's name; 0, if there is none. It
    /// takes two look-ups for each relative name below the root.
    pub fn front(&self, name: &[Rdn]) -> usize
        ensures { result ≡ front (rdns name.now) self.now.entries }
    {
        self.roots.front(name)
    }

    /// The numbers of the entries right under a name, in rising order; none, if the name has no entry.
    pub fn children(&self, name: &[Rdn]) -> Option<&NumberSet>
        ensures { option_map (λ s. s.now) result
            ≡ option_map (λ e. numbers (is_right_under (rdns name.now)) self.now.entries)
            (find (rdns name.now) self.now.entries) }
    {
        match self.roots.number_of(name) {
            Some(number) => Some(self.roots.children(number)),
            None => None,
        }
    }

    /// The numbers of the entries at or below a name, in rising order; none, if the name has no
    /// entry. Those of the root's name are the numbers of all entries.
    pub fn subtree(&self, name: &[Rdn]) -> Option<&NumberSet>
        ensures { option_map (λ s. s.now) result
            ≡ option_map (λ e. numbers (is_at_or_below (rdns name.now)) self.now.entries)
            (find (rdns name.now) self.now.entries) }
    {
        match self.roots.number_of(name) {
            Some(number) => self.roots.within(number),
            None => None,
        }
    }

    /// Whether an entry stands strictly below a name that has one.
    pub fn has_below(&self, name: &[Rdn]) -> bool
        requires here { is_some (find (rdns name.now) self.now.entries) ≡ true }
        ensures { result ≡ has_below (rdns name.now) self.now.entries }
    {
        self.is_directory();
        match self.subtree(name) {
            Some(numbers) => 1 < numbers.len(),
            None => false,
        }
    }

    /// The tree with an entry whose name is new, under a number above all. Of its name the last relative name is kept
    /// as it is spelled; what stands before it is its superior's, as that is spelled. It costs two look-ups for each
    /// relative name, and for each entry above it one number put into a set. What the tree alone owns is changed
    /// where it stands; out of memory nothing is left.
    pub fn added(self, number: u64, name: Name, entry: SharedEntry) -> Result<Tree, AllocError>
        requires above { AllBelow number self.entries }
        requires absent { is_some (find (rdns name) self.entries) ≡ false }
        requires footing { has_footing (rdns self.suffix) (rdns name) self.entries ≡ true }
        ensures { IfOk result (λ t. t ≡ record {
          suffix = self.suffix;
          entries = self.entries
              ++ record {
                number = number;
                name = name_placed (rdns self.suffix) name self.entries;
                entry =
                    entry;
              } ∷ [];
        }) }
    {
        let Tree { alloc, roots } = self;
        let roots = roots.added(alloc, number, name, entry)?;
        Ok(Tree { alloc, roots })
    }

    /// The tree without the entry of a name that nothing stands below; out of memory nothing is left.
    pub fn deleted(self, name: &[Rdn], number: u64) -> Result<Tree, AllocError>
        requires here { option_map (λ e. e.number) (find (rdns name.now) self.entries) ≡ Some number }
        requires leaf { has_below (rdns name.now) self.entries ≡ false }
        ensures { IfOk result (λ t. t ≡ record {
          suffix = self.suffix;
          entries = unnumbered number
              self.entries;
        }) }
    {
        let Tree { alloc, roots } = self;
        let roots = roots.deleted(alloc, name, number)?;
        Ok(Tree { alloc, roots })
    }

    /// The tree with other attributes of the entry of a number; its name stays. What the tree alone owns of its entries
    /// is changed where it stands; out of memory nothing is left.
    pub fn replaced(self, number: u64, entry: SharedEntry) -> Result<Tree, AllocError>
        ensures { IfOk result (λ t. t ≡ record {
          suffix = self.suffix;
          entries = replaced number entry
              self.entries;
        }) }
    {
        let Tree { alloc, roots } = self;
        let roots = roots.replaced(alloc, number, entry)?;
        Ok(Tree { alloc, roots })
    }

    /// The tree with another name and other attributes of an entry, as `rename` gives them. What the tree alone owns of
    /// its entries is changed where it stands; out of memory nothing is left.
    pub fn renamed(
        self,
        name: &[Rdn],
        number: u64,
        new_name: Name,
        new_entry: SharedEntry,
    ) -> Result<Tree, AllocError>
        requires here { option_map (λ e. e.number) (find (rdns name.now) self.entries) ≡ Some number }
        requires root { name_eq (rdns name.now) (rdns self.suffix) ≡ false }
        requires parent { is_some (find (above (rdns new_name)) self.entries) ≡ true }
        requires apart { begins (rdns name.now) (above (rdns new_name)) ≡ false }
        requires free { is_some (find (rdns new_name) self.entries) ≡ true →
            name_eq (rdns name.now) (rdns new_name) ≡ true }
        ensures { IfOk result (λ t. t ≡ record {
          suffix = self.suffix;
          entries
              = moved (rdns name.now) (name_placed (rdns self.suffix) new_name self.entries) new_entry
              self.entries;
        }) }
    {
        let Tree { alloc, roots } = self;
        let roots = roots.renamed(alloc, name, number, new_name, new_entry)?;
        Ok(Tree { alloc, roots })
    }

    /// Adds an entry whose name is new, under a number above all. Of its name the last relative name
    /// is kept as it is spelled; what stands before it is its superior's, as that is spelled. An
    /// `Err` changes nothing. It costs two look-ups for each relative name, and for each entry
    /// above it one number put into a set.
    pub fn add(&mut self, number: u64, name: Name, entry: SharedEntry) -> Result<(), AllocError>
        requires above { AllBelow number self.old.entries }
        requires absent { is_some (find (rdns name) self.old.entries) ≡ false }
        requires footing { has_footing (rdns self.old.suffix) (rdns name) self.old.entries ≡ true }
        ensures ok { OnOk result (self.new ≡ record {
          suffix = self.old.suffix;
          entries = self.old.entries
              ++ record {
                number = number;
                name = name_placed (rdns self.old.suffix) name self.old.entries;
                entry =
                    entry;
              } ∷ [];
        }) }
        ensures err { OnErr result (self.new ≡ self.old) }
    {
        let same = self.share()?;
        let more = same.added(number, name, entry)?;
        *self = more;
        Ok(())
    }

    /// Takes out the entry of a name that nothing stands below. An `Err` changes nothing.
    pub fn delete(&mut self, name: &[Rdn], number: u64) -> Result<(), AllocError>
        requires here { option_map (λ e. e.number) (find (rdns name.now) self.old.entries) ≡ Some number }
        requires leaf { has_below (rdns name.now) self.old.entries ≡ false }
        ensures ok { OnOk result (self.new ≡ record {
          suffix = self.old.suffix;
          entries = unnumbered number
              self.old.entries;
        }) }
        ensures err { OnErr result (self.new ≡ self.old) }
    {
        let roots = self.roots.deleted(self.alloc, name, number)?;
        self.roots = roots;
        Ok(())
    }

    /// Gives the entry of a number other attributes; its name stays. An `Err` changes nothing.
    pub fn replace(&mut self, number: u64, entry: SharedEntry) -> Result<(), AllocError>
        ensures ok { OnOk result (self.new ≡ record {
          suffix = self.old.suffix;
          entries = replaced number entry
              self.old.entries;
        }) }
        ensures err { OnErr result (self.new ≡ self.old) }
    {
        let same = self.share()?;
        let other = same.replaced(number, entry)?;
        *self = other;
        Ok(())
    }

    /// Gives an entry another name and other attributes: each name that begins with the old one
    /// begins with the new one in its place, which is its superior's as that is spelled, and its own
    /// last relative name. The old name is not the suffix, an entry that does not stand at or below
    /// it stands right above the new one, and no other entry has the new one. An `Err` changes
    /// nothing. It costs one place and two relative names; and for each entry that moves, a change
    /// of the set of each entry that is above one of the names and not the other.
    pub fn rename(
        &mut self,
        name: &[Rdn],
        number: u64,
        new_name: Name,
        new_entry: SharedEntry,
    ) -> Result<(), AllocError>
        requires here { option_map (λ e. e.number) (find (rdns name.now) self.old.entries) ≡ Some number }
        requires root { name_eq (rdns name.now) (rdns self.old.suffix) ≡ false }
        requires parent { is_some (find (above (rdns new_name)) self.old.entries) ≡ true }
        requires apart { begins (rdns name.now) (above (rdns new_name)) ≡ false }
        requires free { is_some (find (rdns new_name) self.old.entries) ≡ true →
            name_eq (rdns name.now) (rdns new_name) ≡ true }
        ensures ok { OnOk result (self.new ≡ record {
          suffix = self.old.suffix;
          entries
              = moved (rdns name.now) (name_placed (rdns self.old.suffix) new_name self.old.entries) new_entry
              self.old.entries;
        }) }
        ensures err { OnErr result (self.new ≡ self.old) }
    {
        let same = self.share()?;
        let other = same.renamed(name, number, new_name, new_entry)?;
        *self = other;
        Ok(())
    }

    /// Numbers rise, names differ, each name begins with the suffix, and each entry but the suffix's
    /// has an entry right above it.
    pub fn is_directory(&self)
        ensures { IsDirectory (rdns self.now.suffix) self.now.entries }
    {
        let _ = &self.roots;
    }

    /// Where the root has no entry, there are none.
    pub fn is_rooted(&self)
        ensures { find (rdns self.now.suffix) self.now.entries ≡ None → self.now.entries ≡ [] }
    {
        let _ = &self.roots;
    }

    /// All entries stand at or below the root.
    pub fn is_within(&self)
        ensures { numbers (is_at_or_below (rdns self.now.suffix)) self.now.entries
            ≡ numbers (λ e. true) self.now.entries }
    {
        let _ = &self.roots;
    }

    /// A name has one entry, or none.
    pub fn is_single(&self)
        ensures { (q : NameKey) → numbers (λ e. name_eq q (rdns e.name)) self.now.entries
            ≡ number_found (find q self.now.entries) }
    {
        let _ = &self.roots;
    }

    /// Each name but the root's is its superior's name, as that is spelled, and one relative name behind it.
    pub fn is_spelled(&self)
        ensures { IsSpelled (rdns self.now.suffix) self.now.entries }
    {
        let _ = &self.roots;
    }

    /// An entry's name and one relative name behind it are placed as they stand.
    pub fn is_placed_as_spelled(&self)
        ensures { IsPlacedAsSpelled (rdns self.now.suffix) self.now.entries }
    {
        let _ = &self.roots;
    }
}
