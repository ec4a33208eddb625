//! A tree and the posting lists of its entries, which change together.
ghost use Rattle.std.specs.Prelude.{◌≡◌, ◌++◌, ◌∷◌, [], false, true, Some, IfOk, OnOk, OnErr, is_some};
ghost use Rattle.std.specs.Option.{option_map};
ghost use Rattle.dir_index.specs.ldap_dn.Names.{rdns};
ghost use Rattle.directory_api.specs.dir_tree.Directory.{AllBelow, name_eq, begins, find, above, has_below, has_footing, unnumbered, replaced, moved};
ghost use Rattle.directory_api.specs.dir_tree.Placed.{name_placed};
ghost use Rattle.dir_index.specs.Whole.{AreOf};
ghost use Rattle.indexed_tree.specs.Listed.{listed_of, IsSameBut};

use crate::listing::{listed_more, relisted, relisted_in, unlisted};
use dir_index::{
    Attribute, Indexes, Name, NumberSet, Posting, PostingLists, Postings, Range, Rdn, TypeId,
    has_in_range,
};
use directory_api::{SharedEntry, Tree};
use std::alloc::{AllocError, Global};
use std::marker::Model;

/// A tree and the posting lists of its entries. The lists are those of the entries at each moment between calls; an
/// update looks up what lists the entry, as it was and as it is, and nothing else.
pub struct IndexedTree {
    tree: Tree,
    postings: Postings,
}

// Not derived: see "What the gate takes" in docs/ARCHITECTURE.md.
impl Drop for IndexedTree {
    fn drop(self) {
        let IndexedTree {
            tree: _,
            postings: _,
        } = self;
    }
}

impl Model for IndexedTree {
    ghost use Rattle.dir_index.specs.Whole.{AreOf};
    ghost use Rattle.indexed_tree.specs.Listed.{IndexedModel, listed_of};

    ghost Value = { IndexedModel };

    ghost view = { λ t. record { indexes = t.postings.indexes; tree = t.tree } };

    ghost invariant = { λ t. AreOf t.postings (listed_of t.tree.entries) };
}

impl IndexedTree {
    /// A tree without entries, whose root is to have this name.
    pub fn new(alloc: Global, indexes: Indexes, suffix: Name) -> IndexedTree
        ensures { result ≡ record { indexes = indexes; tree = record { suffix = suffix; entries = [] } } }
    {
        IndexedTree {
            tree: Tree::new(alloc, suffix),
            postings: Postings::new(alloc, indexes),
        }
    }

    /// A second owner of the same entries and lists: a few second owners, whatever the size.
    pub fn share(&self) -> Result<IndexedTree, AllocError>
        ensures { IfOk result (λ t. t ≡ self.now) }
    {
        let tree = self.tree.share()?;
        let postings = self.postings.share()?;
        Ok(IndexedTree { tree, postings })
    }

    /// The tree.
    pub fn tree(&self) -> &Tree
        ensures { result.now ≡ self.now.tree }
    {
        &self.tree
    }

    /// The index choice under which the entries are listed.
    pub fn indexes(&self) -> &Indexes
        ensures { result.now ≡ self.now.indexes }
    {
        self.postings.indexes()
    }

    /// The tree with an entry at the end, its name spelled as its superior's is. What the tree alone owns is
    /// changed where it stands; out of memory nothing is left.
    pub fn added(
        self,
        number: u64,
        name: Name,
        entry: SharedEntry,
    ) -> Result<IndexedTree, AllocError>
        requires above { AllBelow number self.tree.entries }
        requires absent { is_some (find (rdns name) self.tree.entries) ≡ false }
        requires footing { has_footing (rdns self.tree.suffix) (rdns name) self.tree.entries ≡ true }
        ensures { IfOk result (λ t. t ≡ record {
          indexes = self.indexes;
          tree =
              record {
                suffix = self.tree.suffix;
                entries = self.tree.entries ++ record {
                  number = number;
                  name = name_placed (rdns self.tree.suffix) name self.tree.entries;
                  entry =
                      entry;
                } ∷ [];
              };
        }) }
    {
        let IndexedTree { tree, postings } = self;
        let postings = listed_more(&tree, postings, number, &entry)?;
        let tree = tree.added(number, name, entry)?;
        Ok(IndexedTree { tree, postings })
    }

    /// The tree without the entry of a name that nothing stands below. Its maps and the lists that the entry leaves are
    /// copied as far as they differ, also where the tree alone owns them; out of memory nothing is left.
    pub fn deleted(self, name: &[Rdn], number: u64) -> Result<IndexedTree, AllocError>
        requires here { option_map (λ e. e.number) (find (rdns name.now) self.tree.entries) ≡ Some number }
        requires leaf { has_below (rdns name.now) self.tree.entries ≡ false }
        ensures { IfOk result (λ t. t ≡ record {
          indexes = self.indexes;
          tree =
              record { suffix = self.tree.suffix; entries = unnumbered number self.tree.entries };
        }) }
    {
        let IndexedTree { tree, postings } = self;
        let postings = unlisted(&tree, postings, number)?;
        let tree = tree.deleted(name, number)?;
        Ok(IndexedTree { tree, postings })
    }

    /// The tree with other attributes of the entry of a number. What the tree alone owns of its entries and of the lists
    /// that the entry joins is changed where it stands; lists that it leaves are copied as far as they differ. Out of
    /// memory nothing is left.
    pub fn replaced(self, number: u64, entry: SharedEntry) -> Result<IndexedTree, AllocError>
        ensures { IfOk result (λ t. t ≡ record {
          indexes = self.indexes;
          tree =
              record { suffix = self.tree.suffix; entries = replaced number entry self.tree.entries };
        }) }
    {
        let IndexedTree { tree, postings } = self;
        let postings = relisted(&tree, postings, number, &entry)?;
        let tree = tree.replaced(number, entry)?;
        Ok(IndexedTree { tree, postings })
    }

    /// The same where the entry has other attributes of some types alone, or lacks or has more of the values that are
    /// named: the lists of other types and of other values aren't looked at.
    pub fn replaced_in(
        self,
        number: u64,
        types: &[TypeId],
        named: &[Attribute],
        entry: SharedEntry,
    ) -> Result<IndexedTree, AllocError>
        requires same { IsSameBut types.now named.now number self.tree.entries entry }
        ensures { IfOk result (λ t. t ≡ record {
          indexes = self.indexes;
          tree =
              record { suffix = self.tree.suffix; entries = replaced number entry self.tree.entries };
        }) }
    {
        let IndexedTree { tree, postings } = self;
        let postings = relisted_in(&tree, postings, number, types, named, &entry)?;
        let tree = tree.replaced(number, entry)?;
        Ok(IndexedTree { tree, postings })
    }

    /// The tree with another name and other attributes of an entry: each name that begins with the old one begins with
    /// the new one in its place, which is spelled as its superior's is. What the tree alone owns of its entries and of
    /// the lists that the entry joins is changed where it stands. Relative names, the sets of entries above, and lists
    /// that it leaves are copied as far as they differ. Out of memory nothing is left.
    pub fn renamed(
        self,
        name: &[Rdn],
        number: u64,
        new_name: Name,
        new_entry: SharedEntry,
    ) -> Result<IndexedTree, AllocError>
        requires here { option_map (λ e. e.number) (find (rdns name.now) self.tree.entries) ≡ Some number }
        requires root { name_eq (rdns name.now) (rdns self.tree.suffix) ≡ false }
        requires parent { is_some (find (above (rdns new_name)) self.tree.entries) ≡ true }
        requires apart { begins (rdns name.now) (above (rdns new_name)) ≡ false }
        requires free { is_some (find (rdns new_name) self.tree.entries) ≡ true →
            name_eq (rdns name.now) (rdns new_name) ≡ true }
        ensures { IfOk result (λ t. t ≡ record {
          indexes = self.indexes;
          tree =
              record {
                suffix = self.tree.suffix;
                entries = moved (rdns name.now)
                    (name_placed (rdns self.tree.suffix) new_name self.tree.entries) new_entry
                    self.tree.entries;
              };
        }) }
    {
        let IndexedTree { tree, postings } = self;
        tree.is_directory();
        let postings = relisted(&tree, postings, number, &new_entry)?;
        let tree = tree.renamed(name, number, new_name, new_entry)?;
        Ok(IndexedTree { tree, postings })
    }

    /// Puts an entry at the end, its name spelled as its superior's is. An `Err` changes nothing.
    pub fn add(&mut self, number: u64, name: Name, entry: SharedEntry) -> Result<(), AllocError>
        requires above { AllBelow number self.old.tree.entries }
        requires absent { is_some (find (rdns name) self.old.tree.entries) ≡ false }
        requires footing { has_footing (rdns self.old.tree.suffix) (rdns name) self.old.tree.entries ≡ true }
        ensures ok { OnOk result (self.new ≡ record {
          indexes = self.old.indexes;
          tree =
              record {
                suffix = self.old.tree.suffix;
                entries = self.old.tree.entries ++ record {
                  number = number;
                  name = name_placed (rdns self.old.tree.suffix) name self.old.tree.entries;
                  entry =
                      entry;
                } ∷ [];
              };
        }) }
        ensures err { OnErr result (self.new ≡ self.old) }
    {
        let same = self.share()?;
        let more = same.added(number, name, entry)?;
        *self = more;
        Ok(())
    }

    /// Takes out the entry of a name that nothing stands below. An `Err` changes nothing.
    pub fn delete(&mut self, name: &[Rdn], number: u64) -> Result<(), AllocError>
        requires here { option_map (λ e. e.number) (find (rdns name.now) self.old.tree.entries) ≡ Some number }
        requires leaf { has_below (rdns name.now) self.old.tree.entries ≡ false }
        ensures ok { OnOk result (self.new ≡ record {
          indexes = self.old.indexes;
          tree =
              record { suffix = self.old.tree.suffix; entries = unnumbered number self.old.tree.entries };
        }) }
        ensures err { OnErr result (self.new ≡ self.old) }
    {
        let same = self.share()?;
        let fewer = same.deleted(name, number)?;
        *self = fewer;
        Ok(())
    }

    /// Gives the entry of a number other attributes; its name stays. An `Err` changes nothing.
    pub fn replace(&mut self, number: u64, entry: SharedEntry) -> Result<(), AllocError>
        ensures ok { OnOk result (self.new ≡ record {
          indexes = self.old.indexes;
          tree =
              record { suffix = self.old.tree.suffix; entries = replaced number entry self.old.tree.entries };
        }) }
        ensures err { OnErr result (self.new ≡ self.old) }
    {
        let same = self.share()?;
        let other = same.replaced(number, entry)?;
        *self = other;
        Ok(())
    }

    /// Gives an entry another name and other attributes: each name that begins with the old one begins with the new one
    /// in its place, which is spelled as its superior's is. An `Err` changes nothing.
    pub fn rename(
        &mut self,
        name: &[Rdn],
        number: u64,
        new_name: Name,
        new_entry: SharedEntry,
    ) -> Result<(), AllocError>
        requires here { option_map (λ e. e.number) (find (rdns name.now) self.old.tree.entries) ≡ Some number }
        requires root { name_eq (rdns name.now) (rdns self.old.tree.suffix) ≡ false }
        requires parent { is_some (find (above (rdns new_name)) self.old.tree.entries) ≡ true }
        requires apart { begins (rdns name.now) (above (rdns new_name)) ≡ false }
        requires free { is_some (find (rdns new_name) self.old.tree.entries) ≡ true →
            name_eq (rdns name.now) (rdns new_name) ≡ true }
        ensures ok { OnOk result (self.new ≡ record {
          indexes = self.old.indexes;
          tree =
              record {
                suffix = self.old.tree.suffix;
                entries = moved (rdns name.now)
                    (name_placed (rdns self.old.tree.suffix) new_name self.old.tree.entries) new_entry
                    self.old.tree.entries;
              };
        }) }
        ensures err { OnErr result (self.new ≡ self.old) }
    {
        let same = self.share()?;
        let other = same.renamed(name, number, new_name, new_entry)?;
        *self = other;
        Ok(())
    }
}

impl PostingLists for IndexedTree {
    ghost use Rattle.indexed_tree.specs.Listed.{lists_of};

    ghost lists = { lists_of };

    fn numbers(&self, posting: &Posting) -> &NumberSet {
        self.postings.numbers(posting)
    }

    fn numbers_of_each(&self, postings: &[&Posting]) -> Result<Vec<&NumberSet>, AllocError> {
        self.postings.numbers_of_each(postings)
    }

    fn in_range(&self, range: &Range, number: u64) -> bool {
        self.tree.is_directory();
        match self.tree.entry(number) {
            Some(held) => has_in_range(self.postings.indexes(), range, held),
            None => false,
        }
    }

    fn push_range(&self, range: &Range, into: &mut Vec<u64>) -> Result<(), AllocError> {
        self.postings.push_range(range, into)
    }

    fn about(&self, range: &Range) -> usize {
        self.postings.about(range)
    }
}
