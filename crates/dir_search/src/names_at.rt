// The names of a tree's entries as evaluation asks for them: read off relative name by relative name, without memory.

ghost use Rattle.std.specs.Prelude.{◌≡◌, ◌<◌, ◌-◌, ◌++◌, [], ◌∷◌, IfSome, length, slice_get};
ghost use Rattle.std.specs.Option.{option_map};
ghost use Rattle.indexed_tree.specs.dir_tree.Directory.{entry_at};
ghost use Rattle.dir_search.specs.Numbered.{name_of};

use indexed_tree::{Rdn, Tree};
use ldap_eval::NamePairs;

/// The name of a number's entry; the empty one, where there is none.
pub struct NameAt<'a> {
    pub tree: &'a Tree,
    pub number: u64,
}

// Not derived: see "What the gate takes" in docs/ARCHITECTURE.md.
impl<'a> Drop for NameAt<'a> {
    fn drop(self) {
        let NameAt { tree: _, number: _ } = self;
    }
}

/// How many relative names a number's name has.
#[tactic(auto, using(crate::proofs::NamesAt::count_some, crate::proofs::NamesAt::count_none))]
fn count_at(tree: &Tree, number: u64) -> usize
    ensures { result ≡ length (name_of (entry_at number tree.now.entries)) }
{
    match tree.count_of_rdns(number) {
        Some(count) => count,
        None => 0,
    }
}

/// The relative name at a place that is below their count.
#[tactic(auto, using(crate::proofs::NamesAt::rdn_read))]
fn rdn_at(tree: &Tree, number: u64, count: usize, at: usize) -> Option<&Rdn>
    requires count { count ≡ length (name_of (entry_at number tree.now.entries)) }
    requires within { at < count }
    ensures { option_map (λ r. r.now) result ≡ slice_get (name_of (entry_at number tree.now.entries)) at }
{
    tree.rdn_above(number, count - 1 - at)
}

/// The number of the entry right above a number's entry, and its relative name below it.
#[tactic(auto, using(crate::proofs::NamesAt::named_below))]
fn superior_at(tree: &Tree, number: u64) -> Option<(u64, &Rdn)>
    ensures { IfSome result (λ p. name_of (entry_at number tree.now.entries)
        ≡ name_of (entry_at p.0 tree.now.entries) ++ p.1.now ∷ []) }
{
    tree.superior_of(number)
}

impl NamePairs for NameAt<'_> {
    ghost use Rattle.indexed_tree.specs.dir_tree.Directory.{entry_at};
    ghost use Rattle.dir_search.specs.Numbered.{name_of};

    ghost name = { λ n. name_of (entry_at n.number n.tree.now.entries) };

    ghost named = { λ n k. name_of (entry_at k n.tree.now.entries) };

    fn number(&self) -> u64 {
        self.number
    }

    fn superior(&self, number: u64) -> Option<(u64, &Rdn)> {
        superior_at(self.tree, number)
    }

    fn count(&self, number: u64) -> usize {
        count_at(self.tree, number)
    }

    fn pairs(&self, number: u64, at: usize) -> Option<&Rdn> {
        let count = count_at(self.tree, number);
        if at < count {
            rdn_at(self.tree, number, count, at)
        } else {
            None
        }
    }
}
