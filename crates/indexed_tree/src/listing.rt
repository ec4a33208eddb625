//! Keeps the posting lists of a tree as its entries change.
ghost use Rattle.std.specs.Prelude.{◌≡◌, ◌++◌, ◌∷◌, [], IfOk};
ghost use Rattle.directory_api.specs.dir_tree.Directory.{AllBelow, unnumbered, replaced};
ghost use Rattle.dir_index.specs.Whole.{AreOf};
ghost use Rattle.indexed_tree.specs.Listed.{listed_of, IsSameBut};

use dir_index::{Attribute, Entry, Postings, TypeId};
use directory_api::Tree;
use std::alloc::AllocError;

/// The lists with an entry of a number above all.
pub fn listed_more(
    tree: &Tree,
    postings: Postings,
    number: u64,
    entry: &Entry,
) -> Result<Postings, AllocError>
    requires of { AreOf postings (listed_of tree.now.entries) }
    requires above { AllBelow number tree.now.entries }
    ensures lists { IfOk result (λ p. AreOf p (listed_of tree.now.entries ++ record {
      number = number;
      entry =
          entry.now;
    } ∷ [])) }
    ensures indexes { IfOk result (λ p. p.indexes ≡ postings.indexes) }
{
    let lists = postings.added(number, entry)?;
    Ok(lists)
}

/// The lists without the entry of a number.
pub fn unlisted(tree: &Tree, postings: Postings, number: u64) -> Result<Postings, AllocError>
    requires of { AreOf postings (listed_of tree.now.entries) }
    ensures lists { IfOk result (λ p. AreOf p (listed_of (unnumbered number tree.now.entries))) }
    ensures indexes { IfOk result (λ p. p.indexes ≡ postings.indexes) }
{
    tree.is_directory();
    match tree.entry(number) {
        Some(held) => {
            let lists = postings.removed(number, held)?;
            Ok(lists)
        }
        None => Ok(postings),
    }
}

/// The lists with other attributes of the entry of a number.
pub fn relisted(
    tree: &Tree,
    postings: Postings,
    number: u64,
    entry: &Entry,
) -> Result<Postings, AllocError>
    requires of { AreOf postings (listed_of tree.now.entries) }
    ensures lists { IfOk result (λ p. AreOf p (listed_of (replaced number entry.now tree.now.entries))) }
    ensures indexes { IfOk result (λ p. p.indexes ≡ postings.indexes) }
{
    tree.is_directory();
    match tree.entry(number) {
        Some(held) => {
            let lists = postings.replaced(number, held, entry)?;
            Ok(lists)
        }
        None => Ok(postings),
    }
}

/// The same where the entry has other attributes of some types alone, or lacks or has more of the values that are named.
pub fn relisted_in(
    tree: &Tree,
    postings: Postings,
    number: u64,
    types: &[TypeId],
    named: &[Attribute],
    entry: &Entry,
) -> Result<Postings, AllocError>
    requires of { AreOf postings (listed_of tree.now.entries) }
    requires same { IsSameBut types.now named.now number tree.now.entries entry.now }
    ensures lists { IfOk result (λ p. AreOf p (listed_of (replaced number entry.now tree.now.entries))) }
    ensures indexes { IfOk result (λ p. p.indexes ≡ postings.indexes) }
{
    tree.is_directory();
    match tree.entry(number) {
        Some(held) => {
            let lists = postings.replaced_in(number, types, named, held, entry)?;
            Ok(lists)
        }
        None => Ok(postings),
    }
}
