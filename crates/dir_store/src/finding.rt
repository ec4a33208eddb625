//! Finds the entries that updates name.
ghost use Rattle.std.specs.Prelude.{◌≡◌, Ok, Some, IfOk, IfErr};
ghost use Rattle.indexed_tree.specs.ldap_dn.Names.{rdns};
ghost use Rattle.indexed_tree.specs.dir_entry.Entry.{IsKeyedBy};
ghost use Rattle.indexed_tree.specs.dir_tree.Directory.{find};
ghost use Rattle.indexed_tree.specs.Replies.{entry_asked};
ghost use Rattle.indexed_tree.specs.Stored.{entered_of, named, directory, AreKeyedBy};
ghost use Rattle.dir_store.specs.private.View.{RefusedWith};

use crate::fault::StoreError;
use indexed_tree::{Rdn, Schema, StoredEntry, Tree, not_found, standing};
use std::alloc::Global;

/// The number of a name's entry, and the entry with its name; 32 where there is none.
#[tactic(auto, using(indexed_tree::proofs::Shown::asked_some, indexed_tree::proofs::Shown::asked_none, indexed_tree::proofs::Lookups::found_own, indexed_tree::proofs::Lookups::found_keyed))]
pub fn asked_entry<'a>(
    alloc: Global,
    schema: &Schema,
    tree: &'a Tree,
    name: &[Rdn],
) -> Result<(u64, StoredEntry<'a>), StoreError>
    requires keyed { AreKeyedBy schema.now tree.now.entries }
    ensures ok { IfOk result (λ p. entry_asked (directory schema.now tree.now) name.now ≡
        Ok (named (entered_of p.0 p.1))) }
    ensures found { IfOk result (λ p. find (rdns name.now) tree.now.entries ≡ Some (entered_of p.0 p.1)) }
    ensures own { IfOk result (λ p. find (rdns p.1.name) tree.now.entries ≡ Some (entered_of p.0 p.1)) }
    ensures same { IfOk result (λ p. rdns p.1.name ≡ rdns name.now) }
    ensures keyed { IfOk result (λ p. IsKeyedBy schema.now p.1.entry.now) }
    ensures refused { IfErr result (λ e. RefusedWith e (entry_asked (directory schema.now tree.now) name.now)) }
{
    match standing(alloc, tree, name)? {
        Some((number, held)) => Ok((number, held)),
        None => Err(StoreError::Refused(not_found(alloc, schema, tree, name)?)),
    }
}
