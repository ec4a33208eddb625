//! Judges a delete. The tree stays as it is.
ghost use Rattle.std.specs.Prelude.{◌≡◌, Ok, Some, false, IfOk, IfErr, OnOk};
ghost use Rattle.std.specs.Option.{option_map};
ghost use Rattle.indexed_tree.specs.ldap_dn.Names.{rdns};
ghost use Rattle.indexed_tree.specs.dir_tree.Directory.{find, has_below};
ghost use Rattle.indexed_tree.specs.Stored.{directory, AreKeyedBy};
ghost use Rattle.indexed_tree.specs.Replies.{then};
ghost use Rattle.dir_store.specs.Updates.{leaf_asked, name_asked};
ghost use Rattle.dir_store.specs.private.View.{RefusedWith};

use crate::fault::StoreError;
use crate::finding::asked_entry;
use crate::names::asked_name;
use entry_updates::ResultCode;
use indexed_tree::{Name, Rdn, Reply, Schema, Tree};
use std::alloc::Global;

/// The number of the entry that a delete takes out (RFC 4511 4.8): 32 where there is none, 66 where one stands below
/// it.
#[tactic(auto, using(indexed_tree::proofs::Shown::below_shown))]
pub fn asked_leaf(
    alloc: Global,
    schema: &Schema,
    tree: &Tree,
    name: &[Rdn],
) -> Result<u64, StoreError>
    requires keyed { AreKeyedBy schema.now tree.now.entries }
    ensures ok { IfOk result (λ k. leaf_asked (directory schema.now tree.now) name.now ≡ Ok k) }
    ensures here { IfOk result (λ k. option_map (λ e. e.number) (find (rdns name.now) tree.now.entries) ≡ Some k) }
    ensures leaf { OnOk result (has_below (rdns name.now) tree.now.entries ≡ false) }
    ensures refused { IfErr result (λ e. RefusedWith e (leaf_asked (directory schema.now tree.now) name.now)) }
{
    let (number, _) = asked_entry(alloc, schema, tree, name)?;
    if tree.has_below(name) {
        return Err(StoreError::Refused(Reply::only(alloc, ResultCode::NOT_ALLOWED_ON_NON_LEAF)));
    }
    Ok(number)
}

/// The name and the number of the entry that a delete takes out; the first refusal where there is one.
pub fn asked_out(
    alloc: Global,
    schema: &Schema,
    tree: &Tree,
    text: &str,
) -> Result<(Name, u64), StoreError>
    requires keyed { AreKeyedBy schema.now tree.now.entries }
    ensures ok { IfOk result (λ p. then (name_asked schema.now text.now) (leaf_asked (directory schema.now tree.now)) ≡
        Ok p.1) }
    ensures here { IfOk result (λ p. option_map (λ e. e.number) (find (rdns p.0) tree.now.entries) ≡ Some p.1) }
    ensures leaf { IfOk result (λ p. has_below (rdns p.0) tree.now.entries ≡ false) }
    ensures refused { IfErr result (λ e. RefusedWith e (then (name_asked schema.now text.now)
        (leaf_asked (directory schema.now tree.now)))) }
{
    let name = asked_name(alloc, schema, text)?;
    let number = asked_leaf(alloc, schema, tree, name.rdns())?;
    Ok((name, number))
}
