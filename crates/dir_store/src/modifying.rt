//! Judges a modify and makes the changed entry. The tree stays as it is.
ghost use Rattle.std.specs.Prelude.{◌≡◌, Ok, IfOk, IfErr, map};
ghost use Rattle.entry_updates.specs.ldap_parts.UpdateView.{change_view, modify_view};
ghost use Rattle.indexed_tree.specs.dir_entry.Entry.{IsKeyedBy};
ghost use Rattle.indexed_tree.specs.dir_index.Whole.{AreSameBut};
ghost use Rattle.indexed_tree.specs.Listed.{IsSameBut};
ghost use Rattle.indexed_tree.specs.Stored.{entered_of, named, directory, AreKeyedBy};
ghost use Rattle.dir_store.specs.Updates.{change_of, change_asked};
ghost use Rattle.dir_store.specs.private.View.{kept_view, RefusedWith};

use crate::fault::{StoreError, refused_attributes};
use crate::finding::asked_entry;
use crate::names::{asked_name, own_rdn};
use entry_updates::{
    Change, ModifyRequest, TouchedAttributes, entry_changed, tests_are_items, touched_attributes,
};
use indexed_tree::{Entry, Schema, StoredEntry, Tree};
use std::alloc::Global;

/// A number, what its entry is changed to, and what is touched: all else is the same.
#[derive(Drop)]
pub struct ChangedEntry {
    pub number: u64,
    pub touched: TouchedAttributes,
    pub entry: Entry,
}

/// What changes make of an entry: what they are refused for.
fn change(
    alloc: Global,
    schema: &Schema,
    changes: &[Change],
    number: u64,
    held: &StoredEntry<'_>,
) -> Result<ChangedEntry, StoreError>
    requires keyed { IsKeyedBy schema.now held.now.entry.now }
    ensures ok { IfOk result (λ k. change_of schema.now (map change_view changes.now)
        (named (entered_of number held.now)) ≡ Ok (kept_view k)) }
    ensures number { IfOk result (λ k. k.number ≡ number) }
    ensures keyed { IfOk result (λ k. IsKeyedBy schema.now k.entry) }
    ensures same { IfOk result (λ k. AreSameBut k.touched.types.items k.touched.named.items held.now.entry.now
        k.entry) }
    ensures refused { IfErr result (λ e. RefusedWith e (change_of schema.now (map change_view changes.now)
        (named (entered_of number held.now)))) }
{
    let before: &Entry = held.entry;
    match entry_changed(alloc, schema, own_rdn(held.name.rdns()), changes, before) {
        Ok(entry) => {
            let touched = touched_attributes(alloc, schema, changes, before)?;
            tests_are_items();
            Ok(ChangedEntry {
                number,
                touched,
                entry,
            })
        }
        Err(error) => Err(refused_attributes(alloc, error)),
    }
}

/// What a modify asks for (RFC 4511 4.6): 34, 32, then what its changes are refused for.
pub fn asked_change(
    alloc: Global,
    schema: &Schema,
    tree: &Tree,
    request: &ModifyRequest,
) -> Result<ChangedEntry, StoreError>
    requires keyed { AreKeyedBy schema.now tree.now.entries }
    ensures ok { IfOk result (λ k. change_asked (directory schema.now tree.now) (modify_view request.now) ≡
        Ok (kept_view k)) }
    ensures keyed { IfOk result (λ k. IsKeyedBy schema.now k.entry) }
    ensures same { IfOk result (λ k. IsSameBut k.touched.types.items k.touched.named.items k.number
        tree.now.entries k.entry) }
    ensures refused { IfErr result (λ e. RefusedWith e (change_asked (directory schema.now tree.now)
        (modify_view request.now))) }
{
    tree.is_directory();
    let name = asked_name(alloc, schema, &request.object)?;
    let (number, held) = asked_entry(alloc, schema, tree, name.rdns())?;
    let changed = change(alloc, schema, request.changes.as_slice(), number, &held)?;
    Ok(changed)
}
