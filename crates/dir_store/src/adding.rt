//! Judges an add and makes its entry. The tree stays as it is.
ghost use Rattle.std.specs.Prelude.{◌≡◌, ◌++◌, Ok, true, false, is_some, IfOk, IfErr, OnOk, map};
ghost use Rattle.indexed_tree.specs.ldap_dn.Names.{rdns};
ghost use Rattle.entry_updates.specs.ldap_op.ldap_parts.View.{attribute_view};
ghost use Rattle.entry_updates.specs.ldap_parts.UpdateView.{add_view};
ghost use Rattle.indexed_tree.specs.dir_entry.Entry.{IsKeyedBy};
ghost use Rattle.indexed_tree.specs.dir_tree.Directory.{find, has_footing};
ghost use Rattle.indexed_tree.specs.dir_tree.Placed.{name_placed};
ghost use Rattle.indexed_tree.specs.Places.{last_of};
ghost use Rattle.indexed_tree.specs.Stored.{directory, AreKeyedBy};
ghost use Rattle.dir_store.specs.Updates.{place_under, place_asked, addition_of, addition_at as addition_that_stands, addition as addition_that_is_asked};
ghost use Rattle.dir_store.specs.private.View.{placed_view, RefusedWith};

use crate::fault::{StoreError, refused_attributes};
use crate::finding::asked_entry;
use crate::names::{asked_name, own_rdn, parent_of_name};
use entry_updates::{AddRequest, PartialAttribute, ResultCode, entry_asked};
use indexed_tree::{
    Entry, Name, Rdn, Reply, Schema, StoredEntry, Tree, TypeAndValue, is_same, is_taken,
};
use std::alloc::{AllocError, Global};

/// A new entry and its whole name.
#[derive(Drop)]
pub struct Placed {
    pub name: Name,
    pub entry: Entry,
}

/// A name behind its superior's name as that is spelled.
fn behind(alloc: Global, above: Name, name: &[Rdn]) -> Result<Name, AllocError>
    ensures { IfOk result (λ n. n ≡ above ++ last_of name.now) }
{
    let mut rdns = above.into_rdns();
    if let Some(last) = name.last() {
        rdns.push(last.copy(alloc)?)?;
    }
    Ok(Name::from_rdns(rdns))
}

/// The name of a new entry behind its superior's as that is spelled; 32 where it has no superior.
#[tactic(auto, using(crate::proofs::Moves::place_whole, crate::proofs::Moves::footing_above, crate::proofs::Spelled::placed_behind))]
fn place_below(
    alloc: Global,
    schema: &Schema,
    tree: &Tree,
    name: &[Rdn],
) -> Result<Name, StoreError>
    requires keyed { AreKeyedBy schema.now tree.now.entries }
    ensures ok { IfOk result (λ n. place_under (directory schema.now tree.now) name.now ≡ Ok n) }
    ensures same { IfOk result (λ n. rdns n ≡ rdns name.now) }
    ensures placed { IfOk result (λ n. name_placed (rdns tree.now.suffix) n tree.now.entries ≡ n) }
    ensures footing { OnOk result (has_footing (rdns tree.now.suffix) (rdns name.now) tree.now.entries ≡ true) }
    ensures refused { IfErr result (λ e. RefusedWith e (place_under (directory schema.now tree.now) name.now)) }
{
    tree.is_placed_as_spelled();
    let (_, held) = asked_entry(alloc, schema, tree, parent_of_name(name))?;
    let StoredEntry {
        name: above,
        entry: _,
    } = held;
    let whole = behind(alloc, above, name)?;
    Ok(whole)
}

/// The whole name of a new entry; 32 where it has no superior.
#[tactic(auto, using(crate::proofs::Moves::footing_root, crate::proofs::Spelled::placed_root))]
fn asked_place(alloc: Global, schema: &Schema, tree: &Tree, name: &Name) -> Result<Name, StoreError>
    requires keyed { AreKeyedBy schema.now tree.now.entries }
    ensures ok { IfOk result (λ n. place_asked (directory schema.now tree.now) name.now ≡ Ok n) }
    ensures same { IfOk result (λ n. rdns n ≡ rdns name.now) }
    ensures placed { IfOk result (λ n. name_placed (rdns tree.now.suffix) n tree.now.entries ≡ n) }
    ensures footing { OnOk result (has_footing (rdns tree.now.suffix) (rdns name.now) tree.now.entries ≡ true) }
    ensures refused { IfErr result (λ e. RefusedWith e (place_asked (directory schema.now tree.now) name.now)) }
{
    if is_same(name.rdns(), tree.suffix().rdns()) {
        let copy = name.copy(alloc)?;
        return Ok(copy);
    }
    place_below(alloc, schema, tree, name.rdns())
}

/// The new entry of a name: what its attributes are refused for.
fn addition_under(
    alloc: Global,
    schema: &Schema,
    given: &[PartialAttribute],
    rdn: &[TypeAndValue],
    whole: Name,
) -> Result<Placed, StoreError>
    ensures ok { IfOk result (λ p. addition_of schema.now (map attribute_view given.now) rdn.now whole ≡
        Ok (placed_view p)) }
    ensures name { IfOk result (λ p. p.name ≡ whole) }
    ensures keyed { IfOk result (λ p. IsKeyedBy schema.now p.entry) }
    ensures refused { IfErr result (λ e. RefusedWith e (addition_of schema.now (map attribute_view given.now) rdn.now
        whole)) }
{
    match entry_asked(alloc, schema, rdn, given) {
        Ok(entry) => Ok(Placed { name: whole, entry }),
        Err(error) => Err(refused_attributes(alloc, error)),
    }
}

/// The new entry of a name that no entry has.
#[tactic(auto, using(indexed_tree::proofs::Shown::is_there_shown))]
fn addition_at(
    alloc: Global,
    schema: &Schema,
    tree: &Tree,
    given: &[PartialAttribute],
    name: &Name,
) -> Result<Placed, StoreError>
    requires keyed { AreKeyedBy schema.now tree.now.entries }
    ensures ok { IfOk result (λ p. addition_that_stands (directory schema.now tree.now) (map attribute_view given.now)
        name.now ≡ Ok (placed_view p)) }
    ensures absent { IfOk result (λ p. is_some (find (rdns p.name) tree.now.entries) ≡ false) }
    ensures placed { IfOk result (λ p. name_placed (rdns tree.now.suffix) p.name tree.now.entries ≡ p.name) }
    ensures footing { IfOk result (λ p. has_footing (rdns tree.now.suffix) (rdns p.name) tree.now.entries ≡ true) }
    ensures keyed { IfOk result (λ p. IsKeyedBy schema.now p.entry) }
    ensures refused { IfErr result (λ e. RefusedWith e (addition_that_stands (directory schema.now tree.now)
        (map attribute_view given.now) name.now)) }
{
    if is_taken(tree, name.rdns()) {
        return Err(StoreError::Refused(Reply::only(alloc, ResultCode::ENTRY_ALREADY_EXISTS)));
    }
    let whole = asked_place(alloc, schema, tree, name)?;
    addition_under(alloc, schema, given, own_rdn(name.rdns()), whole)
}

/// The new entry that an add asks for (RFC 4511 4.7): 34, 68, 32, then what its attributes are refused for.
pub fn addition(
    alloc: Global,
    schema: &Schema,
    tree: &Tree,
    request: &AddRequest,
) -> Result<Placed, StoreError>
    requires keyed { AreKeyedBy schema.now tree.now.entries }
    ensures ok { IfOk result (λ p. addition_that_is_asked (directory schema.now tree.now) (add_view request.now) ≡
        Ok (placed_view p)) }
    ensures absent { IfOk result (λ p. is_some (find (rdns p.name) tree.now.entries) ≡ false) }
    ensures placed { IfOk result (λ p. name_placed (rdns tree.now.suffix) p.name tree.now.entries ≡ p.name) }
    ensures footing { IfOk result (λ p. has_footing (rdns tree.now.suffix) (rdns p.name) tree.now.entries ≡ true) }
    ensures keyed { IfOk result (λ p. IsKeyedBy schema.now p.entry) }
    ensures refused { IfErr result (λ e. RefusedWith e (addition_that_is_asked (directory schema.now tree.now)
        (add_view request.now))) }
{
    let name = asked_name(alloc, schema, &request.entry)?;
    addition_at(alloc, schema, tree, request.attributes.as_slice(), &name)
}
