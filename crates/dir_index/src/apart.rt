// The postings that may list the entry of some attributes and not that of others, as a set of keys.

ghost use Rattle.std.specs.Prelude.{◌≡◌, ◌||◌, ◌∷◌, List, true, false, map, IfOk, OnOk};
ghost use Rattle.std.specs.List.{list_any};
ghost use Rattle.index_choice.specs.dir_entry.Entry.{KeyedAttribute};
ghost use Rattle.dir_index.specs.declared.posting.Posting.{Posting};
ghost use Rattle.dir_index.specs.Ordered.{type_of};
ghost use Rattle.dir_index.specs.private.Marked.{has_posting, lists_entry, is_from_key, is_from_several, is_from_attribute, is_from_named};
ghost use Rattle.dir_index.specs.private.Touched.{is_whole as is_whole_in, AreSameElsewhere};

use crate::key_changes::{changed_keys, keys_of};
use crate::list_key::SEVERAL;
use crate::marks::{Marks, mark, mark_key, mark_keys_of, mark_presence};
use crate::touched::{Touched, is_whole, named};
use index_choice::{Attribute, Indexes, Key, Kinds, TypeId};
use std::alloc::{AllocError, Global};
use std::collections::BTreeSet;

/// Whether keys of a type stand in an index.
fn lists_keys(kinds: Kinds) -> bool
    ensures { result ≡ (kinds.equality || (kinds.ordering || kinds.substrings)) }
{
    kinds.equality || (kinds.ordering || kinds.substrings)
}

/// Puts the postings of keys to the others.
fn mark_keys(
    alloc: Global,
    marks: &mut Marks,
    kinds: Kinds,
    type_id: TypeId,
    keys: &[&Key],
) -> Result<(), AllocError>
    ensures { OnOk result ((p : Posting) → has_posting marks.new.keys p ≡
        (list_any (is_from_key kinds type_id p) (map (λ k. k.now) keys.now) || has_posting marks.old.keys p)) }
{
    for key in keys {
        mark_key(alloc, marks, kinds, type_id, key)?;
    }
    Ok(())
}

/// Puts the postings of the keys in which two attributes differ to the others.
fn mark_changed_keys(
    alloc: Global,
    marks: &mut Marks,
    kinds: Kinds,
    type_id: TypeId,
    before: &Attribute,
    after: &Attribute,
) -> Result<(), AllocError>
    ensures more { OnOk result ((p : Posting) → has_posting marks.new.keys p ≡ false → has_posting marks.old.keys p ≡
        false) }
    ensures apart { OnOk result ((p : Posting) → has_posting marks.new.keys p ≡ false →
        list_any (is_from_key kinds type_id p) before.now.keys ≡ list_any (is_from_key kinds type_id p)
        after.now.keys) }
{
    if !lists_keys(kinds) {
        return Ok(());
    }
    let earlier = keys_of(alloc, before)?;
    let later = keys_of(alloc, after)?;
    let changed = changed_keys(earlier.as_slice(), later.as_slice());
    mark_keys(alloc, marks, kinds, type_id, changed.before)?;
    mark_keys(alloc, marks, kinds, type_id, changed.after)
}

/// Puts the posting of several values of a type to the others, if there is an index in order.
#[tactic(auto, using(crate::proofs::Marking::same_several, crate::proofs::Marking::no_several))]
fn mark_any_several(
    alloc: Global,
    marks: &mut Marks,
    kinds: Kinds,
    type_id: TypeId,
) -> Result<(), AllocError>
    ensures { OnOk result ((p : Posting) → has_posting marks.new.keys p ≡
        (is_from_several kinds type_id true p || has_posting marks.old.keys p)) }
{
    if kinds.ordering {
        mark(alloc, marks, type_id, SEVERAL, &[])?;
    }
    Ok(())
}

/// Puts the postings that may list one of two attributes of a type and not the other to the others.
fn mark_pair(
    alloc: Global,
    marks: &mut Marks,
    indexes: &Indexes,
    before: &Attribute,
    after: &Attribute,
) -> Result<(), AllocError>
    requires { before.now.kind ≡ after.now.kind }
    ensures more { OnOk result ((p : Posting) → has_posting marks.new.keys p ≡ false → has_posting marks.old.keys p ≡
        false) }
    ensures apart { OnOk result ((p : Posting) (e d : List KeyedAttribute) → has_posting marks.new.keys p ≡ false →
        is_from_attribute indexes.now before.now e p ≡ is_from_attribute indexes.now after.now d p) }
{
    let type_id = before.type_id();
    let kinds = indexes.kinds(type_id);
    mark_any_several(alloc, marks, kinds, type_id)?;
    mark_changed_keys(alloc, marks, kinds, type_id, before, after)
}

/// Puts all postings that an attribute may bring to the others.
fn mark_whole(
    alloc: Global,
    marks: &mut Marks,
    indexes: &Indexes,
    attribute: &Attribute,
) -> Result<(), AllocError>
    ensures more { OnOk result ((p : Posting) → has_posting marks.new.keys p ≡ false → has_posting marks.old.keys p ≡
        false) }
    ensures whole { OnOk result ((p : Posting) (e : List KeyedAttribute) → has_posting marks.new.keys p ≡ false →
        is_from_attribute indexes.now attribute.now e p ≡ false) }
{
    let type_id = attribute.type_id();
    let kinds = indexes.kinds(type_id);
    mark_presence(alloc, marks, kinds, type_id)?;
    mark_any_several(alloc, marks, kinds, type_id)?;
    mark_keys_of(alloc, marks, kinds, attribute)
}

/// Puts all postings that values which one side may lack may bring to the others.
#[tactic(auto, using(crate::proofs::Untouched::named_nothing))]
fn mark_named(
    alloc: Global,
    marks: &mut Marks,
    indexes: &Indexes,
    named: &[Attribute],
) -> Result<(), AllocError>
    ensures more { OnOk result ((p : Posting) → has_posting marks.new.keys p ≡ false → has_posting marks.old.keys p ≡
        false) }
    ensures named { OnOk result ((p : Posting) → has_posting marks.new.keys p ≡ false →
        is_from_named indexes.now named.now p ≡ false) }
{
    let mut rest = named;
    while let Some((attribute, others)) = rest.split_first() {
        mark_whole(alloc, marks, indexes, attribute)?;
        rest = others;
    }
    Ok(())
}

/// Puts all postings that attributes may bring to the others, but for those of types that aren't touched whole.
#[tactic(auto, using(crate::proofs::Changed::entry_nothing))]
fn mark_all(
    alloc: Global,
    marks: &mut Marks,
    indexes: &Indexes,
    touched: &Touched<'_>,
    attributes: &[Attribute],
) -> Result<(), AllocError>
    ensures more { OnOk result ((p : Posting) → has_posting marks.new.keys p ≡ false → has_posting marks.old.keys p ≡
        false) }
    ensures all { OnOk result ((p : Posting) → is_whole_in touched.now (type_of p) ≡ true → has_posting
        marks.new.keys p ≡ false → lists_entry indexes.now attributes.now p ≡ false) }
{
    let mut rest = attributes;
    while let Some((attribute, others)) = rest.split_first() {
        if is_whole(touched, attribute) {
            mark_whole(alloc, marks, indexes, attribute)?;
        }
        rest = others;
    }
    Ok(())
}

/// The postings that may list the entry of some attributes and not that of others: any other posting lists both or
/// neither. Attributes in the same order are compared type by type, and where one has no fellow, the longer list is
/// taken to have one more there. Those of types that aren't touched whole are passed over: named values have the
/// postings that their keys ask, whatever else their attribute has.
pub fn marks_apart(
    alloc: Global,
    indexes: &Indexes,
    touched: &Touched<'_>,
    before: &[Attribute],
    after: &[Attribute],
) -> Result<Marks, AllocError>
    requires same { AreSameElsewhere touched.now before.now after.now }
    ensures { IfOk result (λ m. (p : Posting) → has_posting m.keys p ≡ false → lists_entry indexes.now before.now p ≡
        lists_entry indexes.now after.now p) }
{
    let mut marks = BTreeSet::new(alloc);
    mark_named(alloc, &mut marks, indexes, named(touched))?;
    let mut earlier = before;
    let mut later = after;
    while let Some((earlier_first, earlier_rest)) = earlier.split_first() {
        let Some((later_first, later_rest)) = later.split_first() else {
            mark_all(alloc, &mut marks, indexes, touched, earlier)?;
            return Ok(marks);
        };
        if !is_whole(touched, earlier_first) {
            earlier = earlier_rest;
        } else if !is_whole(touched, later_first) {
            later = later_rest;
        } else if earlier_first.type_id() == later_first.type_id() {
            mark_pair(alloc, &mut marks, indexes, earlier_first, later_first)?;
            earlier = earlier_rest;
            later = later_rest;
        } else if earlier.len() < later.len() {
            mark_whole(alloc, &mut marks, indexes, later_first)?;
            later = later_rest;
        } else {
            mark_whole(alloc, &mut marks, indexes, earlier_first)?;
            earlier = earlier_rest;
        }
    }
    mark_all(alloc, &mut marks, indexes, touched, later)?;
    Ok(marks)
}
