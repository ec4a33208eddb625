// The postings that list an entry. Made of an index choice and attributes, as a set of keys.

ghost use Rattle.std.specs.Prelude.{◌≡◌, ◌||◌, ◌&&◌, ◌∷◌, [], nat_lt, length, IfOk, OnOk};
ghost use Rattle.std.specs.List.{list_any};
ghost use Rattle.dir_index.specs.declared.posting.Posting.{Posting};
ghost use Rattle.dir_index.specs.ListKeys.{key_of, is_same_list};
ghost use Rattle.dir_index.specs.Ordered.{type_of};
ghost use Rattle.dir_index.specs.private.Touched.{is_touched as is_touched_by};
ghost use Rattle.dir_index.specs.private.Marked.{has_posting, lists_entry, is_of_key, is_first_run, is_run_of, is_from_key, is_from_presence, makes_several, is_from_several, is_from_attribute};

use crate::list_key::{ListKey, PRESENCE, RUN, SEVERAL, VALUE};
use crate::touched::{Touched, has_type, is_touched};
use index_choice::{Attribute, Indexes, Key, Kinds, Octets, TypeId};
use std::alloc::{AllocError, Global};
use std::collections::BTreeSet;

/// The keys of the postings that list an entry.
pub type Marks = BTreeSet<ListKey>;

/// The number of a type in half a word; want of memory, where there are types beyond it.
fn short_number(type_id: TypeId) -> Result<u32, AllocError>
    ensures { IfOk result (λ n. n ≡ type_id) }
{
    let number = type_id.number();
    if number > u32::MAX as usize {
        return Err(AllocError);
    }
    Ok(number as u32)
}

/// Puts a key to the others.
pub fn mark(
    alloc: Global,
    marks: &mut Marks,
    type_id: TypeId,
    rank: u8,
    octets: &[u8],
) -> Result<(), AllocError>
    ensures { OnOk result ((p : Posting) → has_posting marks.new.keys p ≡
        (is_same_list (record { type_id = type_id; rank = rank; octets = octets.now }) (key_of p) || has_posting
        marks.old.keys p)) }
{
    let number = short_number(type_id)?;
    let octets = Octets::new(alloc, octets)?;
    marks.insert(ListKey {
        type_id: number,
        rank,
        octets,
    })?;
    Ok(())
}

/// Puts the posting of the first three octets to the others, if there are three.
#[tactic(auto, using(crate::proofs::Marking::same_run))]
fn mark_first(
    alloc: Global,
    marks: &mut Marks,
    type_id: TypeId,
    octets: &[u8],
) -> Result<(), AllocError>
    ensures { OnOk result ((p : Posting) → has_posting marks.new.keys p ≡
        (is_first_run type_id octets.now p || has_posting marks.old.keys p)) }
{
    if octets.len() < 3 {
        return Ok(());
    }
    mark(alloc, marks, type_id, RUN, &octets[..3])
}

/// Puts the postings of each run of three octets to the others.
fn mark_runs(
    alloc: Global,
    marks: &mut Marks,
    type_id: TypeId,
    octets: &[u8],
) -> Result<(), AllocError>
    ensures { OnOk result ((p : Posting) → has_posting marks.new.keys p ≡
        (is_run_of type_id octets.now p || has_posting marks.old.keys p)) }
{
    let mut rest = octets;
    while let Some((_, behind)) = rest.split_first() {
        mark_first(alloc, marks, type_id, rest)?;
        rest = behind;
    }
    Ok(())
}

/// Puts the posting of a key to the others.
#[tactic(auto, using(crate::proofs::Marking::same_value))]
fn mark_value(
    alloc: Global,
    marks: &mut Marks,
    type_id: TypeId,
    key: &Key,
) -> Result<(), AllocError>
    ensures { OnOk result ((p : Posting) → has_posting marks.new.keys p ≡ (is_of_key type_id key.now p || has_posting
        marks.old.keys p)) }
{
    mark(alloc, marks, type_id, VALUE, key.as_octets())
}

/// Puts the postings of a key to the others, as the kinds of its type ask.
pub fn mark_key(
    alloc: Global,
    marks: &mut Marks,
    kinds: Kinds,
    type_id: TypeId,
    key: &Key,
) -> Result<(), AllocError>
    ensures { OnOk result ((p : Posting) → has_posting marks.new.keys p ≡
        (is_from_key kinds type_id p key.now || has_posting marks.old.keys p)) }
{
    if kinds.equality || kinds.ordering {
        mark_value(alloc, marks, type_id, key)?;
    }
    if kinds.substrings {
        mark_runs(alloc, marks, type_id, key.as_octets())?;
    }
    Ok(())
}

/// Puts the postings of keys to the others.
fn mark_keys(
    alloc: Global,
    marks: &mut Marks,
    kinds: Kinds,
    type_id: TypeId,
    keys: &[Key],
) -> Result<(), AllocError>
    ensures { OnOk result ((p : Posting) → has_posting marks.new.keys p ≡
        (list_any (is_from_key kinds type_id p) keys.now || has_posting marks.old.keys p)) }
{
    for key in keys {
        mark_key(alloc, marks, kinds, type_id, key)?;
    }
    Ok(())
}

/// Puts the postings of an attribute's keys to the others.
pub fn mark_keys_of(
    alloc: Global,
    marks: &mut Marks,
    kinds: Kinds,
    attribute: &Attribute,
) -> Result<(), AllocError>
    ensures { OnOk result ((p : Posting) → has_posting marks.new.keys p ≡
        (list_any (is_from_key kinds attribute.now.kind p) attribute.now.keys || has_posting marks.old.keys p)) }
{
    let type_id = attribute.type_id();
    let mut rest = attribute.parts();
    while let Some((part, others)) = rest.split_first() {
        mark_keys(alloc, marks, kinds, type_id, part.keys)?;
        rest = others;
    }
    Ok(())
}

/// Puts the posting of an attribute's presence to the others, if there is such an index.
#[tactic(auto, using(crate::proofs::Marking::same_presence, crate::proofs::Marking::no_presence))]
pub fn mark_presence(
    alloc: Global,
    marks: &mut Marks,
    kinds: Kinds,
    type_id: TypeId,
) -> Result<(), AllocError>
    ensures { OnOk result ((p : Posting) → has_posting marks.new.keys p ≡
        (is_from_presence kinds type_id p || has_posting marks.old.keys p)) }
{
    if kinds.presence {
        mark(alloc, marks, type_id, PRESENCE, &[])?;
    }
    Ok(())
}

/// Whether an attribute has several keys.
fn has_several_keys(attribute: &Attribute) -> bool
    ensures { result ≡ nat_lt 1 (length attribute.now.keys) }
{
    let mut count: usize = 0;
    let mut rest = attribute.parts();
    while let Some((part, others)) = rest.split_first() {
        if part.keys.len() > 1 - count {
            return true;
        }
        count += part.keys.len();
        rest = others;
    }
    false
}

/// Whether an attribute before others makes the entry one that may have several values of its
/// type.
pub fn may_have_several(attribute: &Attribute, others: &[Attribute]) -> bool
    ensures { result ≡ makes_several attribute.now others.now }
{
    has_several_keys(attribute) || has_type(others, attribute.type_id())
}

/// Puts the posting of several values to the others, if there may be several, and an index in order.
#[tactic(auto, using(crate::proofs::Marking::same_several, crate::proofs::Marking::no_several))]
fn mark_several(
    alloc: Global,
    marks: &mut Marks,
    kinds: Kinds,
    attribute: &Attribute,
    others: &[Attribute],
) -> Result<(), AllocError>
    ensures { OnOk result ((p : Posting) → has_posting marks.new.keys p ≡
        (is_from_several kinds attribute.now.kind (makes_several attribute.now others.now) p || has_posting
        marks.old.keys p)) }
{
    if kinds.ordering && may_have_several(attribute, others) {
        mark(alloc, marks, attribute.type_id(), SEVERAL, &[])?;
    }
    Ok(())
}

/// Puts the postings of an attribute before others to those that are there.
fn mark_attribute(
    alloc: Global,
    marks: &mut Marks,
    indexes: &Indexes,
    attribute: &Attribute,
    others: &[Attribute],
) -> Result<(), AllocError>
    ensures { OnOk result ((p : Posting) → has_posting marks.new.keys p ≡ (is_from_attribute indexes.now attribute.now
        others.now p || has_posting marks.old.keys p)) }
{
    let type_id = attribute.type_id();
    let kinds = indexes.kinds(type_id);
    mark_presence(alloc, marks, kinds, type_id)?;
    mark_several(alloc, marks, kinds, attribute, others)?;
    mark_keys_of(alloc, marks, kinds, attribute)
}

/// The postings of types that a change may touch that list the entry of these attributes.
pub fn marks_of(
    alloc: Global,
    indexes: &Indexes,
    touched: &Touched<'_>,
    attributes: &[Attribute],
) -> Result<Marks, AllocError>
    ensures { IfOk result (λ m. (p : Posting) → has_posting m.keys p ≡ (is_touched_by touched.now (type_of p)
        && lists_entry indexes.now attributes.now p)) }
{
    let mut marks = BTreeSet::new(alloc);
    let mut rest = attributes;
    while let Some((attribute, others)) = rest.split_first() {
        if is_touched(touched, attribute) {
            mark_attribute(alloc, &mut marks, indexes, attribute, others)?;
        }
        rest = others;
    }
    Ok(marks)
}
