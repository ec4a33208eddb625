// An attribute whose values are changed one by one.

ghost use Rattle.std.specs.Prelude.{◌≡◌, ◌++◌, map, true, false, not, is_some, length, IfOk, OnOk, IfErr};
ghost use Rattle.std.specs.List.{list_any, list_all};
ghost use Rattle.std.specs.Str.{bytes_eq};
ghost use Rattle.dir_entry.specs.ldap_match.Keyed.{AreKeysOf};
ghost use Rattle.dir_entry.specs.ldap_schema.Rules.{equality_of};
ghost use Rattle.dir_entry.specs.Picked.{picked};
ghost use Rattle.entry_changes.specs.private.Compared.{RefusesFor};
ghost use Rattle.entry_changes.specs.Editing.{holds, values_left, is_empty as is_empty_list};
ghost use Rattle.entry_changes.specs.Opening.{since, octets_by, held_in};
ghost use Rattle.entry_changes.specs.private.Opening.{Fits, IsIndexed};

use crate::index::{Index, Indexed, hold, holds_all_of, holds_some_of, index_of, let_go, marks_of};
use crate::searched::{has_all_of, has_some_of, without};
use dir_entry::{Attribute, EntryError, Schema, TypeId, equality_rule, tests_are_items};
use std::alloc::{AllocError, Global};
use std::marker::Model;

/// A change of an attribute looks for so few values among all that it has: a look-up compares digests. An index costs as
/// much as some hundreds of look-ups.
const FEW: usize = 64;

/// So many changes look for their values. The next one makes an index.
const SEARCHES: usize = 16;

/// An attribute whose values may be changed one by one: a value that is deleted stays in its place, and the index says
/// which are held.
#[derive(Drop)]
pub struct Opened {
    attribute: Attribute,
    /// Made by the first change of many values, or where many changes have looked for theirs; without it all values are
    /// held.
    index: Option<Index>,
    /// How many changes have looked for their values.
    searches: usize,
}

impl Model for Opened {
    ghost use Rattle.dir_entry.specs.Entry.{KeyedAttribute};
    ghost use Rattle.entry_changes.specs.Opening.{seen};
    ghost use Rattle.entry_changes.specs.private.Opening.{FitsIn};

    ghost Value = { KeyedAttribute };

    ghost view = { λ o. seen o.attribute o.index };

    ghost invariant = { λ o. FitsIn o.attribute o.index };
}

/// The attribute with the values that the index says are held.
fn held(alloc: Global, attribute: Attribute, index: &Index) -> Result<Attribute, AllocError>
    ensures { IfOk result (λ a. a ≡ held_in index.now.by_keys (since index.now.held.entries) attribute) }
{
    let marks = marks_of(alloc, index, &attribute)?;
    attribute.kept(alloc, marks.as_slice())
}

/// The attribute with an index that is made of it.
fn newly_indexed(alloc: Global, by_keys: bool, attribute: Attribute) -> Result<Indexed, AllocError>
    requires { length (octets_by by_keys attribute) ≡ length attribute.values }
    ensures { IfOk result (λ x. IsIndexed by_keys attribute x) }
{
    let index = index_of(alloc, by_keys, &attribute)?;
    Ok(Indexed { attribute, index })
}

/// The attribute with its index, or with a new one, where values are compared by something else now.
fn indexed_again(
    alloc: Global,
    by_keys: bool,
    attribute: Attribute,
    index: Index,
) -> Result<Indexed, AllocError>
    requires fits { Fits index.by_keys (since index.held.entries) attribute }
    requires long { length (octets_by by_keys (held_in index.by_keys (since index.held.entries) attribute))
        ≡ length (held_in index.by_keys (since index.held.entries) attribute).values }
    ensures { IfOk result (λ x. IsIndexed by_keys (held_in index.by_keys (since index.held.entries) attribute) x) }
{
    if index.by_keys == by_keys {
        return Ok(Indexed { attribute, index });
    }
    let attribute = held(alloc, attribute, &index)?;
    newly_indexed(alloc, by_keys, attribute)
}

/// The attribute with an index.
fn indexed_by(alloc: Global, by_keys: bool, opened: Opened) -> Result<Indexed, AllocError>
    requires { length (octets_by by_keys opened) ≡ length opened.values }
    ensures { IfOk result (λ x. IsIndexed by_keys opened x) }
{
    let Opened {
        attribute,
        index,
        ..
    } = opened;
    match index {
        Some(index) => indexed_again(alloc, by_keys, attribute, index),
        None => newly_indexed(alloc, by_keys, attribute),
    }
}

/// Whether values of a type are compared by their keys under the schema.
fn is_by_keys(schema: &Schema, type_id: TypeId) -> bool
    ensures { result ≡ is_some (equality_of schema.now type_id) }
{
    equality_rule(schema, type_id).is_some()
}

/// The attribute with an index by what the schema compares its values by.
fn indexed(alloc: Global, schema: &Schema, opened: Opened) -> Result<Indexed, AllocError>
    requires { AreKeysOf schema.now opened.kind opened.values opened.keys }
    ensures { IfOk result (λ x. IsIndexed (is_some (equality_of schema.now opened.kind)) opened x) }
{
    let by_keys = is_by_keys(schema, opened.type_id());
    indexed_by(alloc, by_keys, opened)
}

/// The attribute with the given values after those that are held; none of them is.
fn extended(
    alloc: Global,
    attribute: Attribute,
    index: Index,
    given: Attribute,
) -> Result<Opened, AllocError>
    requires long { length (octets_by index.by_keys given) ≡ length given.values }
    requires fits { Fits index.by_keys (since index.held.entries) attribute }
    requires fresh { list_any (λ x. is_some (since index.held.entries x)) (octets_by index.by_keys given) ≡ false }
    ensures kind { IfOk result (λ o. o.kind ≡ attribute.kind) }
    ensures values { IfOk result (λ o. o.values ≡ (held_in index.by_keys (since index.held.entries) attribute).values
        ++ given.values) }
    ensures octets { IfOk result (λ o. octets_by index.by_keys o
        ≡ octets_by index.by_keys (held_in index.by_keys (since index.held.entries) attribute) ++ octets_by
        index.by_keys given) }
{
    let mut index = index;
    hold(alloc, &mut index, &given, attribute.len())?;
    let attribute = attribute.joined(alloc, given)?;
    Ok(Opened {
        attribute,
        index: Some(index),
        searches: 0,
    })
}

/// The attribute with the values that are held and not among the given ones.
fn lessened(
    alloc: Global,
    attribute: Attribute,
    index: Index,
    given: &Attribute,
) -> Result<Opened, AllocError>
    requires fits { Fits index.by_keys (since index.held.entries) attribute }
    ensures kind { IfOk result (λ o. o.kind ≡ attribute.kind) }
    ensures values { IfOk result (λ o. o.values
        ≡ picked (map (λ x. not (list_any (bytes_eq x) (octets_by index.by_keys given.now)))
        (octets_by index.by_keys (held_in index.by_keys (since index.held.entries) attribute)))
        (held_in index.by_keys (since index.held.entries) attribute).values) }
    ensures octets { IfOk result (λ o. octets_by index.by_keys o
        ≡ picked (map (λ x. not (list_any (bytes_eq x) (octets_by index.by_keys given.now)))
        (octets_by index.by_keys (held_in index.by_keys (since index.held.entries) attribute)))
        (octets_by index.by_keys (held_in index.by_keys (since index.held.entries) attribute))) }
{
    let mut index = index;
    let_go(alloc, &mut index, given)?;
    Ok(Opened {
        attribute,
        index: Some(index),
        searches: 0,
    })
}

/// The attribute with the given values after its own, if none of them is held: asked of an index.
fn joined_by_index(
    alloc: Global,
    schema: &Schema,
    held: Opened,
    given: Attribute,
) -> Result<Opened, EntryError>
    requires kind { held.kind ≡ given.kind }
    requires held { AreKeysOf schema.now held.kind held.values held.keys }
    requires given { AreKeysOf schema.now given.kind given.values given.keys }
    ensures kind { IfOk result (λ a. a.kind ≡ given.kind) }
    ensures values { IfOk result (λ a. a.values ≡ held.values ++ given.values) }
    ensures keyed { IfOk result (λ a. AreKeysOf schema.now a.kind a.values a.keys) }
    ensures fresh { OnOk result (list_any (holds schema.now given.kind held.values) given.values ≡ false) }
    ensures refused { IfErr result (λ e. RefusesFor 20 (list_any (holds schema.now given.kind held.values)
        given.values) e) }
{
    tests_are_items();
    let Indexed { attribute, index } = indexed(alloc, schema, held)?;
    if holds_some_of(alloc, &index, &given)? {
        return Err(EntryError::AttributeOrValueExists);
    }
    Ok(extended(alloc, attribute, index, given)?)
}

/// The same, asked by a look-up of each given value.
fn joined_by_search(
    alloc: Global,
    schema: &Schema,
    searches: usize,
    held: Attribute,
    given: Attribute,
) -> Result<Opened, EntryError>
    requires kind { held.kind ≡ given.kind }
    requires held { AreKeysOf schema.now held.kind held.values held.keys }
    requires given { AreKeysOf schema.now given.kind given.values given.keys }
    ensures kind { IfOk result (λ a. a.kind ≡ given.kind) }
    ensures values { IfOk result (λ a. a.values ≡ held.values ++ given.values) }
    ensures keyed { IfOk result (λ a. AreKeysOf schema.now a.kind a.values a.keys) }
    ensures fresh { OnOk result (list_any (holds schema.now given.kind held.values) given.values ≡ false) }
    ensures refused { IfErr result (λ e. RefusesFor 20 (list_any (holds schema.now given.kind held.values)
        given.values) e) }
{
    tests_are_items();
    let by_keys = is_by_keys(schema, held.type_id());
    if has_some_of(alloc, by_keys, &held, &given)? {
        return Err(EntryError::AttributeOrValueExists);
    }
    let attribute = held.joined(alloc, given)?;
    Ok(Opened {
        attribute,
        index: None,
        searches: searches.saturating_add(1),
    })
}

/// The attribute with the given values after its own, if none of them is held.
pub fn joined(
    alloc: Global,
    schema: &Schema,
    held: Opened,
    given: Attribute,
) -> Result<Opened, EntryError>
    requires kind { held.kind ≡ given.kind }
    requires held { AreKeysOf schema.now held.kind held.values held.keys }
    requires given { AreKeysOf schema.now given.kind given.values given.keys }
    ensures kind { IfOk result (λ a. a.kind ≡ given.kind) }
    ensures values { IfOk result (λ a. a.values ≡ held.values ++ given.values) }
    ensures keyed { IfOk result (λ a. AreKeysOf schema.now a.kind a.values a.keys) }
    ensures fresh { OnOk result (list_any (holds schema.now given.kind held.values) given.values ≡ false) }
    ensures refused { IfErr result (λ e. RefusesFor 20 (list_any (holds schema.now given.kind held.values)
        given.values) e) }
{
    if held.is_to_search(&given) {
        let searches = held.searches();
        let attribute = held.into_attribute(alloc)?;
        return joined_by_search(alloc, schema, searches, attribute, given);
    }
    joined_by_index(alloc, schema, held, given)
}

/// The attribute with the values that are not among the given ones, if all of these are held: asked of an index.
fn left_by_index(
    alloc: Global,
    schema: &Schema,
    held: Opened,
    given: &Attribute,
) -> Result<Opened, EntryError>
    requires kind { held.kind ≡ given.now.kind }
    requires held { AreKeysOf schema.now held.kind held.values held.keys }
    requires given { AreKeysOf schema.now given.now.kind given.now.values given.now.keys }
    ensures kind { IfOk result (λ a. a.kind ≡ held.kind) }
    ensures values { IfOk result (λ a. a.values ≡ values_left schema.now held.kind given.now.values held.values) }
    ensures keyed { IfOk result (λ a. AreKeysOf schema.now a.kind a.values a.keys) }
    ensures held { OnOk result (list_all (holds schema.now held.kind held.values) given.now.values ≡ true) }
    ensures refused { IfErr result
        (λ e. RefusesFor 16 (not (list_all (holds schema.now held.kind held.values) given.now.values)) e) }
{
    tests_are_items();
    let Indexed { attribute, index } = indexed(alloc, schema, held)?;
    if !holds_all_of(alloc, &index, given)? {
        return Err(EntryError::NoSuchAttribute);
    }
    Ok(lessened(alloc, attribute, index, given)?)
}

/// The same, asked by a look-up of each given value.
fn left_by_search(
    alloc: Global,
    schema: &Schema,
    searches: usize,
    held: Attribute,
    given: &Attribute,
) -> Result<Opened, EntryError>
    requires kind { held.kind ≡ given.now.kind }
    requires held { AreKeysOf schema.now held.kind held.values held.keys }
    requires given { AreKeysOf schema.now given.now.kind given.now.values given.now.keys }
    ensures kind { IfOk result (λ a. a.kind ≡ held.kind) }
    ensures values { IfOk result (λ a. a.values ≡ values_left schema.now held.kind given.now.values held.values) }
    ensures keyed { IfOk result (λ a. AreKeysOf schema.now a.kind a.values a.keys) }
    ensures held { OnOk result (list_all (holds schema.now held.kind held.values) given.now.values ≡ true) }
    ensures refused { IfErr result
        (λ e. RefusesFor 16 (not (list_all (holds schema.now held.kind held.values) given.now.values)) e) }
{
    tests_are_items();
    let by_keys = is_by_keys(schema, held.type_id());
    if !has_all_of(alloc, by_keys, &held, given)? {
        return Err(EntryError::NoSuchAttribute);
    }
    let attribute = without(alloc, by_keys, held, given)?;
    Ok(Opened {
        attribute,
        index: None,
        searches: searches.saturating_add(1),
    })
}

/// The attribute with the values that are not among the given ones, if all of these are held.
pub fn left(
    alloc: Global,
    schema: &Schema,
    held: Opened,
    given: &Attribute,
) -> Result<Opened, EntryError>
    requires kind { held.kind ≡ given.now.kind }
    requires held { AreKeysOf schema.now held.kind held.values held.keys }
    requires given { AreKeysOf schema.now given.now.kind given.now.values given.now.keys }
    ensures kind { IfOk result (λ a. a.kind ≡ held.kind) }
    ensures values { IfOk result (λ a. a.values ≡ values_left schema.now held.kind given.now.values held.values) }
    ensures keyed { IfOk result (λ a. AreKeysOf schema.now a.kind a.values a.keys) }
    ensures held { OnOk result (list_all (holds schema.now held.kind held.values) given.now.values ≡ true) }
    ensures refused { IfErr result
        (λ e. RefusesFor 16 (not (list_all (holds schema.now held.kind held.values) given.now.values)) e) }
{
    if held.is_to_search(given) {
        let searches = held.searches();
        let attribute = held.into_attribute(alloc)?;
        return left_by_search(alloc, schema, searches, attribute, given);
    }
    left_by_index(alloc, schema, held, given)
}

impl Opened {
    /// The attribute, whose values may be changed from now on.
    pub fn of(attribute: Attribute) -> Opened
        ensures { result ≡ attribute }
    {
        Opened {
            attribute,
            index: None,
            searches: 0,
        }
    }

    /// The attribute as it is now.
    pub fn into_attribute(self, alloc: Global) -> Result<Attribute, AllocError>
        ensures { IfOk result (λ a. a ≡ self) }
    {
        let Opened {
            attribute,
            index,
            ..
        } = self;
        match index {
            Some(index) => held(alloc, attribute, &index),
            None => Ok(attribute),
        }
    }

    /// The type.
    pub fn type_id(&self) -> TypeId
        ensures { result ≡ self.now.kind }
    {
        self.attribute.type_id()
    }

    /// Whether no value is left.
    pub fn is_empty(&self) -> bool
        ensures { result ≡ is_empty_list self.now.values }
    {
        match &self.index {
            Some(index) => index.held.is_empty(),
            None => self.attribute.is_empty(),
        }
    }

    /// How many changes have looked for their values.
    fn searches(&self) -> usize {
        self.searches
    }

    /// Whether the given values are looked for among all: they and the changes are few, and there is no index.
    fn is_to_search(&self, given: &Attribute) -> bool {
        self.index.is_none() && self.searches < SEARCHES && given.len() <= FEW
    }
}
