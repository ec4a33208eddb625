// Puts the values of an entry's relative name in and out (RFC 4512 2.3.2).

ghost use Rattle.std.specs.Prelude.{◌≡◌, ◌∷◌, [], ℕ, List, option_map, slice_get, false, not, nat_eq, map, Some, None, Ok, IfOk, IfErr};
ghost use Rattle.std.specs.List.{list_any, list_all, prefix_len};
ghost use Rattle.std.specs.Str.{bytes_eq};
ghost use Rattle.dir_entry.specs.ldap_schema.Schema.{SchemaModel};
ghost use Rattle.dir_entry.specs.ldap_schema.Rules.{equality_of};
ghost use Rattle.dir_entry.specs.ldap_match.Meaning.{meaning};
ghost use Rattle.dir_entry.specs.ldap_match.Keyed.{key_at, AreKeysOf};
ghost use Rattle.dir_entry.specs.Entry.{KeyedAttribute, attributes_of, IsKeyedBy};
ghost use Rattle.dir_entry.specs.Values.{is_equivalent};
ghost use Rattle.dir_entry.specs.Adding.{Refuses};
ghost use Rattle.entry_changes.specs.private.Compared.{values_held};
ghost use Rattle.entry_changes.specs.Editing.{holds, values_of, with_added, with_deleted, place as place_of};
ghost use Rattle.entry_changes.specs.Naming.{has_value, with_value, with_rdn, has_rdn, is_same_value, without_value, without_rdn};

use crate::changing::{add_values, delete_values};
use crate::working::Working;
use dir_entry::{
    Attribute, Entry, EntryError, Key, Rule, Schema, TypeAndValue, TypeId, ValueError,
    equality_rule, key, tests_are_items,
};
use std::alloc::{AllocError, Global};

/// How many attributes stand before that of the type.
fn count_before(attributes: &[Attribute], type_id: TypeId) -> usize
    ensures { result ≡ prefix_len (λ a. not (nat_eq a.kind type_id)) attributes.now }
{
    let mut count = 0;
    for attribute in attributes {
        if attribute.type_id() == type_id {
            return count;
        }
        count += 1;
    }
    count
}

/// Where the attribute of the type stands; the end, where there is none.
fn place(attributes: &[Attribute], type_id: TypeId) -> usize
    ensures { result ≡ place_of type_id (attributes_of attributes.now) }
{
    count_before(attributes, type_id)
}

/// The attribute in a place; none, past the end.
fn attribute_at(attributes: &[Attribute], place: usize) -> Option<&Attribute>
    ensures { option_map (λ x. x.now) result ≡ slice_get attributes.now place }
{
    attributes.get(place)
}

/// The attribute of the type; none, where it is not there.
fn attribute_of(attributes: &[Attribute], type_id: TypeId) -> Option<&Attribute>
    ensures kind { (a : KeyedAttribute) → option_map (λ x. x.now) result ≡ Some a → a.kind ≡ type_id }
    ensures keys { (s : SchemaModel) → IsKeyedBy s attributes.now → (a : KeyedAttribute) →
        option_map (λ x. x.now) result ≡ Some a → AreKeysOf s a.kind a.values a.keys }
    ensures values { values_held (option_map (λ x. x.now) result) ≡ values_of type_id (attributes_of attributes.now) }
{
    attribute_at(attributes, place(attributes, type_id))
}

/// The key of a value; none, where it means nothing under the rule.
fn key_or_none(
    alloc: Global,
    schema: &Schema,
    rule: Rule,
    value: &[u8],
) -> Result<Option<Key>, AllocError>
    ensures some { (k : List ℕ) → result ≡ Ok (Some k) → key_at schema.now rule value.now ≡ Some k }
    ensures none { result ≡ Ok None → meaning schema.now rule value.now ≡ None }
{
    match key(alloc, schema, rule, value) {
        Ok(key) => Ok(Some(key)),
        Err(ValueError::NotInSyntax) => Ok(None),
        Err(ValueError::NoMemory) => Err(AllocError),
    }
}

/// Whether the attribute has a value that is equivalent to this one under the rule.
fn holds_by_rule(
    alloc: Global,
    schema: &Schema,
    rule: Rule,
    attribute: &Attribute,
    value: &[u8],
) -> Result<bool, AllocError>
    requires rule { equality_of schema.now attribute.now.kind ≡ Some rule }
    requires keyed { AreKeysOf schema.now attribute.now.kind attribute.now.values attribute.now.keys }
    ensures { IfOk result (λ b. b ≡ holds schema.now attribute.now.kind attribute.now.values value.now) }
{
    tests_are_items();
    match key_or_none(alloc, schema, rule, value)? {
        Some(key) => Ok(attribute.has(true, key.as_octets())),
        None => Ok(false),
    }
}

/// Whether the attribute has a value that is equivalent to this one.
fn holds_value(
    alloc: Global,
    schema: &Schema,
    attribute: &Attribute,
    value: &[u8],
) -> Result<bool, AllocError>
    requires { AreKeysOf schema.now attribute.now.kind attribute.now.values attribute.now.keys }
    ensures { IfOk result (λ b. b ≡ holds schema.now attribute.now.kind attribute.now.values value.now) }
{
    match equality_rule(schema, attribute.type_id()) {
        Some(rule) => holds_by_rule(alloc, schema, rule, attribute, value),
        None => Ok(attribute.has(false, value)),
    }
}

/// Whether two values of a type are equivalent.
fn are_equivalent(
    alloc: Global,
    schema: &Schema,
    type_id: TypeId,
    a: &[u8],
    b: &[u8],
) -> Result<bool, AllocError>
    ensures { IfOk result (λ r. r ≡ is_equivalent schema.now type_id a.now b.now) }
{
    match equality_rule(schema, type_id) {
        Some(rule) => are_equivalent_by(alloc, schema, type_id, rule, a, b),
        None => Ok(a == b),
    }
}

/// Whether two values of a type are equivalent under its EQUALITY rule.
fn are_equivalent_by(
    alloc: Global,
    schema: &Schema,
    type_id: TypeId,
    rule: Rule,
    a: &[u8],
    b: &[u8],
) -> Result<bool, AllocError>
    requires { equality_of schema.now type_id ≡ Some rule }
    ensures { IfOk result (λ r. r ≡ is_equivalent schema.now type_id a.now b.now) }
{
    tests_are_items();
    let Some(first) = key_or_none(alloc, schema, rule, a)? else {
        return Ok(false);
    };
    let Some(second) = key_or_none(alloc, schema, rule, b)? else {
        return Ok(false);
    };
    Ok(first.is_same(&second))
}

/// Whether two types with values are one.
fn are_same(
    alloc: Global,
    schema: &Schema,
    a: &TypeAndValue,
    b: &TypeAndValue,
) -> Result<bool, AllocError>
    ensures { IfOk result (λ r. r ≡ is_same_value schema.now a.now b.now) }
{
    if a.type_id() != b.type_id() {
        return Ok(false);
    }
    are_equivalent(
        alloc,
        schema,
        a.type_id(),
        a.value().as_bytes(),
        b.value().as_bytes(),
    )
}

/// Whether one of the types with values is this one.
fn is_among(
    alloc: Global,
    schema: &Schema,
    pair: &TypeAndValue,
    others: &[TypeAndValue],
) -> Result<bool, AllocError>
    ensures { IfOk result (λ r. r ≡ list_any (is_same_value schema.now pair.now) others.now) }
{
    for other in others {
        if are_same(alloc, schema, pair, other)? {
            return Ok(true);
        }
    }
    Ok(false)
}

/// A list of one value.
fn one_value(alloc: Global, value: &str) -> Result<Vec<Vec<u8>>, AllocError>
    ensures { IfOk result (λ v. map (λ v. v.items) v.items ≡ value.now ∷ []) }
{
    let mut values = Vec::with_capacity(alloc, 1)?;
    values.push(value.as_bytes().to_vec(alloc)?)?;
    Ok(values)
}

/// Whether the entry has a value that is equivalent to that of the type.
fn holds_pair(
    alloc: Global,
    schema: &Schema,
    entry: &Entry,
    pair: &TypeAndValue,
) -> Result<bool, AllocError>
    requires { IsKeyedBy schema.now entry.now }
    ensures { IfOk result (λ b. b ≡ has_value schema.now (attributes_of entry.now) pair.now) }
{
    match attribute_of(entry.attributes(), pair.type_id()) {
        None => Ok(false),
        Some(attribute) => holds_value(alloc, schema, attribute, pair.value().as_bytes()),
    }
}

/// Whether the entry has the values of a relative name (RFC 4512 2.3.2).
pub fn holds_rdn(
    alloc: Global,
    schema: &Schema,
    entry: &Entry,
    rdn: &[TypeAndValue],
) -> Result<bool, AllocError>
    requires { IsKeyedBy schema.now entry.now }
    ensures { IfOk result (λ b. b ≡ has_rdn schema.now rdn.now (attributes_of entry.now)) }
{
    for pair in rdn {
        if !holds_pair(alloc, schema, entry, pair)? {
            return Ok(false);
        }
    }
    Ok(true)
}

/// The entry with the values added to those of the type.
fn add_to_entry(
    alloc: Global,
    schema: &Schema,
    entry: Entry,
    type_id: TypeId,
    values: Vec<Vec<u8>>,
) -> Result<Entry, EntryError>
    requires { IsKeyedBy schema.now entry }
    ensures ok { IfOk result (λ e. with_added schema.now type_id (map (λ v. v.items) values.items)
        (attributes_of entry) ≡ Ok (attributes_of e)) }
    ensures keyed { IfOk result (λ e. IsKeyedBy schema.now e) }
    ensures refused { IfErr result (λ e. Refuses e (with_added schema.now type_id (map (λ v. v.items) values.items)
        (attributes_of entry))) }
{
    let working = Working::of(alloc, entry)?;
    let changed = add_values(alloc, schema, working, type_id, values)?;
    Ok(changed.into_entry(alloc)?)
}

/// The entry without the values, or without the attribute where no value is given or all are deleted.
fn delete_from_entry(
    alloc: Global,
    schema: &Schema,
    entry: Entry,
    type_id: TypeId,
    values: Vec<Vec<u8>>,
) -> Result<Entry, EntryError>
    requires { IsKeyedBy schema.now entry }
    ensures ok { IfOk result (λ e. with_deleted schema.now type_id (map (λ v. v.items) values.items)
        (attributes_of entry) ≡ Ok (attributes_of e)) }
    ensures keyed { IfOk result (λ e. IsKeyedBy schema.now e) }
    ensures refused { IfErr result (λ e. Refuses e (with_deleted schema.now type_id (map (λ v. v.items) values.items)
        (attributes_of entry))) }
{
    let working = Working::of(alloc, entry)?;
    let changed = delete_values(alloc, schema, working, type_id, values)?;
    Ok(changed.into_entry(alloc)?)
}

/// The entry with a value of its relative name, unless it has it.
fn add_pair(
    alloc: Global,
    schema: &Schema,
    entry: Entry,
    pair: &TypeAndValue,
) -> Result<Entry, EntryError>
    requires { IsKeyedBy schema.now entry }
    ensures ok { IfOk result (λ e. with_value schema.now pair.now (attributes_of entry) ≡ Ok (attributes_of e)) }
    ensures keyed { IfOk result (λ e. IsKeyedBy schema.now e) }
    ensures refused { IfErr result (λ e. Refuses e (with_value schema.now pair.now (attributes_of entry))) }
{
    if holds_pair(alloc, schema, &entry, pair)? {
        return Ok(entry);
    }
    let values = one_value(alloc, pair.value())?;
    add_to_entry(alloc, schema, entry, pair.type_id(), values)
}

/// The entry with the values of a relative name that it lacks (RFC 4511 4.7, 4.9): 21 where one is not in its type's
/// syntax.
pub fn add_rdn(
    alloc: Global,
    schema: &Schema,
    entry: Entry,
    rdn: &[TypeAndValue],
) -> Result<Entry, EntryError>
    requires { IsKeyedBy schema.now entry }
    ensures ok { IfOk result (λ e. with_rdn schema.now rdn.now (attributes_of entry) ≡ Ok (attributes_of e)) }
    ensures keyed { IfOk result (λ e. IsKeyedBy schema.now e) }
    ensures refused { IfErr result (λ e. Refuses e (with_rdn schema.now rdn.now (attributes_of entry))) }
{
    let mut so_far = entry;
    for pair in rdn {
        so_far = add_pair(alloc, schema, so_far, pair)?;
    }
    Ok(so_far)
}

/// The entry without a value of its former relative name, unless it is in the new one too.
fn delete_pair(
    alloc: Global,
    schema: &Schema,
    entry: Entry,
    new: &[TypeAndValue],
    pair: &TypeAndValue,
) -> Result<Entry, EntryError>
    requires { IsKeyedBy schema.now entry }
    ensures ok { IfOk result (λ e. without_value schema.now new.now pair.now (attributes_of entry) ≡
        Ok (attributes_of e)) }
    ensures keyed { IfOk result (λ e. IsKeyedBy schema.now e) }
    ensures refused { IfErr result (λ e. Refuses e (without_value schema.now new.now pair.now (attributes_of entry))) }
{
    if is_among(alloc, schema, pair, new)? {
        return Ok(entry);
    }
    if !holds_pair(alloc, schema, &entry, pair)? {
        return Ok(entry);
    }
    let values = one_value(alloc, pair.value())?;
    delete_from_entry(alloc, schema, entry, pair.type_id(), values)
}

/// The entry without the values of its former relative name that are not in the new one (RFC 4511 4.9, deleteoldrdn).
pub fn delete_rdn(
    alloc: Global,
    schema: &Schema,
    entry: Entry,
    new: &[TypeAndValue],
    old: &[TypeAndValue],
) -> Result<Entry, EntryError>
    requires { IsKeyedBy schema.now entry }
    ensures ok { IfOk result (λ e. without_rdn schema.now new.now old.now (attributes_of entry) ≡
        Ok (attributes_of e)) }
    ensures keyed { IfOk result (λ e. IsKeyedBy schema.now e) }
    ensures refused { IfErr result (λ e. Refuses e (without_rdn schema.now new.now old.now (attributes_of entry))) }
{
    let mut so_far = entry;
    for pair in old {
        so_far = delete_pair(alloc, schema, so_far, new, pair)?;
    }
    Ok(so_far)
}
