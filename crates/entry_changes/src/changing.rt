// Changes an entry's attributes (RFC 4511 4.6).

ghost use Rattle.std.specs.Prelude.{◌≡◌, ◌++◌, map, false, true, not, Ok, Some, None, take, drop, IfOk, IfErr, OnOk, OnErr};
ghost use Rattle.std.specs.List.{list_any, list_all};
ghost use Rattle.dir_entry.specs.ldap_match.Keyed.{AreKeysOf};
ghost use Rattle.dir_entry.specs.Entry.{KeyedAttribute, attributes_of, shown, IsKeyedBy, are_in_syntax};
ghost use Rattle.dir_entry.specs.Adding.{IsInvalid, Refuses};
ghost use Rattle.std.specs.Prelude.{Result, ℕ, List};
ghost use Rattle.dir_entry.specs.Entry.{AttributeModel};
ghost use Rattle.dir_entry.specs.Values.{has_repeats};
ghost use Rattle.entry_changes.specs.private.Compared.{values_held, RefusesFor};
ghost use Rattle.entry_changes.specs.Editing.{attribute_with, holds, is_empty, if_distinct, values_left, with_added, with_replaced, with_deleted, without_attribute, without_values};
ghost use Rattle.dir_entry.specs.ldap_schema.Schema.{SchemaModel};

use crate::opened::{Opened, joined, left};
use crate::placing::{Taken, put_back, take_attribute};
use crate::working::Working;
use dir_entry::{Attribute, EntryError, Schema, TypeId, valid_attribute};
use std::alloc::Global;

/// An attribute of these values, if they are in its type's syntax and no two are equivalent.
fn distinct_attribute(
    alloc: Global,
    schema: &Schema,
    type_id: TypeId,
    values: Vec<Vec<u8>>,
) -> Result<Attribute, EntryError>
    ensures valid { OnOk result (are_in_syntax schema.now type_id (map (λ v. v.items) values.items) ≡ true) }
    ensures distinct { OnOk result (has_repeats schema.now type_id (map (λ v. v.items) values.items) ≡ false) }
    ensures shown { IfOk result (λ a. shown a ≡ record { kind = type_id; values = map (λ v. v.items) values.items }) }
    ensures keyed { IfOk result (λ a. AreKeysOf schema.now a.kind a.values a.keys) }
    ensures refused { (rest : Result (List AttributeModel) ℕ) →
        IfErr result (λ e. Refuses e (if_distinct schema.now type_id (map (λ v. v.items) values.items) rest)) }
{
    let attribute = valid_attribute(alloc, schema, type_id, values)?;
    if attribute.has_repeats(alloc, schema)? {
        return Err(EntryError::AttributeOrValueExists);
    }
    Ok(attribute)
}

/// The attribute with the given values after its own, if none of them is held; the given one where there is none.
#[tactic(auto, using(crate::proofs::Marked::none_of))]
fn join(
    alloc: Global,
    schema: &Schema,
    held: Option<Opened>,
    given: Attribute,
) -> Result<Opened, EntryError>
    requires kind { (a : KeyedAttribute) → held ≡ Some a → a.kind ≡ given.kind }
    requires held { (a : KeyedAttribute) → held ≡ Some a → AreKeysOf schema.now a.kind a.values a.keys }
    requires given { AreKeysOf schema.now given.kind given.values given.keys }
    ensures kind { IfOk result (λ a. a.kind ≡ given.kind) }
    ensures values { IfOk result (λ a. a.values ≡ values_held held ++ given.values) }
    ensures keyed { IfOk result (λ a. AreKeysOf schema.now a.kind a.values a.keys) }
    ensures fresh { OnOk result (list_any (holds schema.now given.kind (values_held held)) given.values ≡ false) }
    ensures refused { IfErr result (λ e. RefusesFor 20 (list_any (holds schema.now given.kind (values_held held))
        given.values) e) }
{
    match held {
        None => Ok(Opened::of(given)),
        Some(attribute) => joined(alloc, schema, attribute, given),
    }
}

/// The entry of the others and, in its place, the attribute with the values that are not among the given ones.
fn put_left(
    alloc: Global,
    schema: &Schema,
    others: Vec<Opened>,
    place: usize,
    held: Opened,
    given: &Attribute,
) -> Result<Working, EntryError>
    requires kind { held.kind ≡ given.now.kind }
    requires held { AreKeysOf schema.now held.kind held.values held.keys }
    requires given { AreKeysOf schema.now given.now.kind given.now.values given.now.keys }
    ensures held { OnOk result (list_all (holds schema.now held.kind held.values) given.now.values ≡ true) }
    ensures shown { IfOk result (λ e. attributes_of e
        ≡ take place (attributes_of others.items) ++ attribute_with held.kind (values_left schema.now held.kind
        given.now.values held.values) ++ drop place (attributes_of others.items)) }
    ensures keyed { IfOk result (λ e. IsKeyedBy schema.now others.items → IsKeyedBy schema.now e) }
    ensures refused { IfErr result
        (λ e. RefusesFor 16 (not (list_all (holds schema.now held.kind held.values) given.now.values)) e) }
{
    let left = left(alloc, schema, held, given)?;
    let attributes = put_back(others, place, left)?;
    Ok(Working::from_attributes(attributes))
}

/// The entry with the values added to those of the type (RFC 4511 4.6): 19 without a value, 21 where one is not in the
/// type's syntax, 20 where two are equivalent, or one is held.
pub fn add_values(
    alloc: Global,
    schema: &Schema,
    entry: Working,
    type_id: TypeId,
    values: Vec<Vec<u8>>,
) -> Result<Working, EntryError>
    requires { IsKeyedBy schema.now entry }
    ensures ok { IfOk result (λ e. with_added schema.now type_id (map (λ v. v.items) values.items)
        (attributes_of entry) ≡ Ok (attributes_of e)) }
    ensures keyed { IfOk result (λ e. IsKeyedBy schema.now e) }
    ensures refused { IfErr result (λ e. Refuses e (with_added schema.now type_id (map (λ v. v.items) values.items)
        (attributes_of entry))) }
{
    if values.as_slice().is_empty() {
        return Err(EntryError::ConstraintViolation);
    }
    let given = distinct_attribute(alloc, schema, type_id, values)?;
    let Taken {
        place,
        attribute,
        others,
    } = take_attribute(entry.into_attributes(), type_id);
    let joined = join(alloc, schema, attribute, given)?;
    let attributes = put_back(others, place, joined)?;
    Ok(Working::from_attributes(attributes))
}

/// The entry with the values in the place of those of the type (RFC 4511 4.6), which keeps its place: 21 and 20 as for
/// an add. Without a value the attribute is gone, if it was there.
pub fn replace_values(
    alloc: Global,
    schema: &Schema,
    entry: Working,
    type_id: TypeId,
    values: Vec<Vec<u8>>,
) -> Result<Working, EntryError>
    requires { IsKeyedBy schema.now entry }
    ensures ok { IfOk result (λ e. with_replaced schema.now type_id (map (λ v. v.items) values.items)
        (attributes_of entry) ≡ Ok (attributes_of e)) }
    ensures keyed { IfOk result (λ e. IsKeyedBy schema.now e) }
    ensures refused { IfErr result (λ e. Refuses e (with_replaced schema.now type_id (map (λ v. v.items) values.items)
        (attributes_of entry))) }
{
    let given = distinct_attribute(alloc, schema, type_id, values)?;
    let Taken { place, others, .. } = take_attribute(entry.into_attributes(), type_id);
    let attributes = put_back(others, place, Opened::of(given))?;
    Ok(Working::from_attributes(attributes))
}

/// The entry without the values, or without the attribute where no value is given or all are deleted (RFC 4511 4.6): 21
/// where a value is not in the type's syntax, 16 where one, or the attribute, is not there.
pub fn delete_values(
    alloc: Global,
    schema: &Schema,
    entry: Working,
    type_id: TypeId,
    values: Vec<Vec<u8>>,
) -> Result<Working, EntryError>
    requires { IsKeyedBy schema.now entry }
    ensures ok { IfOk result (λ e. with_deleted schema.now type_id (map (λ v. v.items) values.items)
        (attributes_of entry) ≡ Ok (attributes_of e)) }
    ensures keyed { IfOk result (λ e. IsKeyedBy schema.now e) }
    ensures refused { IfErr result (λ e. Refuses e (with_deleted schema.now type_id (map (λ v. v.items) values.items)
        (attributes_of entry))) }
{
    if values.as_slice().is_empty() {
        return delete_attribute(entry, type_id);
    }
    delete_given(alloc, schema, entry, type_id, values)
}

/// The entry without the attribute.
fn delete_attribute(entry: Working, type_id: TypeId) -> Result<Working, EntryError>
    ensures ok { IfOk result (λ e. without_attribute type_id (attributes_of entry) ≡ Ok (attributes_of e)) }
    ensures keyed { (s : SchemaModel) → IfOk result (λ e. IsKeyedBy s entry → IsKeyedBy s e) }
    ensures refused { IfErr result (λ e. Refuses e (without_attribute type_id (attributes_of entry))) }
{
    let Taken {
        attribute,
        others,
        ..
    } = take_attribute(entry.into_attributes(), type_id);
    if attribute.is_none() {
        return Err(EntryError::NoSuchAttribute);
    }
    Ok(Working::from_attributes(others))
}

/// The entry without the values.
fn delete_given(
    alloc: Global,
    schema: &Schema,
    entry: Working,
    type_id: TypeId,
    values: Vec<Vec<u8>>,
) -> Result<Working, EntryError>
    requires keyed { IsKeyedBy schema.now entry }
    requires some { is_empty (map (λ v. v.items) values.items) ≡ false }
    ensures ok { IfOk result (λ e. without_values schema.now type_id (map (λ v. v.items) values.items)
        (attributes_of entry) ≡ Ok (attributes_of e)) }
    ensures keyed { IfOk result (λ e. IsKeyedBy schema.now e) }
    ensures refused { IfErr result
        (λ e. Refuses e (without_values schema.now type_id (map (λ v. v.items) values.items) (attributes_of entry))) }
{
    let given = valid_attribute(alloc, schema, type_id, values)?;
    let Taken {
        place,
        attribute,
        others,
    } = take_attribute(entry.into_attributes(), type_id);
    match attribute {
        None => Err(EntryError::NoSuchAttribute),
        Some(held) => put_left(alloc, schema, others, place, held, &given),
    }
}
