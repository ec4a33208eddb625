// Decides whether an entry's attributes obey its classes.

ghost use Rattle.std.specs.Prelude.{◌≡◌, ◌&&◌, [], IfOk, is_some, MatchOption};
ghost use Rattle.dir_entry.specs.Entry.{attributes_of, shown};
ghost use Rattle.entry_updates.specs.Classes.{classes_named as classes_that_values_name, has_single_value as has_a_single_value, has_single_values as has_only_single_values, is_structural as is_structural_class, structural_of as structural_classes, is_one_chain as is_a_chain, has_required as has_all_required, is_allowed_by as is_type_allowed_by, is_allowed as is_type_allowed, are_classes as are_names_of_classes, class_values as values_of_object_class, obeys as obeys_all, obeys_classes as entry_obeys_classes, is_object_class, required as types_required, allowed as types_allowed};
ghost use Rattle.dir_entry.specs.ldap_schema.Schema.{class_named};
ghost use Rattle.dir_entry.specs.ldap_schema.Superclasses.{is_among};
ghost use Rattle.std.specs.List.{list_all, list_any};

use crate::classes::classes_named;
use dir_entry::{Attribute, ClassId, ClassKind, Octets, Schema, TypeId, has_type};
use std::alloc::{AllocError, Global};

/// Whether the attribute has at most one value, where its type is of one.
fn has_single_value(schema: &Schema, attribute: &Attribute) -> bool
    ensures { result ≡ has_a_single_value schema.now (shown attribute.now) }
{
    match schema.attribute_type(attribute.type_id()) {
        Some(attribute_type) => !attribute_type.is_single_value() || attribute.len() < 2,
        None => true,
    }
}

/// Whether each attribute of a SINGLE-VALUE type has at most one value.
#[tactic(auto, using(crate::proofs::Shown::single_shown))]
pub fn has_single_values(schema: &Schema, attributes: &[Attribute]) -> bool
    ensures { result ≡ has_only_single_values schema.now (attributes_of attributes.now) }
{
    have_single_values(schema, attributes)
}

/// Whether each of the attributes has at most one value, where its type is of one.
fn have_single_values(schema: &Schema, attributes: &[Attribute]) -> bool
    ensures { result ≡ list_all (λ a. has_a_single_value schema.now (shown a)) attributes.now }
{
    attributes
        .iter()
        .all(|attribute| has_single_value(schema, attribute))
}

/// Whether the class is structural.
fn is_structural(schema: &Schema, class: ClassId) -> bool
    ensures { result ≡ is_structural_class schema.now class }
{
    match schema.object_class(class) {
        Some(found) => found.kind() == ClassKind::Structural,
        None => false,
    }
}

/// The structural ones of the classes.
pub fn structural_of(
    alloc: Global,
    schema: &Schema,
    classes: &[ClassId],
) -> Result<Vec<ClassId>, AllocError>
    ensures { IfOk result (λ v. v.items ≡ structural_classes schema.now classes.now) }
{
    classes
        .iter()
        .copied()
        .filter(|class| is_structural(schema, *class))
        .collect(alloc)
}

/// Whether one of the classes is structural.
fn has_structural(schema: &Schema, classes: &[ClassId]) -> bool
    ensures { result ≡ list_any (is_structural_class schema.now) classes.now }
{
    classes.iter().any(|class| is_structural(schema, *class))
}

/// Whether the structural classes form one chain, and there is one.
pub fn is_one_chain(alloc: Global, schema: &Schema, classes: &[ClassId]) -> Result<bool, AllocError>
    ensures { IfOk result (λ b. b ≡ is_a_chain schema.now classes.now) }
{
    if !has_structural(schema, classes) {
        return Ok(false);
    }
    let structural = structural_of(alloc, schema, classes)?;
    schema.are_in_line(alloc, structural.as_slice())
}

/// The types that the class requires; none, where there is no such class.
fn required(schema: &Schema, class: ClassId) -> &[TypeId]
    ensures { result.now ≡ types_required schema.now class }
{
    match schema.object_class(class) {
        Some(found) => found.required(),
        None => &[],
    }
}

/// The types that the class allows besides; none, where there is no such class.
fn allowed(schema: &Schema, class: ClassId) -> &[TypeId]
    ensures { result.now ≡ types_allowed schema.now class }
{
    match schema.object_class(class) {
        Some(found) => found.allowed(),
        None => &[],
    }
}

/// Whether the type is in the list.
fn is_type_among(types: &[TypeId], type_id: TypeId) -> bool
    ensures { result ≡ is_among types.now type_id }
{
    types.iter().any(|other| type_id == *other)
}

/// Whether each type that the class requires is there.
fn has_required(schema: &Schema, attributes: &[Attribute], class: ClassId) -> bool
    ensures { result ≡ has_all_required schema.now (attributes_of attributes.now) class }
{
    required(schema, class)
        .iter()
        .all(|type_id| has_type(attributes, *type_id))
}

/// Whether the class requires or allows the type.
fn is_allowed_by(schema: &Schema, type_id: TypeId, class: ClassId) -> bool
    ensures { result ≡ is_type_allowed_by schema.now type_id class }
{
    is_type_among(required(schema, class), type_id)
        || is_type_among(allowed(schema, class), type_id)
}

/// Whether some class requires or allows the type.
fn is_allowed(schema: &Schema, classes: &[ClassId], type_id: TypeId) -> bool
    ensures { result ≡ is_type_allowed schema.now classes.now type_id }
{
    classes
        .iter()
        .any(|class| is_allowed_by(schema, type_id, *class))
}

/// Whether each attribute's type is required or allowed.
fn are_allowed(schema: &Schema, classes: &[ClassId], attributes: &[Attribute]) -> bool
    ensures { result ≡ list_all (λ a. is_type_allowed schema.now classes.now a.kind) (attributes_of attributes.now) }
{
    are_of_allowed_types(schema, classes, attributes)
}

/// Whether each of the attributes is of a type that is required or allowed.
fn are_of_allowed_types(schema: &Schema, classes: &[ClassId], attributes: &[Attribute]) -> bool
    ensures { result ≡ list_all (λ a. is_type_allowed schema.now classes.now a.kind) attributes.now }
{
    attributes.iter().all(|attribute| is_allowed(schema, classes, attribute.type_id()))
}

/// Whether what each class requires is there.
fn have_required(schema: &Schema, classes: &[ClassId], attributes: &[Attribute]) -> bool
    ensures { result ≡ list_all (has_all_required schema.now (attributes_of attributes.now)) classes.now }
{
    classes
        .iter()
        .all(|class| has_required(schema, attributes, *class))
}

/// Whether the attributes are what the classes demand.
fn obeys(
    alloc: Global,
    schema: &Schema,
    classes: &[ClassId],
    attributes: &[Attribute],
) -> Result<bool, AllocError>
    ensures { IfOk result (λ b. b ≡ obeys_all schema.now classes.now (attributes_of attributes.now)) }
{
    if !is_one_chain(alloc, schema, classes)? {
        return Ok(false);
    }
    Ok(have_required(schema, classes, attributes) && are_allowed(schema, classes, attributes))
}

/// Whether the value names a class.
fn is_class(schema: &Schema, value: &[u8]) -> bool
    ensures { result ≡ is_some (class_named schema.now value.now) }
{
    schema.class_octets(value).is_some()
}

/// Whether each value names a class.
fn have_classes(schema: &Schema, values: &[Octets]) -> bool
    ensures { result ≡ are_names_of_classes schema.now values.now }
{
    values
        .iter()
        .all(|value| is_class(schema, value.as_slice()))
}

/// Whether each value of an attribute names a class.
fn are_classes(schema: &Schema, attribute: &Attribute) -> bool
    ensures { result ≡ are_names_of_classes schema.now attribute.now.values }
{
    let mut rest = attribute.parts();
    while let Some((part, others)) = rest.split_first() {
        if !have_classes(schema, part.values) {
            return false;
        }
        rest = others;
    }
    true
}

/// The attribute objectClass, if it is there.
fn object_class<'a>(schema: &Schema, attributes: &'a [Attribute]) -> Option<&'a Attribute>
    ensures values { MatchOption result (values_of_object_class schema.now (attributes_of attributes.now) ≡ [])
        (λ a. values_of_object_class schema.now (attributes_of attributes.now) ≡ a.now.values) }
    ensures there { is_some result ≡ list_any (λ a. is_object_class schema.now a.kind) (attributes_of attributes.now) }
{
    let object_class = schema.object_class_type();
    for attribute in attributes {
        if attribute.type_id() == object_class {
            return Some(attribute);
        }
    }
    None
}

/// The classes that the values of objectClass name; none, where it isn't there.
pub fn classes_of(
    alloc: Global,
    schema: &Schema,
    attributes: &[Attribute],
) -> Result<Vec<ClassId>, AllocError>
    ensures { IfOk result (λ v. v.items ≡ classes_that_values_name schema.now
        (values_of_object_class schema.now (attributes_of attributes.now))) }
{
    match object_class(schema, attributes) {
        Some(attribute) => classes_named(alloc, schema, attribute),
        None => Ok(Vec::new(alloc)),
    }
}

/// Whether objectClass is there, and each of its values names a class.
fn has_classes(schema: &Schema, attributes: &[Attribute]) -> bool
    ensures { result ≡ (list_any (λ a. is_object_class schema.now a.kind) (attributes_of attributes.now)
        && are_names_of_classes schema.now (values_of_object_class schema.now (attributes_of attributes.now))) }
{
    match object_class(schema, attributes) {
        Some(attribute) => are_classes(schema, attribute),
        None => false,
    }
}

/// Whether the attributes are what the classes that objectClass names demand, objectClass itself among them. Its only
/// error is want of memory.
pub fn obeys_classes(
    alloc: Global,
    schema: &Schema,
    attributes: &[Attribute],
) -> Result<bool, AllocError>
    ensures { IfOk result (λ b. b ≡ entry_obeys_classes schema.now (attributes_of attributes.now)) }
{
    if !has_classes(schema, attributes) {
        return Ok(false);
    }
    let classes = classes_of(alloc, schema, attributes)?;
    obeys(alloc, schema, classes.as_slice(), attributes)
}
