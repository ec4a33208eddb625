// Finds the structural object class (RFC 4512 2.4.2).

ghost use Rattle.std.specs.Prelude.{◌≡◌, IfOk};
ghost use Rattle.dir_entry.specs.Entry.{attributes_of};
ghost use Rattle.entry_updates.specs.Classes.{class_values as values_of_object_class, classes_named as classes_that_values_name};
ghost use Rattle.entry_updates.specs.Structural.{structural_class as structural_class_of, is_other_than, changes_class};

use crate::obeying::{classes_of, is_one_chain, structural_of};
use dir_entry::{Attribute, ClassId, Entry, Schema};
use std::alloc::{AllocError, Global};

/// The structural object class: the lowest class of the one chain; none, where there is no one chain.
fn structural_class(
    alloc: Global,
    schema: &Schema,
    classes: &[ClassId],
) -> Result<Option<ClassId>, AllocError>
    ensures { IfOk result (λ c. c ≡ structural_class_of schema.now classes.now) }
{
    if !is_one_chain(alloc, schema, classes)? {
        return Ok(None);
    }
    let structural = structural_of(alloc, schema, classes)?;
    schema.lowest(alloc, structural.as_slice())
}

/// The structural object class of attributes.
fn structural_class_among(
    alloc: Global,
    schema: &Schema,
    attributes: &[Attribute],
) -> Result<Option<ClassId>, AllocError>
    ensures { IfOk result (λ c. c ≡ structural_class_of schema.now (classes_that_values_name schema.now
        (values_of_object_class schema.now (attributes_of attributes.now)))) }
{
    let classes = classes_of(alloc, schema, attributes)?;
    structural_class(alloc, schema, classes.as_slice())
}

/// Whether a class is there, and it is another than the one before.
fn is_other(class: Option<ClassId>, before: Option<ClassId>) -> bool
    ensures { result ≡ is_other_than class before }
{
    match class {
        None => false,
        Some(class) => match before {
            None => true,
            Some(before) => class != before,
        },
    }
}

/// Whether the entry's structural object class is another one than before.
pub fn is_of_another_class(
    alloc: Global,
    schema: &Schema,
    entry: &Entry,
    before: &Entry,
) -> Result<bool, AllocError>
    ensures { IfOk result (λ b. b ≡ changes_class schema.now (attributes_of before.now) (attributes_of entry.now)) }
{
    let class = structural_class_among(alloc, schema, entry.attributes())?;
    let class_before = structural_class_among(alloc, schema, before.attributes())?;
    Ok(is_other(class, class_before))
}
