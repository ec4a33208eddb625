// Finds classes by the values that name them.

ghost use Rattle.std.specs.Prelude.{◌≡◌, ◌++◌, IfOk, OnOk, true, map, is_some};
ghost use Rattle.std.specs.List.{list_all};
ghost use Rattle.dir_entry.specs.ldap_schema.Schema.{class_named};
ghost use Rattle.entry_updates.specs.Classes.{classes_named as classes_that_values_name, names_of as names_of_classes, missing_names as names_that_are_missing};

use dir_entry::{Attribute, ClassId, Octets, Schema};
use std::alloc::{AllocError, Global};

/// Puts the classes that the values name behind the others; a value that names none is passed over.
fn push_classes(
    schema: &Schema,
    values: &[Octets],
    classes: &mut Vec<ClassId>,
) -> Result<(), AllocError>
    ensures { OnOk result (classes.new.items ≡ classes.old.items ++ classes_that_values_name schema.now values.now) }
{
    for value in values {
        if let Some(class) = schema.class_octets(value.as_slice()) {
            classes.push(class)?;
        }
    }
    Ok(())
}

/// The classes that the values of an attribute name.
pub fn classes_named(
    alloc: Global,
    schema: &Schema,
    attribute: &Attribute,
) -> Result<Vec<ClassId>, AllocError>
    ensures { IfOk result (λ v. v.items ≡ classes_that_values_name schema.now attribute.now.values) }
{
    let mut classes = Vec::new(alloc);
    let mut rest = attribute.parts();
    while let Some((part, others)) = rest.split_first() {
        push_classes(schema, part.values, &mut classes)?;
        rest = others;
    }
    Ok(classes)
}

/// The first names of the classes. Each is the name of a class.
fn names_of(alloc: Global, schema: &Schema, classes: &[ClassId]) -> Result<Vec<Vec<u8>>, AllocError>
    ensures names { IfOk result (λ v. map (λ v. v.items) v.items ≡ names_of_classes schema.now classes.now) }
    ensures named { IfOk result (λ v. list_all (λ v. is_some (class_named schema.now v.items)) v.items ≡ true) }
{
    let mut names = Vec::new(alloc);
    for class in classes {
        if let Some(name) = schema.class_name(*class) {
            names.push(name.as_bytes().to_vec(alloc)?)?;
        }
    }
    Ok(names)
}

/// The first names of the superclasses that are missing among the classes that an attribute's values name.
pub fn missing_names(
    alloc: Global,
    schema: &Schema,
    attribute: &Attribute,
) -> Result<Vec<Vec<u8>>, AllocError>
    ensures names { IfOk result (λ v. map (λ v. v.items) v.items ≡
        names_that_are_missing schema.now attribute.now.values) }
    ensures named { IfOk result (λ v. list_all (λ v. is_some (class_named schema.now v.items)) v.items ≡ true) }
{
    let classes = classes_named(alloc, schema, attribute)?;
    let missing = schema.missing_superclasses(alloc, classes.as_slice())?;
    names_of(alloc, schema, missing.as_slice())
}
