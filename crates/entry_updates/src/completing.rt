// Adds the superclasses that are missing to objectClass.

ghost use Rattle.std.specs.Prelude.{◌≡◌, IfOk};
ghost use Rattle.dir_entry.specs.ldap_match.Keyed.{AreKeysOf};
ghost use Rattle.dir_entry.specs.Entry.{attributes_of, shown, IsKeyedBy};
ghost use Rattle.entry_updates.specs.Classes.{completed, completed_attribute};

use crate::classes::missing_names;
use dir_entry::{Attribute, Schema, ValueError};
use std::alloc::{AllocError, Global};

/// The attribute, with the superclasses that are missing at its end where it is objectClass.
fn complete_attribute(
    alloc: Global,
    schema: &Schema,
    attribute: Attribute,
) -> Result<Attribute, AllocError>
    ensures shown { IfOk result (λ a. shown a ≡ completed_attribute schema.now (shown attribute)) }
    ensures keyed { IfOk result (λ a. AreKeysOf schema.now attribute.kind attribute.values attribute.keys →
        AreKeysOf schema.now a.kind a.values a.keys) }
{
    if attribute.type_id() != schema.object_class_type() {
        return Ok(attribute);
    }
    let names = missing_names(alloc, schema, &attribute)?;
    match attribute.with_values(alloc, schema, names) {
        Ok(longer) => Ok(longer),
        Err(ValueError::NoMemory) => Err(AllocError),
        // The name of a class is an object identifier.
        Err(ValueError::NotInSyntax) => unreachable!(),
    }
}

/// The attributes, with the superclasses that are missing at the end of objectClass. Its only error is want of memory.
pub fn complete(
    alloc: Global,
    schema: &Schema,
    attributes: Vec<Attribute>,
) -> Result<Vec<Attribute>, AllocError>
    ensures shown { IfOk result (λ v. attributes_of v.items ≡ completed schema.now (attributes_of attributes.items)) }
    ensures keyed { IfOk result (λ v. IsKeyedBy schema.now attributes.items → IsKeyedBy schema.now v.items) }
{
    let mut done = Vec::with_capacity(alloc, attributes.len())?;
    for attribute in attributes {
        done.push(complete_attribute(alloc, schema, attribute)?)?;
    }
    Ok(done)
}
