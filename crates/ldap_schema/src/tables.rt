//! Questions to the tables of a schema.

ghost use Rattle.std.specs.Prelude.{◌≡◌, IfOk, nat_eq, length};
ghost use Rattle.std.specs.List.{list_any, position_from};
ghost use Rattle.ldap_schema.specs.Schema.{is_called as is_called_by, superiors as superiors_of, superior_of};

use crate::attribute_type::{AttributeType, TypeId};
use crate::class::{ClassId, ObjectClass};
use crate::naming::is_called;
use std::alloc::{AllocError, Global};

/// The first type that the name or object identifier calls.
pub fn type_called(types: &[AttributeType], name: &[u8]) -> Option<TypeId>
    ensures { result ≡ position_from (λ t. is_called_by name.now t.oid t.names) 0 types.now }
{
    for (number, attribute_type) in types.iter().enumerate() {
        if is_called(name, attribute_type.oid(), attribute_type.names()) {
            return Some(TypeId::new(number));
        }
    }
    None
}

/// The first class that the name or object identifier calls.
pub fn class_called(classes: &[ObjectClass], name: &[u8]) -> Option<ClassId>
    ensures { result ≡ position_from (λ c. is_called_by name.now c.oid c.names) 0 classes.now }
{
    for (number, class) in classes.iter().enumerate() {
        if is_called(name, class.oid(), class.names()) {
            return Some(ClassId::new(number));
        }
    }
    None
}

/// Whether the type is in the list.
pub fn is_type_among(types: &[TypeId], type_id: TypeId) -> bool
    ensures { result ≡ list_any (λ t. nat_eq t type_id) types.now }
{
    types.iter().any(|other| *other == type_id)
}

/// Whether the type's SUP leads to the other one. It goes up in as many steps as there are types at most, and takes no
/// memory.
pub fn leads_to(types: &[AttributeType], type_id: TypeId, above: TypeId) -> bool
    ensures { result ≡ list_any (λ t. nat_eq t above) (superiors_of (length types.now) types.now type_id) }
{
    let mut current = type_id;
    for _ in 0..types.len() {
        match superior(types, current) {
            Some(next) if next == above => return true,
            Some(next) => current = next,
            None => return false,
        }
    }
    false
}

/// The types that the type's SUP leads to, nearest first, in as many steps as there are types at most.
pub fn superiors(
    alloc: Global,
    types: &[AttributeType],
    type_id: TypeId,
) -> Result<Vec<TypeId>, AllocError>
    ensures { IfOk result (λ v. v.items ≡ superiors_of (length types.now) types.now type_id) }
{
    let mut found = Vec::new(alloc);
    let mut current = type_id;
    for _ in 0..types.len() {
        match superior(types, current) {
            Some(above) => {
                found.push(above)?;
                current = above;
            }
            None => return Ok(found),
        }
    }
    Ok(found)
}

/// The type that the type's SUP names.
fn superior(types: &[AttributeType], type_id: TypeId) -> Option<TypeId>
    ensures { result ≡ superior_of types.now type_id }
{
    types.get(type_id.number())?.superior()
}
