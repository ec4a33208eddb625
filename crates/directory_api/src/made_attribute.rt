//! Attributes that were made for a search and stand with no entry.
ghost use Rattle.std.specs.Prelude.{◌≡◌, map, IfOk};
ghost use Rattle.ldap_msg.specs.ldap_parts.View.{attribute_view};

use ldap_msg::PartialAttribute;
use std::alloc::{AllocError, Global};

/// Copies of values.
fn copy_values(alloc: Global, values: &[Vec<u8>]) -> Result<Vec<Vec<u8>>, AllocError>
    ensures { IfOk result (λ r. map (λ v. v.items) r.items ≡ map (λ v. v.items) values.now) }
{
    let mut copies = Vec::with_capacity(alloc, values.len())?;
    for value in values {
        copies.push(value.to_vec(alloc)?)?;
    }
    Ok(copies)
}

/// A copy of an attribute.
fn copy_made(alloc: Global, attribute: &PartialAttribute) -> Result<PartialAttribute, AllocError>
    ensures { IfOk result (λ a. attribute_view a ≡ attribute_view attribute.now) }
{
    let description = String::from_str(alloc, &attribute.description)?;
    let values = copy_values(alloc, &attribute.values)?;
    Ok(PartialAttribute {
        description,
        values,
    })
}

/// Copies of attributes.
pub fn copy_all_made(
    alloc: Global,
    attributes: &[PartialAttribute],
) -> Result<Vec<PartialAttribute>, AllocError>
    ensures { IfOk result (λ v. map attribute_view v.items ≡ map attribute_view attributes.now) }
{
    let mut copies = Vec::with_capacity(alloc, attributes.len())?;
    for attribute in attributes {
        copies.push(copy_made(alloc, attribute)?)?;
    }
    Ok(copies)
}
