// Finds where the attribute of a type stands among others.

ghost use Rattle.std.specs.Prelude.{◌≡◌, ◌++◌, ◌+◌, ◌∷◌, not, nat_eq, take, drop, slice_get, IfOk, Some, is_some};
ghost use Rattle.std.specs.List.{prefix_len};
ghost use Rattle.dir_entry.specs.ldap_match.Keyed.{AreKeysOf};
ghost use Rattle.dir_entry.specs.ldap_schema.Schema.{SchemaModel};
ghost use Rattle.dir_entry.specs.Entry.{attributes_of, IsKeyedBy};
ghost use Rattle.entry_changes.specs.Editing.{attribute_with, values_of, place as place_of};
ghost use Rattle.dir_entry.specs.Entry.{KeyedAttribute};
ghost use Rattle.entry_changes.specs.private.Compared.{values_held};
ghost use Rattle.dir_entry.specs.Adding.{has_type};

use crate::opened::Opened;
use dir_entry::TypeId;
use std::alloc::AllocError;

/// An attribute that was taken out of its place among others.
#[derive(Drop)]
pub struct Taken {
    /// Where it stood; the end, where there was none.
    pub place: usize,
    pub attribute: Option<Opened>,
    pub others: Vec<Opened>,
}

/// How many attributes stand before that of the type.
fn count_before(attributes: &[Opened], type_id: TypeId) -> usize
    ensures { result ≡ prefix_len (λ a. not (nat_eq a.kind type_id)) attributes.now }
{
    let mut count = 0;
    for attribute in attributes {
        if attribute.type_id() == type_id {
            return count;
        }
        count += 1;
    }
    count
}

/// Where the attribute of the type stands; the end, where there is none.
fn place(attributes: &[Opened], type_id: TypeId) -> usize
    ensures { result ≡ place_of type_id (attributes_of attributes.now) }
{
    count_before(attributes, type_id)
}

/// Takes the attribute of the type out of its place, if it is there.
fn take_at_place(attributes: Vec<Opened>, type_id: TypeId) -> Taken
    ensures place { result.place ≡ place_of type_id (attributes_of attributes.items) }
    ensures attribute { result.attribute ≡ slice_get attributes.items result.place }
    ensures others { result.others.items ≡ take result.place attributes.items ++ drop (result.place + 1)
        attributes.items }
{
    let place = place(attributes.as_slice(), type_id);
    let mut others = attributes;
    if place < others.as_slice().len() {
        let attribute = Some(others.remove(place));
        return Taken {
            place,
            attribute,
            others,
        };
    }
    Taken {
        place,
        attribute: None,
        others,
    }
}

/// Takes the attribute of the type out of its place, if it is there. What is left is keyed as before.
pub fn take_attribute(attributes: Vec<Opened>, type_id: TypeId) -> Taken
    ensures place { result.place ≡ place_of type_id (attributes_of attributes.items) }
    ensures others { attributes_of result.others.items ≡ take result.place (attributes_of attributes.items) ++ drop
        (result.place + 1) (attributes_of attributes.items) }
    ensures keyed { (s : SchemaModel) → IsKeyedBy s attributes.items → IsKeyedBy s result.others.items }
    ensures kind { (a : KeyedAttribute) → result.attribute ≡ Some a → a.kind ≡ type_id }
    ensures keys { (s : SchemaModel) → IsKeyedBy s attributes.items → (a : KeyedAttribute) → result.attribute ≡
        Some a → AreKeysOf s a.kind a.values a.keys }
    ensures values { values_held result.attribute ≡ values_of type_id (attributes_of attributes.items) }
    ensures there { is_some result.attribute ≡ has_type type_id (attributes_of attributes.items) }
{
    take_at_place(attributes, type_id)
}

/// Puts an attribute in a place among others, or at their end.
fn insert_attribute(
    others: Vec<Opened>,
    place: usize,
    attribute: Opened,
) -> Result<Vec<Opened>, AllocError>
    ensures { IfOk result (λ v. v.items ≡ take place others.items ++ attribute ∷ drop place others.items) }
{
    let mut all = others;
    if place < all.as_slice().len() {
        all.insert(place, attribute)?;
    } else {
        all.push(attribute)?;
    }
    Ok(all)
}

/// Puts the attribute that was taken out back with other values; without a value it is gone.
pub fn put_back(
    attributes: Vec<Opened>,
    place: usize,
    attribute: Opened,
) -> Result<Vec<Opened>, AllocError>
    ensures shown { IfOk result (λ v. attributes_of v.items ≡ take place (attributes_of attributes.items) ++
        attribute_with attribute.kind attribute.values ++ drop place (attributes_of attributes.items)) }
    ensures keyed { (s : SchemaModel) → IfOk result (λ v. IsKeyedBy s attributes.items → AreKeysOf s attribute.kind
        attribute.values attribute.keys → IsKeyedBy s v.items) }
{
    if attribute.is_empty() {
        return Ok(attributes);
    }
    insert_attribute(attributes, place, attribute)
}
