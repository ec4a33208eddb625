// An entry: a list of attributes, without its name.

ghost use Rattle.std.specs.Prelude.{◌≡◌, ◌<◌, ◌++◌, ◌∷◌, [], length, map, nat_eq, slice_get, true, Ok, Some, IfOk, IfErr, OnOk, OnErr};
ghost use Rattle.std.specs.List.{list_any};
ghost use Rattle.std.specs.Option.{option_map};
ghost use Rattle.ldap_match.specs.Keyed.{AreKeysOf};
ghost use Rattle.dir_entry.specs.Entry.{attributes_of, shown, IsKeyedBy, are_in_syntax};
ghost use Rattle.dir_entry.specs.private.Types.{AreTypesOf};
ghost use Rattle.dir_entry.specs.Adding.{has_type as has_attribute_of_type, with_attribute, IsInvalid, Refuses};

use crate::attribute::Attribute;
use crate::fault::EntryError;
use ldap_match::{Schema, TypeId, ValueError};
use std::alloc::{AllocError, Global};
use std::marker::Model;

/// The types of so many attributes stand together.
const TOGETHER: usize = 12;

/// Stands for a type whose number is this or a greater one, and where there is no attribute.
const UNTOLD: u16 = u16::MAX;

/// The attributes of an entry, in order (RFC 4512 2.2), with the keys of their values, so that evaluating a filter
/// takes no memory.
pub struct Entry {
    /// The types of the first attributes, so that whoever looks for one need not read each where it stands.
    types: [u16; TOGETHER],
    attributes: Vec<Attribute>,
}

// Not derived: see "What the gate takes" in docs/ARCHITECTURE.md.
impl Drop for Entry {
    fn drop(self) {
        let Entry {
            types: _,
            attributes: _,
        } = self;
    }
}

impl Model for Entry {
    ghost use Rattle.std.specs.Prelude.{List};
    ghost use Rattle.dir_entry.specs.Entry.{KeyedAttribute};

    ghost Value = { List KeyedAttribute };

    ghost view = { λ e. e.attributes.items };

    ghost use Rattle.dir_entry.specs.private.Types.{AreTypesOf};

    ghost invariant = { λ e. AreTypesOf e.types e.attributes.items };
}

/// Whether there is an attribute of the type.
#[tactic(auto, using(crate::proofs::Shown::has_type_shown))]
pub fn has_type(attributes: &[Attribute], type_id: TypeId) -> bool
    ensures { result ≡ has_attribute_of_type type_id (attributes_of attributes.now) }
{
    is_of_type(attributes, type_id)
}

/// The number of a type, where it is small.
fn told(type_id: TypeId) -> u16
    ensures { result < 65535 → result ≡ type_id }
{
    if type_id.number() < UNTOLD as usize {
        type_id.number() as u16
    } else {
        UNTOLD
    }
}

/// The types of the first attributes.
fn types_of(attributes: &[Attribute]) -> [u16; TOGETHER]
    ensures { AreTypesOf result attributes.now }
{
    let mut types = [UNTOLD; TOGETHER];
    for i in 0..TOGETHER {
        if i < attributes.len() {
            types[i] = told(attributes[i].type_id());
        }
    }
    types
}

/// Whether one of the attributes is of the type.
fn is_of_type(attributes: &[Attribute], type_id: TypeId) -> bool
    ensures { result ≡ list_any (λ a. nat_eq a.kind type_id) attributes.now }
{
    attributes
        .iter()
        .any(|attribute| attribute.type_id() == type_id)
}

/// An attribute of these values, if they are in its type's syntax.
pub fn valid_attribute(
    alloc: Global,
    schema: &Schema,
    type_id: TypeId,
    values: Vec<Vec<u8>>,
) -> Result<Attribute, EntryError>
    ensures valid { OnOk result (are_in_syntax schema.now type_id (map (λ v. v.items) values.items) ≡ true) }
    ensures shown { IfOk result (λ a. shown a ≡ record { kind = type_id; values = map (λ v. v.items) values.items }) }
    ensures keyed { IfOk result (λ a. AreKeysOf schema.now a.kind a.values a.keys) }
    ensures refused { IfErr result
        (λ e. IsInvalid e (are_in_syntax schema.now type_id (map (λ v. v.items) values.items))) }
{
    match Attribute::new(alloc, schema, type_id, values) {
        Ok(attribute) => Ok(attribute),
        Err(ValueError::NotInSyntax) => Err(EntryError::InvalidAttributeSyntax),
        Err(ValueError::NoMemory) => Err(EntryError::NoMemory),
    }
}

/// The attribute that is to be added to these, if it may be.
fn new_attribute(
    alloc: Global,
    schema: &Schema,
    attributes: &[Attribute],
    type_id: TypeId,
    values: Vec<Vec<u8>>,
) -> Result<Attribute, EntryError>
    ensures ok { IfOk result (λ a. with_attribute schema.now type_id (map (λ v. v.items) values.items)
        (attributes_of attributes.now)
        ≡ Ok (attributes_of attributes.now ++ shown a ∷ [])) }
    ensures keyed { IfOk result (λ a. AreKeysOf schema.now a.kind a.values a.keys) }
    ensures refused { IfErr result
        (λ e. Refuses e (with_attribute schema.now type_id (map (λ v. v.items) values.items)
        (attributes_of attributes.now))) }
{
    let attribute = valid_attribute(alloc, schema, type_id, values)?;
    if has_type(attributes, type_id) {
        return Err(EntryError::AttributeOrValueExists);
    }
    if attribute.has_repeats(alloc, schema)? {
        return Err(EntryError::AttributeOrValueExists);
    }
    Ok(attribute)
}

/// A copy of a list of attributes.
fn copy_attributes(alloc: Global, attributes: &[Attribute]) -> Result<Vec<Attribute>, AllocError>
    ensures { IfOk result (λ v. v.items ≡ attributes.now) }
{
    let mut copy = Vec::with_capacity(alloc, attributes.len())?;
    for attribute in attributes {
        copy.push(attribute.copy(alloc)?)?;
    }
    Ok(copy)
}

impl Entry {
    /// An entry without attributes.
    pub fn new(alloc: Global) -> Entry
        ensures { result ≡ [] }
    {
        Entry {
            types: [UNTOLD; TOGETHER],
            attributes: Vec::new(alloc),
        }
    }

    /// An entry of these attributes, in their order.
    pub fn from_attributes(attributes: Vec<Attribute>) -> Entry
        ensures { result ≡ attributes.items }
    {
        let types = types_of(&attributes);
        Entry { types, attributes }
    }

    /// Adds an attribute at the end, if its values are in the type's syntax, no two are equivalent, and the type isn't
    /// there yet. An `Err` leaves the entry as it was.
    pub fn add(
        &mut self,
        alloc: Global,
        schema: &Schema,
        type_id: TypeId,
        values: Vec<Vec<u8>>,
    ) -> Result<(), EntryError>
        ensures ok { OnOk result (with_attribute schema.now type_id (map (λ v. v.items) values.items)
            (attributes_of self.old) ≡ Ok (attributes_of self.new)) }
        ensures keyed { OnOk result (IsKeyedBy schema.now self.old → IsKeyedBy schema.now self.new) }
        ensures err { OnErr result (self.new ≡ self.old) }

        // Each refusal is that of the first check that fails.
        ensures refused { IfErr result
            (λ e. Refuses e (with_attribute schema.now type_id (map (λ v. v.items) values.items)
            (attributes_of self.old))) }
    {
        let attribute = new_attribute(alloc, schema, self.attributes.as_slice(), type_id, values)?;
        self.attributes.push(attribute)?;
        self.types = types_of(&self.attributes);
        Ok(())
    }

    /// Gives back the room that no attribute takes.
    pub fn shrink(&mut self)
        ensures { self.new ≡ self.old }
    {
        self.attributes.shrink_to_fit();
    }

    /// A copy.
    pub fn copy(&self, alloc: Global) -> Result<Entry, AllocError>
        ensures { IfOk result (λ e. e ≡ self.now) }
    {
        Ok(Entry {
            types: self.types,
            attributes: copy_attributes(alloc, self.attributes.as_slice())?,
        })
    }

    /// The attributes in order.
    pub fn attributes(&self) -> &[Attribute]
        ensures { result.now ≡ self.now }
    {
        self.attributes.as_slice()
    }

    /// The type of the attribute at a place.
    pub fn type_at(&self, place: usize) -> TypeId
        requires { place < length self.now }
        ensures { option_map (λ a. a.kind) (slice_get self.now place) ≡ Some result }
    {
        match self.types.get(place) {
            Some(told) if *told < UNTOLD => TypeId::new(*told as usize),
            _ => self.attributes[place].type_id(),
        }
    }

    /// The attributes in order, out of the entry.
    pub fn into_attributes(self) -> Vec<Attribute>
        ensures { result.items ≡ self }
    {
        let Entry {
            types: _,
            attributes,
        } = self;
        attributes
    }
}
