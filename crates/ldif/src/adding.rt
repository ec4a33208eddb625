//! The add that a record of LDIF asks for.

ghost use Rattle.std.specs.Prelude.{◌≡◌, ◌++◌, ◌∷◌, [], ℕ, List, Some, cond, length, map, IfOk, OnOk};
ghost use Rattle.std.specs.Char.{to_ascii_lowercase};
ghost use Rattle.std.specs.Str.{bytes_eq};
ghost use Rattle.ldap_msg.specs.View.{add_view, attribute_view};
ghost use Rattle.ldif.specs.Adds as adds;
ghost use Rattle.ldif.specs.private.Adding.{number_at, lower_type, has_type, joined, with_line, kept_or};

use crate::record::{AttributeValue, Record};
use ldap_msg::{AddRequest, Attribute};
use ldap_words::lower_case;
use std::alloc::{AllocError, Global};
use std::collections::BTreeMap;

/// The indexes of attributes by their types in lower case.
type Indexes = BTreeMap<Vec<u8>, usize>;

/// The index of a type in lower case.
fn index_of(indexes: &Indexes, folded: &[u8]) -> Option<usize>
    ensures { result ≡ number_at indexes.now.entries folded.now }
{
    match indexes.get(folded) {
        Some(index) => Some(*index),
        None => None,
    }
}

/// The index becomes that of the type.
fn put_index(indexes: &mut Indexes, folded: Vec<u8>, index: usize) -> Result<(), AllocError>
    ensures { OnOk result ((q : List ℕ) → number_at indexes.new.entries q ≡ cond (bytes_eq q folded.items)
        (Some index) (number_at indexes.old.entries q)) }
{
    indexes.insert(folded, index)?;
    Ok(())
}

/// Puts another value into the attribute at this index, if there is one.
fn join(attributes: &mut Vec<Attribute>, index: usize, octets: Vec<u8>) -> Result<(), AllocError>
    ensures { OnOk result (map attribute_view attributes.new.items ≡ joined (map attribute_view attributes.old.items)
        index octets.items) }
{
    if index < attributes.as_slice().len() {
        attributes[index].values.push(octets)?;
    }
    Ok(())
}

/// Puts an attribute with one value, and notes its index.
fn begin(
    alloc: Global,
    indexes: &mut Indexes,
    attributes: &mut Vec<Attribute>,
    folded: Vec<u8>,
    value: &AttributeValue,
    octets: Vec<u8>,
) -> Result<(), AllocError>
    ensures attributes { OnOk result (map attribute_view attributes.new.items ≡ map attribute_view attributes.old.items
        ++ record { description = value.now.description; values = octets.items ∷ [] } ∷ []) }
    ensures indexes { OnOk result ((q : List ℕ) → number_at indexes.new.entries q ≡ cond (bytes_eq q folded.items)
        (Some (length attributes.old.items)) (number_at indexes.old.entries q)) }
{
    put_index(indexes, folded, attributes.as_slice().len())?;
    let mut values = Vec::new(alloc);
    values.push(octets)?;
    let attribute = Attribute {
        description: String::from_str(alloc, value.description())?,
        values,
    };
    attributes.push(attribute)?;
    Ok(())
}

/// Puts the value of a line into the attribute of its type, which it begins where no line before it has that type.
fn put_line(
    alloc: Global,
    indexes: &mut Indexes,
    attributes: &mut Vec<Attribute>,
    value: &AttributeValue,
) -> Result<(), AllocError>
    ensures attributes { OnOk result (map attribute_view attributes.new.items ≡
        with_line (map attribute_view attributes.old.items) (number_at indexes.old.entries (lower_type value.now))
        value.now) }
    ensures indexes { OnOk result ((q : List ℕ) → number_at indexes.new.entries q ≡
        kept_or (number_at indexes.old.entries q) (has_type q value.now) (length attributes.old.items)) }
{
    let folded = lower_case(alloc, value.description().as_bytes())?;
    let octets = Vec::from_slice(alloc, value.octets())?;
    match index_of(indexes, folded.as_slice()) {
        Some(index) => join(attributes, index, octets),
        None => begin(alloc, indexes, attributes, folded, value, octets),
    }
}

/// One attribute for each type, at the place of its first line; a line costs a logarithm of the count of types.
fn attributes_of(alloc: Global, values: &[AttributeValue]) -> Result<Vec<Attribute>, AllocError>
    ensures { IfOk result (λ v. map attribute_view v.items ≡ adds.attributes_of values.now) }
{
    let mut indexes = BTreeMap::new(alloc);
    let mut attributes = Vec::new(alloc);
    for value in values {
        put_line(alloc, &mut indexes, &mut attributes, value)?;
    }
    Ok(attributes)
}

/// The add of the entry that a record is (RFC 4511 4.7): the lines of one type, in any case, are one attribute at the
/// place of the first of them. Fails only when it runs out of memory.
pub fn add_of(alloc: Global, item: &Record) -> Result<AddRequest, AllocError>
    ensures { IfOk result (λ a. add_view a ≡ adds.add_of item.now) }
{
    Ok(AddRequest {
        entry: String::from_str(alloc, item.name())?,
        attributes: attributes_of(alloc, item.values())?,
    })
}
