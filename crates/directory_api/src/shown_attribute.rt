//! An attribute as it is shown: a description and values, lent by who keeps them, and measured once.
ghost use Rattle.std.specs.Prelude.{◌≡◌, [], map, IfOk};
ghost use Rattle.ldap_msg.specs.ldap_parts.View.{attribute_view};
ghost use Rattle.directory_api.specs.Lent.{lent_values};

use crate::shown_values::{copy_values, put_value_set, values_length};
use dir_tree::Attribute;
use ldap_msg::{AttributeParts, EncodeError, PartialAttribute, write};
use std::alloc::{AllocError, Global};
use std::marker::Model;

/// An attribute as it is shown, lent by who keeps it.
pub struct ShownAttribute<'a> {
    description: &'a str,
    /// Whose values are shown; none, where the type is shown alone.
    values_of: Option<&'a Attribute>,
    /// How many octets the values take: a response is measured several times before it is written.
    values_length: usize,
}

// Not derived: see "What the gate takes" in docs/ARCHITECTURE.md.
impl Drop for ShownAttribute<'_> {
    fn drop(self) {
        let ShownAttribute {
            description: _,
            values_of: _,
            values_length: _,
        } = self;
    }
}

impl<'a> Model for ShownAttribute<'a> {
    ghost use Rattle.std.specs.Prelude.{◌≡◌, ◌^◌, length, min};
    ghost use Rattle.ldap_msg.specs.ldap_ber.Element.{element_bytes};
    ghost use Rattle.ldap_msg.specs.ldap_ber.Rows.{row_bytes};
    ghost use Rattle.ldap_msg.specs.ldap_parts.Values.{PartialAttributeValue};
    ghost use Rattle.directory_api.specs.Lent.{lent_values};

    ghost Value = { PartialAttributeValue };

    ghost view = { λ a. record { description = a.description.now; values = lent_values a.values_of } };

    ghost invariant = { λ a. a.values_length ≡ min (length (row_bytes (element_bytes 4) (lent_values a.values_of)))
        (2 ^ 32) };
}

impl<'a> ShownAttribute<'a> {
    /// The values of an attribute, by this description.
    pub fn with_values(description: &'a str, attribute: &'a Attribute) -> ShownAttribute<'a>
        ensures { result ≡ record { description = description.now; values = attribute.now.values } }
    {
        ShownAttribute {
            description,
            values_of: Some(attribute),
            values_length: values_length(attribute),
        }
    }

    /// This description alone.
    pub fn without_values(description: &'a str) -> ShownAttribute<'a>
        ensures { result ≡ record { description = description.now; values = [] } }
    {
        ShownAttribute {
            description,
            values_of: None,
            values_length: 0,
        }
    }
}

impl AttributeParts for ShownAttribute<'_> {
    ghost attribute = { λ a. a };

    fn description(&self) -> &str {
        self.description
    }

    fn values_length(&self) -> usize {
        self.values_length
    }

    fn put_values(&self, out: &mut Vec<u8>) -> Result<(), EncodeError> {
        match self.values_of {
            Some(attribute) => put_value_set(attribute, self.values_length, out),
            None => write(0x31, &[], out),
        }
    }
}

/// Copies of the values that are shown.
fn copy_shown_values(
    alloc: Global,
    values_of: Option<&Attribute>,
) -> Result<Vec<Vec<u8>>, AllocError>
    ensures { IfOk result (λ v. map (λ octets. octets.items) v.items ≡ lent_values values_of.entry) }
{
    match values_of {
        Some(attribute) => copy_values(alloc, attribute),
        None => Ok(Vec::new(alloc)),
    }
}

/// A copy of what is lent.
fn copy_shown(alloc: Global, attribute: &ShownAttribute<'_>) -> Result<PartialAttribute, AllocError>
    ensures { IfOk result (λ a. attribute_view a ≡ attribute.now) }
{
    let description = String::from_str(alloc, attribute.description)?;
    let values = copy_shown_values(alloc, attribute.values_of)?;
    Ok(PartialAttribute {
        description,
        values,
    })
}

/// Copies of attributes that are lent.
pub fn copy_all(
    alloc: Global,
    attributes: &[ShownAttribute<'_>],
) -> Result<Vec<PartialAttribute>, AllocError>
    ensures { IfOk result (λ v. map attribute_view v.items ≡ attributes.now) }
{
    let mut copies = Vec::with_capacity(alloc, attributes.len())?;
    for attribute in attributes {
        copies.push(copy_shown(alloc, attribute)?)?;
    }
    Ok(copies)
}
