//! Writes attributes, each octet once.

ghost use Rattle.std.specs.Prelude.{◌≡◌, ◌^◌, ◌≤◌, ◌++◌, map, drop, length, min, IfOk, OnOk, IsErrOf};
ghost use Rattle.ldap_ber.specs.Element.{element_bytes};
ghost use Rattle.ldap_ber.specs.Rows.{row_bytes};
ghost use Rattle.ldap_parts.specs.View.{attribute_view};
ghost use Rattle.ldap_parts.specs.Written.{attribute_content, attribute_bytes};

use crate::attribute::{AttributeParts, PartialAttribute};
use ldap_ber::{WriteError, add_lengths, element_length, write, write_head};
use std::alloc::Global;

/// How many octets the content of an attribute takes; 2^32 where there are more.
fn content_length<A: AttributeParts>(attribute: &A) -> usize
    ensures { result ≡ min (length (attribute_content (A.attribute attribute.now))) (2 ^ 32) }
{
    let values = attribute.values_length();
    let description = attribute.description().as_bytes().len();
    add_lengths(element_length(description), element_length(values))
}

/// How many octets attributes take, one after the other; 2^32 where there are more.
pub fn attributes_length<A: AttributeParts>(attributes: &[A]) -> usize
    ensures { result ≡ min (length (row_bytes attribute_bytes (map A.attribute attributes.now)))
        (2 ^ 32) }
{
    let mut total = 0;
    for attribute in attributes {
        total = add_lengths(total, element_length(content_length(attribute)));
    }
    total
}

/// Writes the content of an attribute.
fn put_content<A: AttributeParts>(attribute: &A, out: &mut Vec<u8>) -> Result<(), WriteError>
    ensures ok { OnOk result (out.new.items ≡ out.old.items ++ attribute_content
        (A.attribute attribute.now)) }
    ensures too_long { IsErrOf result WriteError.TooLong
        → 2 ^ 32 ≤ length (attribute_content (A.attribute attribute.now)) }
    ensures kept { out.new.items ≡ out.old.items ++ drop (length out.old.items) out.new.items }
{
    write(0x04, attribute.description().as_bytes(), out)?;
    attribute.put_values(out)
}

/// Writes an attribute.
fn put_attribute<A: AttributeParts>(attribute: &A, out: &mut Vec<u8>) -> Result<(), WriteError>
    ensures ok { OnOk result (out.new.items ≡ out.old.items ++ attribute_bytes
        (A.attribute attribute.now)) }
    ensures too_long { IsErrOf result WriteError.TooLong
        → 2 ^ 32 ≤ length (attribute_bytes (A.attribute attribute.now)) }
    ensures kept { out.new.items ≡ out.old.items ++ drop (length out.old.items) out.new.items }
{
    write_head(0x30, content_length(attribute), out)?;
    put_content(attribute, out)
}

/// The content of an attribute's element.
pub fn attribute_content(alloc: Global, attribute: &PartialAttribute) -> Result<Vec<u8>, WriteError>
    ensures ok { IfOk result (λ v. v.items ≡ attribute_content (attribute_view attribute.now)) }
    ensures too_long { IsErrOf result WriteError.TooLong
        → 2 ^ 32 ≤ length (attribute_content (attribute_view attribute.now)) }
{
    let mut content = Vec::new(alloc);
    put_content(attribute, &mut content)?;
    Ok(content)
}

/// Writes attributes, one after the other.
pub fn put_attributes<A: AttributeParts>(
    _alloc: Global,
    attributes: &[A],
    out: &mut Vec<u8>,
) -> Result<(), WriteError>
    ensures ok { OnOk result (out.new.items ≡ out.old.items ++ row_bytes attribute_bytes
        (map A.attribute attributes.now)) }
    ensures too_long { IsErrOf result WriteError.TooLong
        → 2 ^ 32 ≤ length (row_bytes attribute_bytes (map A.attribute attributes.now)) }
    ensures kept { out.new.items ≡ out.old.items ++ drop (length out.old.items) out.new.items }
{
    for attribute in attributes {
        put_attribute(attribute, out)?;
    }
    Ok(())
}

/// Writes attributes as a PartialAttributeList, of first octet 30 (RFC 4511 4.5.2). E3 only where it is
/// longer than a length can say.
pub fn put_attribute_list<A: AttributeParts>(
    alloc: Global,
    attributes: &[A],
    out: &mut Vec<u8>,
) -> Result<(), WriteError>
    ensures ok { OnOk result (out.new.items ≡ out.old.items ++ element_bytes 48 (row_bytes
        attribute_bytes (map A.attribute attributes.now))) }
    ensures too_long { IsErrOf result WriteError.TooLong
        → 2 ^ 32 ≤ length (row_bytes attribute_bytes (map A.attribute attributes.now)) }
    ensures kept { out.new.items ≡ out.old.items ++ drop (length out.old.items) out.new.items }
{
    write_head(0x30, attributes_length(attributes), out)?;
    put_attributes(alloc, attributes, out)
}
