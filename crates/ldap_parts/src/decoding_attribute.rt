//! Reads attributes.

ghost use Rattle.std.specs.Prelude.{ℕ, List, IfOk, IfErr, map, string_bytes};
ghost use Rattle.ldap_ber.specs.Faults.{IsPlainFault};
ghost use Rattle.ldap_ber.specs.Fields.{HasPart};
ghost use Rattle.ldap_ber.specs.Rows.{AreRow};
ghost use Rattle.ldap_parts.specs.Values.{PartialAttributeValue};
ghost use Rattle.ldap_parts.specs.View.{attribute_view};
ghost use Rattle.ldap_parts.specs.Grammar.{IsPartialAttribute, HasPartialAttribute};

use crate::attribute::PartialAttribute;
use ldap_ber::{MsgFault, elements, field, text_field, values_field};
use std::alloc::Global;

/// The attribute whose content this is.
pub fn attribute_of(alloc: Global, content: &[u8]) -> Result<PartialAttribute, MsgFault>
    ensures found { IfOk result (λ a. IsPartialAttribute (attribute_view a) content.now) }
    ensures fault { IfErr result (λ e. IsPlainFault e ((a : PartialAttributeValue)
        × IsPartialAttribute a content.now)) }
{
    let (description, rest) = text_field(alloc, 0x04, content)?;
    let (values, rest) = values_field(alloc, 0x31, rest)?;
    elements(rest)?;
    Ok(PartialAttribute {
        description,
        values,
    })
}

/// The attribute at the front, and the octets after it.
pub fn attribute_field(alloc: Global, octets: &[u8]) -> Result<(PartialAttribute, &[u8]), MsgFault>
    ensures found { IfOk result (λ x. HasPartialAttribute (attribute_view x.0) octets.now x.1.now) }
    ensures fault { IfErr result (λ e. IsPlainFault e ((a : PartialAttributeValue)
        × (rest : List ℕ) × HasPartialAttribute a octets.now rest)) }
{
    let (content, rest) = field(0x30, octets)?;
    let attribute = attribute_of(alloc, content)?;
    Ok((attribute, rest))
}

/// Attributes, one after the other, up to the end.
fn attributes(alloc: Global, content: &[u8]) -> Result<Vec<PartialAttribute>, MsgFault>
    ensures found { IfOk result (λ v. AreRow HasPartialAttribute
        (map attribute_view v.items) content.now) }
    ensures fault { IfErr result (λ e. IsPlainFault e ((row : List PartialAttributeValue)
        × AreRow HasPartialAttribute row content.now)) }
{
    let mut attributes = Vec::new(alloc);
    let mut rest = content;
    while !rest.is_empty() {
        let (attribute, after) = attribute_field(alloc, rest)?;
        attributes.push(attribute)?;
        rest = after;
    }
    Ok(attributes)
}

/// The list of attributes at the front, and the octets after it.
pub fn attributes_field(
    alloc: Global,
    octets: &[u8],
) -> Result<(Vec<PartialAttribute>, &[u8]), MsgFault>
    ensures found { IfOk result (λ x. HasPart (AreRow HasPartialAttribute
        (map attribute_view x.0.items)) octets.now 48 x.1.now) }
    ensures fault { IfErr result (λ e. IsPlainFault e ((row : List PartialAttributeValue)
        × (rest : List ℕ) × HasPart (AreRow HasPartialAttribute row) octets.now 48 rest)) }
{
    let (content, rest) = field(0x30, octets)?;
    let attributes = attributes(alloc, content)?;
    Ok((attributes, rest))
}
