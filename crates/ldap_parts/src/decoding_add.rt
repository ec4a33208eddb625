//! Reads an add.

ghost use Rattle.std.specs.Prelude.{ℕ, List, IfOk, IfErr, map};
ghost use Rattle.ldap_ber.specs.Faults.{IsPlainFault};
ghost use Rattle.ldap_ber.specs.Fields.{HasPart};
ghost use Rattle.ldap_ber.specs.Rows.{AreRow};
ghost use Rattle.ldap_parts.specs.Values.{PartialAttributeValue};
ghost use Rattle.ldap_parts.specs.View.{attribute_view};
ghost use Rattle.ldap_parts.specs.UpdateValues.{AddRequestValue};
ghost use Rattle.ldap_parts.specs.UpdateView.{add_view};
ghost use Rattle.ldap_parts.specs.UpdateGrammar.{IsAttribute, HasAttribute, IsAddRequest};

use crate::add::AddRequest;
use crate::attribute::Attribute;
use crate::decoding_attribute::attribute_of;
use ldap_ber::{MsgFault, elements, field, text_field};
use std::alloc::Global;

/// The attribute whose content this is; E8 where it has no value.
fn full_attribute_of(alloc: Global, content: &[u8]) -> Result<Attribute, MsgFault>
    ensures found { IfOk result (λ a. IsAttribute (attribute_view a) content.now) }
    ensures fault { IfErr result (λ e. IsPlainFault e ((a : PartialAttributeValue)
        × IsAttribute a content.now)) }
{
    let attribute = attribute_of(alloc, content)?;
    if attribute.values.as_slice().is_empty() {
        return Err(MsgFault::NotAMessage);
    }
    Ok(attribute)
}

/// The attribute at the front, and the octets after it.
fn full_attribute_field(alloc: Global, octets: &[u8]) -> Result<(Attribute, &[u8]), MsgFault>
    ensures found { IfOk result (λ x. HasAttribute (attribute_view x.0) octets.now x.1.now) }
    ensures fault { IfErr result (λ e. IsPlainFault e ((a : PartialAttributeValue)
        × (rest : List ℕ) × HasAttribute a octets.now rest)) }
{
    let (content, rest) = field(0x30, octets)?;
    let attribute = full_attribute_of(alloc, content)?;
    Ok((attribute, rest))
}

/// Attributes, one after the other, up to the end.
fn full_attributes(alloc: Global, content: &[u8]) -> Result<Vec<Attribute>, MsgFault>
    ensures found { IfOk result (λ v. AreRow HasAttribute
        (map attribute_view v.items) content.now) }
    ensures fault { IfErr result (λ e. IsPlainFault e ((row : List PartialAttributeValue)
        × AreRow HasAttribute row content.now)) }
{
    let mut attributes = Vec::new(alloc);
    let mut rest = content;
    while !rest.is_empty() {
        let (attribute, after) = full_attribute_field(alloc, rest)?;
        attributes.push(attribute)?;
        rest = after;
    }
    Ok(attributes)
}

/// The list of attributes at the front, and the octets after it.
fn full_attributes_field(alloc: Global, octets: &[u8]) -> Result<(Vec<Attribute>, &[u8]), MsgFault>
    ensures found { IfOk result (λ x. HasPart (AreRow HasAttribute
        (map attribute_view x.0.items)) octets.now 48 x.1.now) }
    ensures fault { IfErr result (λ e. IsPlainFault e ((row : List PartialAttributeValue)
        × (rest : List ℕ) × HasPart (AreRow HasAttribute row) octets.now 48 rest)) }
{
    let (content, rest) = field(0x30, octets)?;
    let attributes = full_attributes(alloc, content)?;
    Ok((attributes, rest))
}

/// The add whose content this is.
pub fn add_of(alloc: Global, content: &[u8]) -> Result<AddRequest, MsgFault>
    ensures found { IfOk result (λ a. IsAddRequest (add_view a) content.now) }
    ensures fault { IfErr result (λ e. IsPlainFault e ((a : AddRequestValue)
        × IsAddRequest a content.now)) }
{
    let (entry, rest) = text_field(alloc, 0x04, content)?;
    let (attributes, rest) = full_attributes_field(alloc, rest)?;
    elements(rest)?;
    Ok(AddRequest { entry, attributes })
}
