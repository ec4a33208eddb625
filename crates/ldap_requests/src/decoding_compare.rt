//! Reads a compare request.

ghost use Rattle.std.specs.Prelude.{ℕ, List, IfOk, IfErr};
ghost use Rattle.ldap_filter.specs.ldap_ber.Faults.{IsPlainFault};
ghost use Rattle.ldap_filter.specs.ldap_ber.Fields.{HasPart};
ghost use Rattle.ldap_requests.specs.Values.{AssertionValue, CompareRequestValue};
ghost use Rattle.ldap_requests.specs.View.{ava_view, compare_view};
ghost use Rattle.ldap_requests.specs.Grammar.{IsAva, IsCompareRequest};

use crate::compare::{AttributeValueAssertion, CompareRequest};
use ldap_filter::{MsgFault, elements, field, octets_field, text_field};
use std::alloc::Global;

/// The assertion whose content this is.
fn ava_of(alloc: Global, content: &[u8]) -> Result<AttributeValueAssertion, MsgFault>
    ensures found { IfOk result (λ a. IsAva (ava_view a) content.now) }
    ensures fault { IfErr result (λ e. IsPlainFault e ((a : AssertionValue) × IsAva a content.now)) }
{
    let (attribute_desc, rest) = text_field(alloc, 0x04, content)?;
    let (assertion_value, rest) = octets_field(alloc, 0x04, rest)?;
    elements(rest)?;
    Ok(AttributeValueAssertion {
        attribute_desc,
        assertion_value,
    })
}

/// The assertion at the front, and the octets after it.
fn ava_field(alloc: Global, octets: &[u8]) -> Result<(AttributeValueAssertion, &[u8]), MsgFault>
    ensures found { IfOk result (λ x. HasPart (IsAva (ava_view x.0)) octets.now 48 x.1.now) }
    ensures fault { IfErr result (λ e. IsPlainFault e ((a : AssertionValue) × (rest : List ℕ)
        × HasPart (IsAva a) octets.now 48 rest)) }
{
    let (content, rest) = field(0x30, octets)?;
    let ava = ava_of(alloc, content)?;
    Ok((ava, rest))
}

/// The compare whose content this is.
pub fn compare_of(alloc: Global, content: &[u8]) -> Result<CompareRequest, MsgFault>
    ensures found { IfOk result (λ k. IsCompareRequest (compare_view k) content.now) }
    ensures fault { IfErr result (λ e. IsPlainFault e ((k : CompareRequestValue)
        × IsCompareRequest k content.now)) }
{
    let (entry, rest) = text_field(alloc, 0x04, content)?;
    let (ava, rest) = ava_field(alloc, rest)?;
    elements(rest)?;
    Ok(CompareRequest { entry, ava })
}
