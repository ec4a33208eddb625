//! Reads an item.

ghost use Rattle.std.specs.Prelude.{◌≡◌, ℕ, List, IfOk, IfErr, string_bytes};
ghost use Rattle.ldap_ber.specs.Faults.{IsPlainFault};
ghost use Rattle.ldap_filter.specs.Item.{Comparison, SubstringsValue, ExtensibleValue, Item};
ghost use Rattle.ldap_filter.specs.ItemView.{substrings_view, extensible_view};
ghost use Rattle.ldap_filter.specs.ItemGrammar.{comparison_octet, item_octet, IsAssertion, IsSubstrings, IsExtensible, IsItem};
ghost use Rattle.ldap_filter.specs.View.{view};
ghost use Rattle.ldap_filter.specs.private.Limits.{IsItemTree};

use crate::item::{MatchingRuleAssertion, SubstringFilter};
use crate::parts::parts_of;
use crate::tree::Filter;
use ldap_ber::{MsgFault, field, flag_or_false, octets_field, optional_text, text, text_field};
use std::alloc::Global;

/// A description and an assertion, and nothing after them (RFC 4511 4.1.6).
fn assertion(alloc: Global, content: &[u8]) -> Result<(String, Vec<u8>), MsgFault>
    ensures found { IfOk result (λ x. IsAssertion (string_bytes x.0) x.1.items content.now) }
    ensures fault { IfErr result (λ e. IsPlainFault e ((d a : List ℕ)
        × IsAssertion d a content.now)) }
{
    let (description, rest) = text_field(alloc, 0x04, content)?;
    let (assertion, rest) = octets_field(alloc, 0x04, rest)?;
    if !rest.is_empty() {
        return Err(MsgFault::NotAMessage);
    }
    Ok((description, assertion))
}

/// A description and parts, and nothing after them.
fn substring_filter(alloc: Global, content: &[u8]) -> Result<SubstringFilter, MsgFault>
    ensures found { IfOk result (λ s. IsSubstrings (substrings_view s) content.now) }
    ensures fault { IfErr result (λ e. IsPlainFault e ((s : SubstringsValue)
        × IsSubstrings s content.now)) }
{
    let (description, rest) = text_field(alloc, 0x04, content)?;
    let (octets, rest) = field(0x30, rest)?;
    if !rest.is_empty() {
        return Err(MsgFault::NotAMessage);
    }
    let parts = parts_of(alloc, octets)?;
    Ok(SubstringFilter {
        description,
        initial: parts.initial,
        any: parts.any,
        last: parts.last,
    })
}

/// A rule, a description, a value and a flag, and nothing after them.
fn matching_rule_assertion(alloc: Global, content: &[u8]) -> Result<MatchingRuleAssertion, MsgFault>
    ensures found { IfOk result (λ a. IsExtensible (extensible_view a) content.now) }
    ensures fault { IfErr result (λ e. IsPlainFault e ((a : ExtensibleValue)
        × IsExtensible a content.now)) }
{
    let (matching_rule, rest) = optional_text(alloc, 0x81, content)?;
    let (description, rest) = optional_text(alloc, 0x82, rest)?;
    let (match_value, rest) = octets_field(alloc, 0x83, rest)?;
    let (dn_attributes, rest) = flag_or_false(0x84, rest)?;
    if !rest.is_empty() {
        return Err(MsgFault::NotAMessage);
    }
    Ok(MatchingRuleAssertion {
        matching_rule,
        description,
        match_value,
        dn_attributes,
    })
}

/// The comparison that an element of this first octet and content is.
fn comparison(alloc: Global, first: u8, content: &[u8]) -> Result<Filter, MsgFault>
    ensures found { IfOk result (λ f. IsItemTree first content.now (view f)) }
    ensures fault { IfErr result (λ e. IsPlainFault e ((k : Comparison) × (comparison_octet k ≡ first)
        × (d a : List ℕ) × IsAssertion d a content.now)) }
{
    let (description, assertion) = assertion(alloc, content)?;
    match first {
        0xa3 => Ok(Filter::Equal {
            description,
            assertion,
        }),
        0xa5 => Ok(Filter::AtLeast {
            description,
            assertion,
        }),
        0xa6 => Ok(Filter::AtMost {
            description,
            assertion,
        }),
        0xa8 => Ok(Filter::Approx {
            description,
            assertion,
        }),
        _ => Err(MsgFault::NotAMessage),
    }
}

/// The item that an element of this first octet and content is.
pub fn item_of(alloc: Global, first: u8, content: &[u8]) -> Result<Filter, MsgFault>
    ensures found { IfOk result (λ f. IsItemTree first content.now (view f)) }
    ensures fault { IfErr result (λ e. IsPlainFault e ((i : Item) × (item_octet i ≡ first)
        × IsItem i content.now)) }
{
    match first {
        0xa4 => {
            let parts = substring_filter(alloc, content)?;
            Ok(Filter::Substrings(parts))
        }
        0x87 => {
            let description = text(alloc, content)?;
            Ok(Filter::Present(description))
        }
        0xa9 => {
            let assertion = matching_rule_assertion(alloc, content)?;
            Ok(Filter::Extensible(assertion))
        }
        _ => comparison(alloc, first, content),
    }
}
