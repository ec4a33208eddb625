//! Copies what items hold.

ghost use Rattle.std.specs.Prelude.{◌≡◌, IfOk, map, string_bytes};
ghost use Rattle.std.specs.Option.{option_map};
ghost use Rattle.ldap_filter.specs.ItemView.{substrings_view, extensible_view};

use crate::item::{MatchingRuleAssertion, SubstringFilter};
use std::alloc::{AllocError, Global};

/// A copy of a text.
pub fn copy_text(alloc: Global, text: &String) -> Result<String, AllocError>
    ensures { IfOk result (λ t. string_bytes t ≡ string_bytes text.now) }
{
    String::from_str(alloc, text.as_str())
}

/// A copy of octets.
pub fn copy_octets(alloc: Global, octets: &[u8]) -> Result<Vec<u8>, AllocError>
    ensures { IfOk result (λ v. v.items ≡ octets.now) }
{
    Vec::from_slice(alloc, octets)
}

/// A copy of a text, where there is one.
fn copy_optional_text(alloc: Global, text: &Option<String>) -> Result<Option<String>, AllocError>
    ensures { IfOk result (λ t. option_map string_bytes t ≡ option_map string_bytes text.now) }
{
    match text {
        Some(text) => {
            let copy = copy_text(alloc, text)?;
            Ok(Some(copy))
        }
        None => Ok(None),
    }
}

/// A copy of octets, where there are any.
fn copy_optional_octets(
    alloc: Global,
    octets: &Option<Vec<u8>>,
) -> Result<Option<Vec<u8>>, AllocError>
    ensures { IfOk result (λ v. option_map (λ x. x.items) v ≡ option_map (λ x. x.items) octets.now) }
{
    match octets {
        Some(octets) => {
            let copy = copy_octets(alloc, octets)?;
            Ok(Some(copy))
        }
        None => Ok(None),
    }
}

/// A copy of each of the octets.
fn copy_all(alloc: Global, all: &[Vec<u8>]) -> Result<Vec<Vec<u8>>, AllocError>
    ensures { IfOk result (λ v. map (λ x. x.items) v.items ≡ map (λ x. x.items) all.now) }
{
    let mut copies = Vec::new(alloc);
    for octets in all {
        copies.push(copy_octets(alloc, octets)?)?;
    }
    Ok(copies)
}

/// A copy of a substrings item.
pub fn copy_substrings(
    alloc: Global,
    filter: &SubstringFilter,
) -> Result<SubstringFilter, AllocError>
    ensures { IfOk result (λ s. substrings_view s ≡ substrings_view filter.now) }
{
    let description = copy_text(alloc, &filter.description)?;
    let initial = copy_optional_octets(alloc, &filter.initial)?;
    let any = copy_all(alloc, &filter.any)?;
    let last = copy_optional_octets(alloc, &filter.last)?;
    Ok(SubstringFilter {
        description,
        initial,
        any,
        last,
    })
}

/// A copy of an extensible item.
pub fn copy_extensible(
    alloc: Global,
    assertion: &MatchingRuleAssertion,
) -> Result<MatchingRuleAssertion, AllocError>
    ensures { IfOk result (λ a. extensible_view a ≡ extensible_view assertion.now) }
{
    let matching_rule = copy_optional_text(alloc, &assertion.matching_rule)?;
    let description = copy_optional_text(alloc, &assertion.description)?;
    let match_value = copy_octets(alloc, &assertion.match_value)?;
    Ok(MatchingRuleAssertion {
        matching_rule,
        description,
        match_value,
        dn_attributes: assertion.dn_attributes,
    })
}
