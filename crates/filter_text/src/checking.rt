//! Decides which filters have a text.

ghost use Rattle.std.specs.Prelude.{◌≡◌, ◌&&◌, map, string_bytes};
ghost use Rattle.std.specs.Option.{option_map};
ghost use Rattle.std.specs.List.{list_all};
ghost use Rattle.ldap_filter.specs.Item.{substrings, extensible};
ghost use Rattle.ldap_filter.specs.ItemView.{substrings_view, extensible_view};
ghost use Rattle.ldap_filter.specs.View.{view};
ghost use Rattle.ldap_filter.specs.private.View.{views};
ghost use Rattle.filter_text.specs.Values.{are_octets as are_octets_of};
ghost use Rattle.filter_text.specs.Descriptions.{is_description as is_description_text, is_dn as is_dn_word};
ghost use Rattle.filter_text.specs.Items as items;
ghost use Rattle.filter_text.specs.Grammar as grammar;

use ldap_filter::{Filter, MatchingRuleAssertion, SubstringFilter};
use ldap_words::{is_description, is_oid};

/// Whether the octets are `dn`, in any case.
fn is_dn(octets: &[u8]) -> bool
    ensures { result ≡ is_dn_word octets.now }
{
    octets.eq_ignore_ascii_case(b"dn")
}

/// Octets are octets.
fn are_octets(value: &[u8]) -> bool
    ensures { result ≡ are_octets_of value.now }
{
    value.iter().all(|octet| u16::from(*octet) < 256)
}

/// Whether the octets may be a part of a substrings item.
fn is_part(value: &[u8]) -> bool
    ensures { result ≡ items.is_part value.now }
{
    !value.is_empty() && are_octets(value)
}

/// Whether the octets may be a part at an end, where there is one.
fn is_part_or_none(value: &Option<Vec<u8>>) -> bool
    ensures { result ≡ items.is_part_or_none (option_map (λ v. v.items) value.now) }
{
    match value {
        Some(value) => is_part(value),
        None => true,
    }
}

/// Whether all of the octets may be parts.
fn are_parts(values: &[Vec<u8>]) -> bool
    ensures { result ≡ list_all items.is_part (map (λ v. v.items) values.now) }
{
    for value in values {
        if !is_part(value) {
            return false;
        }
    }
    true
}

/// Whether the item has a part.
fn has_part(filter: &SubstringFilter) -> bool
    ensures { result ≡ items.has_part (option_map (λ v. v.items) filter.now.initial)
        (map (λ v. v.items) filter.now.any.items) (option_map (λ v. v.items) filter.now.last) }
{
    filter.initial.is_some() || !filter.any.is_empty() || filter.last.is_some()
}

/// Whether a substrings item has a text.
fn has_substrings_text(filter: &SubstringFilter) -> bool
    ensures { result ≡ items.has_item_text (substrings (substrings_view filter.now)) }
{
    is_description(filter.description.as_bytes())
        && is_part_or_none(&filter.initial)
        && are_parts(&filter.any)
        && is_part_or_none(&filter.last)
        && has_part(filter)
}

/// Whether the description, the flag and the rule stand together.
fn is_applicable(assertion: &MatchingRuleAssertion) -> bool
    ensures { result ≡ items.is_applicable (option_map string_bytes assertion.now.description)
        assertion.now.dn_attributes (option_map string_bytes assertion.now.matching_rule) }
{
    match (&assertion.description, &assertion.matching_rule) {
        (None, None) => false,
        (None, Some(rule)) => is_oid(rule.as_bytes()),
        (Some(description), None) => is_description(description.as_bytes()),
        (Some(description), Some(rule)) => {
            is_description(description.as_bytes())
                && is_oid(rule.as_bytes())
                && (assertion.dn_attributes || !is_dn(rule.as_bytes()))
        }
    }
}

/// Whether an extensible item has a text.
fn has_extensible_text(assertion: &MatchingRuleAssertion) -> bool
    ensures { result ≡ items.has_item_text (extensible (extensible_view assertion.now)) }
{
    is_applicable(assertion) && are_octets(&assertion.match_value)
}

/// Whether a description and a value have a text.
fn has_simple_text(description: &str, value: &[u8]) -> bool
    ensures { result ≡ is_description_text description.now && are_octets_of value.now }
{
    is_description(description.as_bytes()) && are_octets(value)
}

/// Whether some text spells the filter.
#[cycle(check)]
pub fn has_text(filter: &Filter) -> bool
    ensures { result ≡ grammar.has_text (view filter.now) }
{
    match filter {
        Filter::And(filters) => have_texts(filters),
        Filter::Or(filters) => have_texts(filters),
        Filter::Not(inner) => has_text(inner),
        Filter::Equal {
            description,
            assertion,
        } => has_simple_text(description.as_str(), assertion),
        Filter::Substrings(filter) => has_substrings_text(filter),
        Filter::AtLeast {
            description,
            assertion,
        } => has_simple_text(description.as_str(), assertion),
        Filter::AtMost {
            description,
            assertion,
        } => has_simple_text(description.as_str(), assertion),
        Filter::Present(description) => is_description(description.as_bytes()),
        Filter::Approx {
            description,
            assertion,
        } => has_simple_text(description.as_str(), assertion),
        Filter::Extensible(assertion) => has_extensible_text(assertion),
    }
}

#[cycle(check)]
fn have_texts(filters: &[Filter]) -> bool
    ensures { result ≡ grammar.have_texts (views filters.now) }
{
    for filter in filters {
        if !has_text(filter) {
            return false;
        }
    }
    true
}
