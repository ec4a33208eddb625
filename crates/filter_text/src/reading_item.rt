//! Reads the item that stands between parentheses; the scanner has found that there is one.

ghost use Rattle.std.specs.Prelude.{◌≡◌, ◌∷◌, Option, Some, None, true, map, string_bytes, IfOk, IfErr, IfSome};
ghost use Rattle.std.specs.List.{list_all};
ghost use Rattle.std.specs.Option.{option_map};
ghost use Rattle.ldap_filter.specs.View.{view};
ghost use Rattle.filter_text.specs.private.Cuts as cuts;
ghost use Rattle.filter_text.specs.private.Reads.{PartFault, IsItemRead};
ghost use Rattle.filter_text.specs.private.Scanned.{value_of};
ghost use Rattle.filter_text.specs.Descriptions.{is_dn as is_dn_text};

use crate::cutting::{before, begins_with, behind_name, from, is_nil, name, tail};
use crate::fault::FilterTextError;
use crate::reading_value::{text, value};
use ldap_filter::{Filter, MatchingRuleAssertion, SubstringFilter};
use std::alloc::Global;

/// A description and a value.
fn assertion(
    alloc: Global,
    description: &[u8],
    octets: &[u8],
) -> Result<(String, Vec<u8>), FilterTextError>
    requires { list_all cuts.is_name_octet description.now ≡ true }
    ensures name { IfOk result (λ x. string_bytes x.0 ≡ description.now) }
    ensures found { IfOk result (λ x. value_of octets.now ≡ Some x.1.items) }
    ensures fault { IfErr result (λ e. PartFault e (value_of octets.now ≡ None)) }
{
    let value = value(alloc, octets)?;
    let description = text(alloc, description)?;
    Ok((description, value))
}

/// A comparison by `>=`, `<=` or `~=`, of which the first octet was read.
fn compared(
    alloc: Global,
    description: &[u8],
    sign: u8,
    rest: &[u8],
) -> Result<Filter, FilterTextError>
    requires { list_all cuts.is_name_octet description.now ≡ true }
    ensures found { IfOk result (IsItemRead (cuts.compared description.now sign rest.now)) }
    ensures fault { IfErr result (λ e. PartFault e (cuts.compared description.now sign rest.now ≡ None)) }
{
    let (description, assertion) = assertion(alloc, description, tail(rest))?;
    if sign == b'>' {
        Ok(Filter::AtLeast {
            description,
            assertion,
        })
    } else if sign == b'<' {
        Ok(Filter::AtMost {
            description,
            assertion,
        })
    } else {
        Ok(Filter::Approx {
            description,
            assertion,
        })
    }
}

/// A part at an end, or none.
fn part_of(alloc: Global, octets: &[u8]) -> Result<Option<Vec<u8>>, FilterTextError>
    ensures found { IfOk result (λ p. cuts.part_of octets.now ≡ Some (option_map (λ v. v.items) p)) }
    ensures fault { IfErr result (λ e. PartFault e (cuts.part_of octets.now ≡ None)) }
{
    match octets {
        [] => Ok(None),
        [_, ..] => Ok(Some(value(alloc, octets)?)),
    }
}

/// Parts with an asterisk behind each, and the part at the end.
fn parts_of(
    alloc: Global,
    octets: &[u8],
) -> Result<(Vec<Vec<u8>>, Option<Vec<u8>>), FilterTextError>
    ensures found { IfOk result (λ x. cuts.parts_of octets.now
        ≡ Some (record { any = map (λ v. v.items) x.0.items; last = option_map (λ v. v.items) x.1 })) }
    ensures fault { IfErr result (λ e. PartFault e (cuts.parts_of octets.now ≡ None)) }
{
    let mut any = Vec::new(alloc);
    let mut rest = octets;
    while !is_nil(from(b'*', rest)) {
        let part = value(alloc, before(b'*', rest))?;
        any.push(part)?;
        rest = tail(from(b'*', rest));
    }
    let last = part_of(alloc, rest)?;
    Ok((any, last))
}

/// Presence, or parts round asterisks, of which the first was found.
fn starred(
    alloc: Global,
    description: &[u8],
    front: &[u8],
    behind: &[u8],
) -> Result<Filter, FilterTextError>
    requires { list_all cuts.is_name_octet description.now ≡ true }
    ensures found { IfOk result (IsItemRead (cuts.starred description.now front.now behind.now)) }
    ensures fault { IfErr result (λ e. PartFault e (cuts.starred description.now front.now behind.now ≡ None)) }
{
    let description = text(alloc, description)?;
    if is_nil(front) && is_nil(behind) {
        return Ok(Filter::Present(description));
    }
    let initial = part_of(alloc, front)?;
    let (any, last) = parts_of(alloc, behind)?;
    Ok(Filter::Substrings(SubstringFilter {
        description,
        initial,
        any,
        last,
    }))
}

/// What stands behind `=`.
fn equality(alloc: Global, description: &[u8], rest: &[u8]) -> Result<Filter, FilterTextError>
    requires { list_all cuts.is_name_octet description.now ≡ true }
    ensures found { IfOk result (IsItemRead (cuts.equality description.now rest.now)) }
    ensures fault { IfErr result (λ e. PartFault e (cuts.equality description.now rest.now ≡ None)) }
{
    let star = from(b'*', rest);
    if is_nil(star) {
        let (description, assertion) = assertion(alloc, description, rest)?;
        return Ok(Filter::Equal {
            description,
            assertion,
        });
    }
    starred(alloc, description, before(b'*', rest), tail(star))
}

/// Whether the octets are `dn`, in any case.
fn is_dn(octets: &[u8]) -> bool
    ensures { result ≡ is_dn_text octets.now }
{
    octets.eq_ignore_ascii_case(b"dn")
}

/// The flag, the rule and the value's text behind a word and a colon.
fn worded<'a>(described: bool, word: &'a [u8], rest: &'a [u8]) -> (bool, Option<&'a [u8]>, &'a [u8])
    requires { list_all cuts.is_name_octet word.now ≡ true }
    ensures value { record { dn = result.0; rule = option_map (λ r. r.now) result.1; value = result.2.now }
        ≡ cuts.worded described word.now rest.now }
    ensures octets { IfSome result.1 (λ r. list_all cuts.is_name_octet r.now ≡ true) }
{
    if begins_with(b'=', rest) {
        if described && is_dn(word) {
            return (true, None, tail(rest));
        }
        return (false, Some(word), tail(rest));
    }
    (true, Some(name(rest)), tail(tail(behind_name(rest))))
}

/// The flag, the rule and the value's text behind the first colon.
fn applied(described: bool, rest: &[u8]) -> (bool, Option<&[u8]>, &[u8])
    ensures value { record { dn = result.0; rule = option_map (λ r. r.now) result.1; value = result.2.now }
        ≡ cuts.applied described rest.now }
    ensures octets { IfSome result.1 (λ r. list_all cuts.is_name_octet r.now ≡ true) }
{
    if begins_with(b'=', rest) {
        return (false, None, tail(rest));
    }
    worded(described, name(rest), tail(behind_name(rest)))
}

/// A rule, where there is one.
fn rule_text(alloc: Global, rule: Option<&[u8]>) -> Result<Option<String>, FilterTextError>
    requires { IfSome rule (λ r. list_all cuts.is_name_octet r.now ≡ true) }
    ensures found { IfOk result (λ t. option_map string_bytes t ≡ option_map (λ r. r.now) rule.entry) }
    ensures fault { IfErr result (λ e. e ≡ FilterTextError.NoMemory) }
{
    match rule {
        None => Ok(None),
        Some(octets) => Ok(Some(text(alloc, octets)?)),
    }
}

/// A description, where there is one.
fn described_by(alloc: Global, octets: &[u8]) -> Result<Option<String>, FilterTextError>
    requires { list_all cuts.is_name_octet octets.now ≡ true }
    ensures found { IfOk result (λ t. option_map string_bytes t ≡ cuts.described_by octets.now) }
    ensures fault { IfErr result (λ e. e ≡ FilterTextError.NoMemory) }
{
    match octets {
        [] => Ok(None),
        [_, ..] => Ok(Some(text(alloc, octets)?)),
    }
}

/// What stands behind the first colon.
fn extensible(alloc: Global, description: &[u8], rest: &[u8]) -> Result<Filter, FilterTextError>
    requires { list_all cuts.is_name_octet description.now ≡ true }
    ensures found { IfOk result (IsItemRead (cuts.extensible_of description.now rest.now)) }
    ensures fault { IfErr result (λ e. PartFault e (cuts.extensible_of description.now rest.now ≡ None)) }
{
    let (dn_attributes, rule, octets) = applied(!is_nil(description), rest);
    let match_value = value(alloc, octets)?;
    let description = described_by(alloc, description)?;
    let matching_rule = rule_text(alloc, rule)?;
    Ok(Filter::Extensible(MatchingRuleAssertion {
        matching_rule,
        description,
        match_value,
        dn_attributes,
    }))
}

/// The item that the text between its parentheses spells.
pub fn item(alloc: Global, body: &[u8]) -> Result<Filter, FilterTextError>
    ensures found { IfOk result (IsItemRead (cuts.item_of body.now)) }
    ensures fault { IfErr result (λ e. PartFault e (cuts.item_of body.now ≡ None)) }
{
    let description = name(body);
    match behind_name(body) {
        [] => Err(FilterTextError::BadFilterText { at: 0 }),
        [first, rest @ ..] => match *first {
            b'=' => equality(alloc, description, rest),
            b':' => extensible(alloc, description, rest),
            sign => compared(alloc, description, sign, rest),
        },
    }
}
