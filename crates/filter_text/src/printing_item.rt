//! Prints one item at the end of a buffer.

ghost use Rattle.std.specs.Prelude.{◌≡◌, ◌++◌, drop, length, ◌∷◌, [], map, string_bytes, OnOk};
ghost use Rattle.std.specs.Option.{option_map};
ghost use Rattle.ldap_filter.specs.Item.{substrings, extensible};
ghost use Rattle.ldap_filter.specs.ItemView.{substrings_view, extensible_view};
ghost use Rattle.filter_text.specs.Items as items;
ghost use Rattle.filter_text.specs.Values.{printed_value};

use crate::printing_value::put_value;
use ldap_filter::{MatchingRuleAssertion, SubstringFilter};
use std::alloc::AllocError;

/// Puts a description, an operator and a value.
pub fn put_simple(
    out: &mut String,
    description: &str,
    operator: &str,
    value: &[u8],
) -> Result<(), AllocError>
    ensures ok { OnOk result (string_bytes out.new ≡ string_bytes
        out.old ++ (description.now ++ (operator.now ++ printed_value value.now))) }
    ensures kept { string_bytes out.new ≡ string_bytes out.old ++ drop (length (string_bytes out.old))
        (string_bytes out.new) }
{
    out.push_str(description)?;
    out.push_str(operator)?;
    put_value(out, value)
}

/// Puts a description and `=*`.
pub fn put_presence(out: &mut String, description: &str) -> Result<(), AllocError>
    ensures ok { OnOk result (string_bytes out.new ≡ string_bytes out.old ++ (description.now ++ 61 ∷ 42 ∷ [])) }
    ensures kept { string_bytes out.new ≡ string_bytes out.old ++ drop (length (string_bytes out.old))
        (string_bytes out.new) }
{
    out.push_str(description)?;
    out.push_str("=*")
}

/// Puts a part at an end, where there is one.
fn put_part(out: &mut String, part: &Option<Vec<u8>>) -> Result<(), AllocError>
    ensures ok { OnOk result (string_bytes out.new ≡ string_bytes out.old ++ items.printed_part
        (option_map (λ v. v.items) part.now)) }
    ensures kept { string_bytes out.new ≡ string_bytes out.old ++ drop (length (string_bytes out.old))
        (string_bytes out.new) }
{
    match part {
        Some(value) => put_value(out, value),
        None => Ok(()),
    }
}

/// Puts parts, an asterisk behind each.
fn put_parts(out: &mut String, parts: &[Vec<u8>]) -> Result<(), AllocError>
    ensures ok { OnOk result (string_bytes out.new ≡ string_bytes out.old ++ items.printed_parts
        (map (λ v. v.items) parts.now)) }
    ensures kept { string_bytes out.new ≡ string_bytes out.old ++ drop (length (string_bytes out.old))
        (string_bytes out.new) }
{
    for part in parts {
        put_value(out, part)?;
        out.push('*')?;
    }
    Ok(())
}

/// Puts a substrings item.
pub fn put_substrings(out: &mut String, filter: &SubstringFilter) -> Result<(), AllocError>
    ensures ok { OnOk result (string_bytes out.new ≡ string_bytes out.old ++ items.printed_item
        (substrings (substrings_view filter.now))) }
    ensures kept { string_bytes out.new ≡ string_bytes out.old ++ drop (length (string_bytes out.old))
        (string_bytes out.new) }
{
    out.push_str(filter.description.as_str())?;
    out.push('=')?;
    put_part(out, &filter.initial)?;
    out.push('*')?;
    put_parts(out, &filter.any)?;
    put_part(out, &filter.last)
}

/// Puts a description, where there is one.
fn put_description(out: &mut String, description: &Option<String>) -> Result<(), AllocError>
    ensures ok { OnOk result (string_bytes out.new ≡ string_bytes out.old ++ items.part_or_nothing
        (option_map string_bytes description.now)) }
    ensures kept { string_bytes out.new ≡ string_bytes out.old ++ drop (length (string_bytes out.old))
        (string_bytes out.new) }
{
    match description {
        Some(description) => out.push_str(description.as_str()),
        None => Ok(()),
    }
}

/// Puts `:dn`, where the flag is set.
fn put_flag(out: &mut String, flag: bool) -> Result<(), AllocError>
    ensures ok { OnOk result (string_bytes out.new ≡ string_bytes out.old ++ items.printed_flag flag) }
    ensures kept { string_bytes out.new ≡ string_bytes out.old ++ drop (length (string_bytes out.old))
        (string_bytes out.new) }
{
    if flag { out.push_str(":dn") } else { Ok(()) }
}

/// Puts a colon and a rule, where there is one.
fn put_rule(out: &mut String, rule: &Option<String>) -> Result<(), AllocError>
    ensures ok { OnOk result (string_bytes out.new ≡ string_bytes out.old ++ items.rule_text
        (option_map string_bytes rule.now)) }
    ensures kept { string_bytes out.new ≡ string_bytes out.old ++ drop (length (string_bytes out.old))
        (string_bytes out.new) }
{
    match rule {
        Some(rule) => {
            out.push(':')?;
            out.push_str(rule.as_str())
        }
        None => Ok(()),
    }
}

/// Puts an extensible item.
pub fn put_extensible(out: &mut String, assertion: &MatchingRuleAssertion) -> Result<(), AllocError>
    ensures ok { OnOk result (string_bytes out.new ≡ string_bytes out.old ++ items.printed_item
        (extensible (extensible_view assertion.now))) }
    ensures kept { string_bytes out.new ≡ string_bytes out.old ++ drop (length (string_bytes out.old))
        (string_bytes out.new) }
{
    put_description(out, &assertion.description)?;
    put_flag(out, assertion.dn_attributes)?;
    put_rule(out, &assertion.matching_rule)?;
    out.push_str(":=")?;
    put_value(out, &assertion.match_value)
}
