//! Writes an item's one spelling.

ghost use Rattle.std.specs.Prelude.{◌≡◌, ◌<◌, ◌≤◌, ◌^◌, ◌%◌, ◌++◌, length, map, OnOk, OnErr, IsErrOf, string_bytes};
ghost use Rattle.ldap_ber.specs.Element.{element_bytes};
ghost use Rattle.ldap_ber.specs.Rows.{row_bytes};
ghost use Rattle.ldap_filter.specs.ItemView.{substrings_view, extensible_view};
ghost use Rattle.ldap_filter.specs.ItemGrammar.{assertion_content, parts_content, substrings_content, extensible_content};

use crate::item::{MatchingRuleAssertion, SubstringFilter};
use ldap_ber::{WriteError, put_optional_octets, put_optional_text, write};
use std::alloc::Global;

/// Writes a description and an assertion.
pub fn put_assertion(
    alloc: Global,
    first: u8,
    description: &str,
    assertion: &[u8],
    out: &mut Vec<u8>,
) -> Result<(), WriteError>
    requires { first % 32 < 31 }
    ensures ok { OnOk result (out.new.items ≡ out.old.items
        ++ element_bytes first (assertion_content description.now assertion.now)) }
    ensures fits { OnOk result (length (assertion_content description.now assertion.now) < 2 ^ 32) }
    ensures too_long { IsErrOf result WriteError.TooLong
        → 2 ^ 32 ≤ length (assertion_content description.now assertion.now) }
    ensures err { OnErr result (out.new.items ≡ out.old.items) }
{
    let mut content = Vec::new(alloc);
    write(0x04, description.as_bytes(), &mut content)?;
    write(0x04, assertion, &mut content)?;
    write(first, &content, out)
}

/// Writes parts of the first octet 81, one after the other.
fn put_any_parts(parts: &[Vec<u8>], out: &mut Vec<u8>) -> Result<(), WriteError>
    ensures ok { OnOk result (out.new.items ≡ out.old.items ++ row_bytes (element_bytes 129) (map
        (λ v. v.items) parts.now)) }
    ensures too_long { IsErrOf result WriteError.TooLong
        → 2 ^ 32 ≤ length (row_bytes (element_bytes 129) (map (λ v. v.items) parts.now)) }
{
    for part in parts {
        write(0x81, part, out)?;
    }
    Ok(())
}

/// Writes the parts of a substrings item.
fn put_parts(filter: &SubstringFilter, out: &mut Vec<u8>) -> Result<(), WriteError>
    ensures ok { OnOk result (out.new.items ≡ out.old.items ++ parts_content (substrings_view filter.now)) }
    ensures too_long { IsErrOf result WriteError.TooLong
        → 2 ^ 32 ≤ length (parts_content (substrings_view filter.now)) }
{
    put_optional_octets(0x80, &filter.initial, out)?;
    put_any_parts(&filter.any, out)?;
    put_optional_octets(0x82, &filter.last, out)
}

/// Writes a substrings item.
pub fn put_substrings(
    alloc: Global,
    filter: &SubstringFilter,
    out: &mut Vec<u8>,
) -> Result<(), WriteError>
    ensures ok { OnOk result (out.new.items ≡ out.old.items
        ++ element_bytes 164 (substrings_content (substrings_view filter.now))) }
    ensures fits { OnOk result (length (substrings_content (substrings_view filter.now)) < 2 ^ 32) }
    ensures too_long { IsErrOf result WriteError.TooLong
        → 2 ^ 32 ≤ length (substrings_content (substrings_view filter.now)) }
    ensures err { OnErr result (out.new.items ≡ out.old.items) }
{
    let mut parts = Vec::new(alloc);
    put_parts(filter, &mut parts)?;
    let mut content = Vec::new(alloc);
    write(0x04, filter.description.as_bytes(), &mut content)?;
    write(0x30, &parts, &mut content)?;
    write(0xa4, &content, out)
}

/// Writes the fields of an extensible item; a flag that is false is left out.
fn put_fields(assertion: &MatchingRuleAssertion, out: &mut Vec<u8>) -> Result<(), WriteError>
    ensures ok { OnOk result (out.new.items ≡ out.old.items
        ++ extensible_content (extensible_view assertion.now)) }
    ensures too_long { IsErrOf result WriteError.TooLong
        → 2 ^ 32 ≤ length (extensible_content (extensible_view assertion.now)) }
{
    put_optional_text(0x81, &assertion.matching_rule, out)?;
    put_optional_text(0x82, &assertion.description, out)?;
    write(0x83, &assertion.match_value, out)?;
    if assertion.dn_attributes {
        write(0x84, &[0xff], out)?;
    }
    Ok(())
}

/// Writes an extensible item.
pub fn put_extensible(
    alloc: Global,
    assertion: &MatchingRuleAssertion,
    out: &mut Vec<u8>,
) -> Result<(), WriteError>
    ensures ok { OnOk result (out.new.items ≡ out.old.items
        ++ element_bytes 169 (extensible_content (extensible_view assertion.now))) }
    ensures fits { OnOk result (length (extensible_content (extensible_view assertion.now)) < 2 ^ 32) }
    ensures too_long { IsErrOf result WriteError.TooLong
        → 2 ^ 32 ≤ length (extensible_content (extensible_view assertion.now)) }
    ensures err { OnErr result (out.new.items ≡ out.old.items) }
{
    let mut content = Vec::new(alloc);
    put_fields(assertion, &mut content)?;
    write(0xa9, &content, out)
}
