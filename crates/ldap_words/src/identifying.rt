//! Says whether octets are a dotted object identifier.

ghost use Rattle.std.specs.Prelude.{◌≡◌};
ghost use Rattle.ldap_words.specs.Identifiers.{is_numericoid as is_dotted, has_dot as has_dot_octet, are_numbers as are_number_parts};

use crate::numbering::is_number;

/// Whether the octets are a dotted object identifier: numbers without leading zeros, and at least one dot
/// (RFC 4512 1.4, numericoid).
pub fn is_numericoid(value: &[u8]) -> bool
    ensures { result ≡ is_dotted value.now }
{
    has_dot(value) && are_numbers(value)
}

fn has_dot(value: &[u8]) -> bool
    ensures { result ≡ has_dot_octet value.now }
{
    value.iter().any(|octet| *octet == b'.')
}

/// Whether the parts between dots are numbers.
fn are_numbers(value: &[u8]) -> bool
    ensures { result ≡ are_number_parts value.now }
{
    value
        .split(|octet| *octet == b'.')
        .all(|part| is_number(part))
}
