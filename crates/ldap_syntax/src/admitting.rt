//! The values of each syntax.

ghost use Rattle.std.specs.Prelude.{◌≡◌, cond, Some, None, option_map};
ghost use Rattle.std.specs.Str.{is_utf8};
ghost use Rattle.ldap_syntax.specs.Syntaxes.{is_in_syntax as is_in_the_syntax, is_part_of as is_part_of_syntax, has_characters_of as has_its_characters, is_all_ascii, are_digits_or_spaces as are_all_digits_or_spaces, is_printable as is_printable_octet, are_printable as are_all_printable, is_boolean as is_boolean_text};

use crate::timing::is_time;
use ldap_words::{Syntax, is_digit, is_integer, is_numericoid};
use std::str;

/// Whether the value is in the syntax (RFC 4517 3.3). Without a schema no value is a distinguished name, and only a
/// dotted object identifier is one: the crate above judges names.
pub fn is_in_syntax(syntax: Syntax, value: &[u8]) -> bool
    ensures { result ≡ is_in_the_syntax syntax value.now }
{
    match syntax {
        Syntax::Boolean => is_boolean(value),
        Syntax::DistinguishedName => false,
        Syntax::DirectoryString => !value.is_empty() && text_of(value).is_some(),
        Syntax::GeneralizedTime => is_time(value),
        Syntax::Ia5String => is_ascii(value),
        Syntax::Integer => is_integer(value),
        Syntax::NumericString => !value.is_empty() && are_digits_or_spaces(value),
        Syntax::ObjectIdentifier => is_numericoid(value),
        Syntax::OctetString => true,
        Syntax::TelephoneNumber => !value.is_empty() && are_printable(value),
    }
}

/// Whether the octets may be a part of a value of the syntax in a substring assertion: not empty, and made of the
/// syntax's characters. A syntax whose values are no text has no parts.
pub fn is_part_of(syntax: Syntax, part: &[u8]) -> bool
    ensures { result ≡ is_part_of_syntax syntax part.now }
{
    !part.is_empty() && has_characters_of(syntax, part)
}

fn has_characters_of(syntax: Syntax, octets: &[u8]) -> bool
    ensures { result ≡ has_its_characters syntax octets.now }
{
    match syntax {
        Syntax::DirectoryString => text_of(octets).is_some(),
        Syntax::Ia5String => is_ascii(octets),
        Syntax::NumericString => are_digits_or_spaces(octets),
        Syntax::TelephoneNumber => are_printable(octets),
        Syntax::Boolean
        | Syntax::DistinguishedName
        | Syntax::GeneralizedTime
        | Syntax::Integer
        | Syntax::ObjectIdentifier
        | Syntax::OctetString => false,
    }
}

/// The octets as text; none, where they are no UTF-8.
pub fn text_of(octets: &[u8]) -> Option<&str>
    ensures { option_map (λ s. s.now) result ≡ cond (is_utf8 octets.now) (Some octets.now) None }
{
    match str::from_utf8(octets) {
        Ok(text) => Some(text),
        Err(_) => None,
    }
}

/// Whether the octets are `TRUE` or `FALSE`.
pub fn is_boolean(value: &[u8]) -> bool
    ensures { result ≡ is_boolean_text value.now }
{
    value == b"TRUE".as_slice() || value == b"FALSE".as_slice()
}

fn is_ascii(octets: &[u8]) -> bool
    ensures { result ≡ is_all_ascii octets.now }
{
    octets.iter().all(|octet| *octet < 128)
}

fn are_digits_or_spaces(octets: &[u8]) -> bool
    ensures { result ≡ are_all_digits_or_spaces octets.now }
{
    octets
        .iter()
        .all(|octet| is_digit(*octet) || *octet == b' ')
}

fn are_printable(octets: &[u8]) -> bool
    ensures { result ≡ are_all_printable octets.now }
{
    octets.iter().all(|octet| is_printable(*octet))
}

/// A letter, a digit, a space, or one of `'()+,-./:?=` (RFC 4517 3.2).
fn is_printable(octet: u8) -> bool
    ensures { result ≡ is_printable_octet octet }
{
    (b'A' <= octet && octet <= b'Z')
        || (b'a' <= octet && octet <= b'z')
        || is_digit(octet)
        || octet == b' '
        || octet == b'\''
        || octet == b'('
        || octet == b')'
        || (b'+' <= octet && octet <= b'/')
        || octet == b':'
        || octet == b'?'
        || octet == b'='
}
