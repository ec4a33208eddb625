//! Says whether octets are a keystring, an option or the description of an attribute.

ghost use Rattle.std.specs.Prelude.{◌≡◌, nat_eq, position};
ghost use Rattle.std.specs.List.{list_all, slice_split};
ghost use Rattle.ldap_words.specs.Words as words;

use crate::identifying::is_numericoid;
use crate::numbering::is_digit;

/// Whether the two are the same, without regard to the case of ASCII letters.
pub fn is_same_word(a: &[u8], b: &[u8]) -> bool
    ensures { result ≡ words.is_same_word a.now b.now }
{
    a.eq_ignore_ascii_case(b)
}

/// Whether the octet is a letter (RFC 4512 1.4, ALPHA).
pub fn is_alpha(octet: u8) -> bool
    ensures { result ≡ words.is_alpha octet }
{
    (b'A' <= octet && octet <= b'Z') || (b'a' <= octet && octet <= b'z')
}

/// Whether a word may have the octet behind its first (RFC 4512 1.4, keychar).
pub fn is_key_octet(octet: u8) -> bool
    ensures { result ≡ words.is_key_octet octet }
{
    is_alpha(octet) || is_digit(octet) || octet == b'-'
}

/// Whether a word may have each of the octets behind its first.
fn are_key_octets(octets: &[u8]) -> bool
    ensures { result ≡ list_all words.is_key_octet octets.now }
{
    octets.iter().all(|octet| is_key_octet(*octet))
}

/// Whether the octets are a short name (RFC 4512 1.4, descr).
pub fn is_descr(octets: &[u8]) -> bool
    ensures { result ≡ words.is_descr octets.now }
{
    match octets {
        [] => false,
        [first, rest @ ..] => is_alpha(*first) && are_key_octets(rest),
    }
}

/// Whether the octets are a short name or an object identifier in dotted form (RFC 4512 1.4, oid).
pub fn is_oid(octets: &[u8]) -> bool
    ensures { result ≡ words.is_oid octets.now }
{
    is_descr(octets) || is_numericoid(octets)
}

/// Whether the octets are an option (RFC 4512 2.5).
fn is_option(octets: &[u8]) -> bool
    ensures { result ≡ words.is_option octets.now }
{
    match octets {
        [] => false,
        [first, rest @ ..] => is_key_octet(*first) && are_key_octets(rest),
    }
}

/// Whether the octets are options with `;` between them.
fn are_options(octets: &[u8]) -> bool
    ensures { result ≡ list_all words.is_option (slice_split (λ c. nat_eq c 59) octets.now) }
{
    octets
        .split(|octet| *octet == b';')
        .all(|option| is_option(option))
}

/// Where the first `;` stands.
fn semicolon(octets: &[u8]) -> Option<usize>
    ensures { result ≡ position (λ c. nat_eq c 59) octets.now }
{
    octets.iter().position(|octet| *octet == b';')
}

/// Whether the octets are an attribute description: a type's name and its options (RFC 4512 2.5).
pub fn is_description(octets: &[u8]) -> bool
    ensures { result ≡ words.is_description octets.now }
{
    match semicolon(octets) {
        None => is_oid(octets),
        Some(at) => is_oid(&octets[..at]) && are_options(&octets[at + 1..]),
    }
}
