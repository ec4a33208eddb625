//! Recognizes attribute descriptions (RFC 4512 2.5), and words in any case.

ghost use Rattle.std.specs.Prelude.{◌≡◌};
ghost use Rattle.ldif.specs.Descriptions as descriptions;

use ldap_words::{is_description, is_same_word};

/// Whether the octets are `dn`, in any case.
pub fn is_dn(octets: &[u8]) -> bool
    ensures { result ≡ descriptions.is_dn octets.now }
{
    is_same_word(octets, b"dn")
}

/// Whether the octets are a word that begins a change, in any case.
pub fn begins_change(octets: &[u8]) -> bool
    ensures { result ≡ descriptions.begins_change octets.now }
{
    is_same_word(octets, b"changetype") || is_same_word(octets, b"control")
}

/// Whether the octets are the type of a value of a record (RFC 2849, attrval-spec): an attribute description (RFC 4512
/// 2.5) other than `dn`, `changetype` and `control`, in any case.
pub fn is_type(octets: &[u8]) -> bool
    ensures { result ≡ descriptions.is_type octets.now }
{
    is_description(octets) && !is_dn(octets) && !begins_change(octets)
}
