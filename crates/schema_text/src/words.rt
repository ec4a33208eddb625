//! Says what words of a description are.

ghost use Rattle.std.specs.Prelude.{◌≡◌, option_map, nat_eq, position};
ghost use Rattle.std.specs.List.{list_all};
ghost use Rattle.schema_text.specs.Words as words;

use ldap_words::{is_alpha, is_number, is_numericoid};

/// Whether the last octet is this one.
pub fn ends_with(octet: u8, word: &[u8]) -> bool
    ensures { result ≡ words.ends_with octet word.now }
{
    match word.last() {
        Some(last) => *last == octet,
        None => false,
    }
}

/// Whether the octets are a number and the brace behind it.
fn is_length(word: &[u8]) -> bool
    ensures { result ≡ words.is_length word.now }
{
    ends_with(b'}', word) && is_number(&word[..word.len() - 1])
}

/// Where the first opening brace stands.
fn brace(word: &[u8]) -> Option<usize>
    ensures { result ≡ position (nat_eq 123) word.now }
{
    word.iter().position(|octet| b'{' == *octet)
}

/// The object identifier of the word, which a number in braces may follow.
pub fn bounded_oid(word: &[u8]) -> Option<&[u8]>
    ensures { option_map (λ x. x.now) result ≡ words.bounded_oid word.now }
{
    let (oid, is_right) = match brace(word) {
        None => (word, true),
        Some(at) => (&word[..at], is_length(&word[at + 1..])),
    };
    if is_numericoid(oid) && is_right {
        Some(oid)
    } else {
        None
    }
}

/// Whether the name of an extension may have the octet.
fn is_extension_octet(octet: u8) -> bool
    ensures { result ≡ words.is_extension_octet octet }
{
    is_alpha(octet) || octet == b'-' || octet == b'_'
}

/// Whether the name of an extension may have each of the octets.
fn are_extension_octets(octets: &[u8]) -> bool
    ensures { result ≡ list_all words.is_extension_octet octets.now }
{
    octets.iter().all(|octet| is_extension_octet(*octet))
}

/// Whether the octets behind an X are an extension's.
fn is_extension_rest(word: &[u8]) -> bool
    ensures { result ≡ words.is_extension_rest word.now }
{
    match word {
        [] => false,
        [first, rest @ ..] => { *first == b'-' && 0 < rest.len() && are_extension_octets(rest) }
    }
}

/// Whether the word is an extension's keyword.
pub fn is_extension(word: &[u8]) -> bool
    ensures { result ≡ words.is_extension word.now }
{
    match word {
        [] => false,
        [first, rest @ ..] => (*first == b'X' || *first == b'x') && is_extension_rest(rest),
    }
}
