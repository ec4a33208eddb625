//! Cuts texts at an octet.

ghost use Rattle.std.specs.Prelude.{◌≡◌, ◌∷◌, ◌≤◌, length, List, ℕ, true, MatchOption};
ghost use Rattle.std.specs.List.{list_all, prefix_len};
ghost use Rattle.filter_text.specs.private.Cuts as cuts;

use ldap_words::is_key_octet;

/// Whether a description or a rule may have the octet.
fn is_name_octet(octet: u8) -> bool
    ensures { result ≡ cuts.is_name_octet octet }
{
    is_key_octet(octet) || octet == b'.' || octet == b';'
}

/// How many octets that a description may have stand at the front.
fn name_len(text: &[u8]) -> usize
    ensures count { result ≡ prefix_len cuts.is_name_octet text.now }
    ensures bound { result ≤ length text.now }
{
    text.iter()
        .take_while(|octet| is_name_octet(**octet))
        .count()
}

/// How many octets stand before the first of this octet.
fn other_len(end: u8, text: &[u8]) -> usize
    ensures count { result ≡ prefix_len (cuts.is_other end) text.now }
    ensures bound { result ≤ length text.now }
{
    text.iter().take_while(|octet| !(**octet == end)).count()
}

/// The octets at the front that a description may have.
pub fn name(text: &[u8]) -> &[u8]
    ensures value { result.now ≡ cuts.front cuts.is_name_octet text.now }
    ensures octets { list_all cuts.is_name_octet result.now ≡ true }
{
    &text[..name_len(text)]
}

/// What follows the octets that a description may have.
pub fn behind_name(text: &[u8]) -> &[u8]
    ensures { result.now ≡ cuts.behind cuts.is_name_octet text.now }
{
    &text[name_len(text)..]
}

/// The octets before the first of this octet.
pub fn before(end: u8, text: &[u8]) -> &[u8]
    ensures { result.now ≡ cuts.front (cuts.is_other end) text.now }
{
    &text[..other_len(end, text)]
}

/// The first of this octet, and what follows.
pub fn from(end: u8, text: &[u8]) -> &[u8]
    ensures { result.now ≡ cuts.behind (cuts.is_other end) text.now }
{
    &text[other_len(end, text)..]
}

/// All but the first octet.
pub fn tail(text: &[u8]) -> &[u8]
    ensures { result.now ≡ cuts.tail text.now }
{
    match text {
        [] => text,
        [_, rest @ ..] => rest,
    }
}

/// Whether the text begins with the octet.
pub fn begins_with(octet: u8, text: &[u8]) -> bool
    ensures { result ≡ cuts.begins_with octet text.now }
{
    match text {
        [] => false,
        [first, ..] => *first == octet,
    }
}

/// What stands behind an octet at the front.
pub fn behind(octet: u8, text: &[u8]) -> Option<&[u8]>
    ensures { MatchOption result ((rest : List ℕ) → text.now ≡ octet ∷ rest → ⊥) (λ rest. text.now ≡ octet ∷ rest.now) }
{
    match text {
        [] => None,
        [first, rest @ ..] => { if *first == octet { Some(rest) } else { None } }
    }
}

/// Whether there are no octets.
pub fn is_nil(text: &[u8]) -> bool
    ensures { result ≡ cuts.is_empty text.now }
{
    match text {
        [] => true,
        [_, ..] => false,
    }
}
