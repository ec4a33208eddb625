//! Plain texts: those that are made of octets alone.

ghost use Rattle.std.specs.Prelude.{◌≡◌, ℕ, List, ◌∷◌, ◌++◌, MatchResult};
ghost use Rattle.std.specs.Ordering.{nat_cmp};
ghost use Rattle.std.specs.Cmp.Lexicographic.{slice_cmp};
ghost use Rattle.ldap_syntax.specs.Forms.{plain_text, between, is_met};
ghost use Rattle.ldap_syntax.specs.Styles.{written, text_by};

use crate::key::Key;
use ldap_words::Family;
use std::cmp::Ordering;

/// How octets are written in a text.
#[derive(Clone, Copy)]
pub enum Style {
    /// As they are, a SPACE twice.
    Cased,
    /// In small letters, a SPACE twice.
    Lowered,
    /// Without SPACEs.
    Digits,
    /// In small letters, without SPACEs and hyphens.
    Called,
}

/// What is left of a key behind an octet, or how a text that begins with the octet stands to the key.
fn behind_one(one: u8, key: &[u8]) -> Result<&[u8], Ordering>
    ensures { MatchResult result (λ more. key.now ≡ one ∷ more.now) (λ order. (xs : List ℕ) →
        order ≡ slice_cmp nat_cmp (one ∷ xs) key.now) }
{
    match key.split_first() {
        Some((first, more)) => {
            if one < *first {
                return Err(Ordering::Less);
            }
            if *first < one {
                return Err(Ordering::Greater);
            }
            Ok(more)
        }
        None => Err(Ordering::Greater),
    }
}

/// The same behind two SPACEs.
fn behind_spaces(key: &[u8]) -> Result<&[u8], Ordering>
    ensures { MatchResult result (λ more. key.now ≡ 32 ∷ 32 ∷ more.now) (λ order. (xs : List ℕ) →
        order ≡ slice_cmp nat_cmp (32 ∷ 32 ∷ xs) key.now) }
{
    match behind_one(32, key) {
        Ok(more) => behind_one(32, more),
        Err(order) => Err(order),
    }
}

/// The same behind what is written of an octet.
fn behind_written(style: Style, octet: u8, key: &[u8]) -> Result<&[u8], Ordering>
    ensures { MatchResult result (λ more. key.now ≡ written style octet ++ more.now) (λ order. (xs : List ℕ) →
        order ≡ slice_cmp nat_cmp (written style octet ++ xs) key.now) }
{
    match style {
        Style::Cased if octet == 32 => behind_spaces(key),
        Style::Cased => behind_one(octet, key),
        Style::Lowered if octet == 32 => behind_spaces(key),
        Style::Lowered => behind_one(octet.to_ascii_lowercase(), key),
        Style::Digits if octet == 32 => Ok(key),
        Style::Digits => behind_one(octet, key),
        Style::Called if octet == 32 || octet == 45 => Ok(key),
        Style::Called => behind_one(octet.to_ascii_lowercase(), key),
    }
}

/// The order of a text of octets with others behind it, and a key.
fn order_of(style: Style, octets: &[u8], behind: &[u8], key: &[u8]) -> Ordering
    ensures { result ≡ slice_cmp nat_cmp (text_by style octets.now ++ behind.now) key.now }
{
    let mut rest = key;
    for octet in octets {
        match behind_written(style, *octet, rest) {
            Ok(more) => rest = more,
            Err(order) => return order,
        }
    }
    behind.cmp(rest)
}

/// The order of a text of octets between SPACEs and a key.
fn order_between(style: Style, octets: &[u8], key: &[u8]) -> Ordering
    ensures { result ≡ slice_cmp nat_cmp (between (text_by style octets.now)) key.now }
{
    match behind_one(32, key) {
        Ok(more) => order_of(style, octets, b" ", more),
        Err(order) => order,
    }
}

/// The order of a family's plain text of octets and a key.
fn plain_order(family: Family, octets: &[u8], key: &[u8]) -> Ordering
    ensures { result ≡ slice_cmp nat_cmp (plain_text family octets.now) key.now }
{
    match family {
        Family::Ignore | Family::Ia5 => order_between(Style::Lowered, octets, key),
        Family::Exact | Family::Ia5Exact => order_between(Style::Cased, octets, key),
        Family::Telephone => order_of(Style::Called, octets, b"", key),
        Family::Numeric => order_of(Style::Digits, octets, b"", key),
        Family::Identifier
        | Family::Name
        | Family::Boolean
        | Family::Integer
        | Family::Octet
        | Family::Time => octets.cmp(key),
    }
}

/// Whether a family's plain text of octets meets the asserted key. Takes no memory.
#[tactic(auto, using(crate::proofs::Orders::before_is, crate::proofs::Orders::same_is))]
pub fn plain_meets(family: Family, octets: &[u8], less: bool, asserted: &Key) -> bool
    ensures { result ≡ is_met less asserted.now (plain_text family octets.now) }
{
    let order = plain_order(family, octets, asserted.as_octets());
    if less { order.is_lt() } else { order.is_eq() }
}
