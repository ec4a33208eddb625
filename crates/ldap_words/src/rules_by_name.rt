//! Matching rules and syntaxes by name and object identifier.

ghost use Rattle.std.specs.Prelude.{◌≡◌};
ghost use Rattle.std.specs.Str.{bytes_eq};
ghost use Rattle.ldap_words.specs.RulesByName as rules;

use crate::rule::{Family, Syntax};

/// Whether the word is the rule's name in any case, or its object identifier.
fn is_rule(name: &[u8], oid: &[u8], word: &[u8]) -> bool
    ensures { result ≡ rules.is_rule name.now oid.now word.now }
{
    name.eq_ignore_ascii_case(word) || oid == word
}

/// Whether the word is the object identifier.
fn is_oid(oid: &[u8], word: &[u8]) -> bool
    ensures { result ≡ bytes_eq oid.now word.now }
{
    oid == word
}

/// As `equality_family`, of the rules in the second half.
fn other_equality(word: &[u8]) -> Option<Family>
    ensures { result ≡ rules.other_equality word.now }
{
    if is_rule(b"integerMatch", b"2.5.13.14", word) {
        Some(Family::Integer)
    } else if is_rule(b"octetStringMatch", b"2.5.13.17", word) {
        Some(Family::Octet)
    } else if is_rule(b"telephoneNumberMatch", b"2.5.13.20", word) {
        Some(Family::Telephone)
    } else if is_rule(b"generalizedTimeMatch", b"2.5.13.27", word) {
        Some(Family::Time)
    } else if is_rule(b"caseIgnoreIA5Match", b"1.3.6.1.4.1.1466.109.114.2", word) {
        Some(Family::Ia5)
    } else if is_rule(b"caseExactIA5Match", b"1.3.6.1.4.1.1466.109.114.1", word) {
        Some(Family::Ia5Exact)
    } else {
        None
    }
}

/// The family of an equality rule.
pub fn equality_family(word: &[u8]) -> Option<Family>
    ensures { result ≡ rules.equality_family word.now }
{
    if is_rule(b"objectIdentifierMatch", b"2.5.13.0", word) {
        Some(Family::Identifier)
    } else if is_rule(b"distinguishedNameMatch", b"2.5.13.1", word) {
        Some(Family::Name)
    } else if is_rule(b"caseIgnoreMatch", b"2.5.13.2", word) {
        Some(Family::Ignore)
    } else if is_rule(b"caseExactMatch", b"2.5.13.5", word) {
        Some(Family::Exact)
    } else if is_rule(b"numericStringMatch", b"2.5.13.8", word) {
        Some(Family::Numeric)
    } else if is_rule(b"booleanMatch", b"2.5.13.13", word) {
        Some(Family::Boolean)
    } else {
        other_equality(word)
    }
}

/// The family of an ordering rule.
pub fn ordering_family(word: &[u8]) -> Option<Family>
    ensures { result ≡ rules.ordering_family word.now }
{
    if is_rule(b"caseIgnoreOrderingMatch", b"2.5.13.3", word) {
        Some(Family::Ignore)
    } else if is_rule(b"caseExactOrderingMatch", b"2.5.13.6", word) {
        Some(Family::Exact)
    } else if is_rule(b"numericStringOrderingMatch", b"2.5.13.9", word) {
        Some(Family::Numeric)
    } else if is_rule(b"integerOrderingMatch", b"2.5.13.15", word) {
        Some(Family::Integer)
    } else if is_rule(b"generalizedTimeOrderingMatch", b"2.5.13.28", word) {
        Some(Family::Time)
    } else {
        None
    }
}

/// The family of a substrings rule.
pub fn substrings_family(word: &[u8]) -> Option<Family>
    ensures { result ≡ rules.substrings_family word.now }
{
    if is_rule(b"caseIgnoreSubstringsMatch", b"2.5.13.4", word) {
        Some(Family::Ignore)
    } else if is_rule(b"caseExactSubstringsMatch", b"2.5.13.7", word) {
        Some(Family::Exact)
    } else if is_rule(b"numericStringSubstringsMatch", b"2.5.13.10", word) {
        Some(Family::Numeric)
    } else if is_rule(b"telephoneNumberSubstringsMatch", b"2.5.13.21", word) {
        Some(Family::Telephone)
    } else if is_rule(
        b"caseIgnoreIA5SubstringsMatch",
        b"1.3.6.1.4.1.1466.109.114.3",
        word,
    ) {
        Some(Family::Ia5)
    } else {
        None
    }
}

/// As `syntax_of`, of the syntaxes in the second half.
fn other_syntax(word: &[u8]) -> Option<Syntax>
    ensures { result ≡ rules.other_syntax word.now }
{
    if is_oid(b"1.3.6.1.4.1.1466.115.121.1.27", word) {
        Some(Syntax::Integer)
    } else if is_oid(b"1.3.6.1.4.1.1466.115.121.1.36", word) {
        Some(Syntax::NumericString)
    } else if is_oid(b"1.3.6.1.4.1.1466.115.121.1.38", word) {
        Some(Syntax::ObjectIdentifier)
    } else if is_oid(b"1.3.6.1.4.1.1466.115.121.1.40", word) {
        Some(Syntax::OctetString)
    } else if is_oid(b"1.3.6.1.4.1.1466.115.121.1.50", word) {
        Some(Syntax::TelephoneNumber)
    } else {
        None
    }
}

/// The syntax of an object identifier.
pub fn syntax_of(word: &[u8]) -> Option<Syntax>
    ensures { result ≡ rules.syntax_of word.now }
{
    if is_oid(b"1.3.6.1.4.1.1466.115.121.1.7", word) {
        Some(Syntax::Boolean)
    } else if is_oid(b"1.3.6.1.4.1.1466.115.121.1.12", word) {
        Some(Syntax::DistinguishedName)
    } else if is_oid(b"1.3.6.1.4.1.1466.115.121.1.15", word) {
        Some(Syntax::DirectoryString)
    } else if is_oid(b"1.3.6.1.4.1.1466.115.121.1.24", word) {
        Some(Syntax::GeneralizedTime)
    } else if is_oid(b"1.3.6.1.4.1.1466.115.121.1.26", word) {
        Some(Syntax::Ia5String)
    } else {
        other_syntax(word)
    }
}

/// A number of its own for each family.
pub fn family_number(family: Family) -> usize
    ensures { result ≡ rules.family_number family }
{
    match family {
        Family::Identifier => 0,
        Family::Name => 1,
        Family::Ignore => 2,
        Family::Exact => 3,
        Family::Numeric => 4,
        Family::Boolean => 5,
        Family::Integer => 6,
        Family::Octet => 7,
        Family::Telephone => 8,
        Family::Time => 9,
        Family::Ia5 => 10,
        Family::Ia5Exact => 11,
    }
}
