//! Rules at work.

ghost use Rattle.std.specs.Prelude.{◌≡◌, ◌↔◌, None, Some, IfOk, IsErrOf, is_some};
ghost use Rattle.ldap_syntax.specs.Meaning.{spelled, meaning, part_meaning, ValuesOfTheSyntaxMean};
ghost use Rattle.ldap_words.specs.Octets.{utf8_of};
ghost use Rattle.ldap_syntax.specs.Keys.{key_at, key_in, part_key_at, KeysArePresentAsMeanings, KeysAreEqualAsMeanings, KeysAreOrderedAsMeanings, PartsStandAsMeanings};

use crate::admitting::{is_boolean, is_in_syntax, is_part_of, text_of};
use crate::fault::ValueError;
use crate::key::Key;
use crate::number_keys::number_key;
use crate::preparing::{Part, prepare};
use crate::timing::is_time;
use ldap_words::{Family, Rule, has_substrings, is_integer, is_numericoid};
use std::alloc::Global;

/// The value's key under the rule: keys of one rule compare as the meanings of the values do (`keys_compare`). Time
/// grows with the value's length alone. The key of a text takes what `prepare` takes; that of an integer two
/// allocations, and a third where it is negative, each with its growths; any other key one.
pub fn key_of(alloc: Global, rule: Rule, value: &[u8]) -> Result<Key, ValueError>
    ensures key { IfOk result (λ k. key_at rule value.now ≡ Some k) }

    // E11 comes exactly where the value means nothing under the rule.
    ensures not_in_syntax { IsErrOf result ValueError.NotInSyntax ↔ (meaning rule value.now ≡ None) }
{
    if !has_meaning(rule, value) {
        return Err(ValueError::NotInSyntax);
    }
    match rule.family {
        Family::Integer => Ok(Key::new(number_key(alloc, value)?)),
        Family::Ignore
        | Family::Exact
        | Family::Numeric
        | Family::Telephone
        | Family::Ia5
        | Family::Ia5Exact => text_key(alloc, rule.family, value, Part::Whole),
        Family::Identifier | Family::Name | Family::Boolean | Family::Octet | Family::Time => {
            Ok(Key::from_slice(alloc, value)?)
        }
    }
}

/// The key of a part of a substring assertion under the rule: a key has the keys of parts exactly where the value has
/// the parts (`parts_compare`). Time and allocations are those of `prepare`.
pub fn part_key_of(alloc: Global, rule: Rule, part: Part, octets: &[u8]) -> Result<Key, ValueError>
    ensures key { IfOk result (λ k. part_key_at rule part octets.now ≡ Some k) }

    // E11 comes exactly where the octets are no part of a value, or the family has no substrings rule.
    ensures not_in_syntax { IsErrOf result ValueError.NotInSyntax
        ↔ (part_meaning rule part octets.now ≡ None) }
{
    if !has_substrings(rule.family) || !is_part_of(rule.syntax, octets) {
        return Err(ValueError::NotInSyntax);
    }
    text_key(alloc, rule.family, octets, part)
}

/// The key of the octets' prepared text.
fn text_key(alloc: Global, family: Family, octets: &[u8], part: Part) -> Result<Key, ValueError>
    ensures key { IfOk result (λ k. utf8_of (spelled family part octets.now) ≡ Some k) }
    ensures not_in_syntax { IsErrOf result ValueError.NotInSyntax
        ↔ (spelled family part octets.now ≡ None) }
{
    match text_of(octets) {
        Some(text) => Ok(Key::new(prepare(alloc, text, family, part)?.into_bytes())),
        None => Err(ValueError::NotInSyntax),
    }
}

/// Whether the value means something under the rule: exactly then `key_of` does not answer E11. Takes no memory.
pub fn has_meaning(rule: Rule, value: &[u8]) -> bool
    ensures { result ≡ is_some (meaning rule value.now) }
{
    if !is_in_syntax(rule.syntax, value) {
        return false;
    }
    match rule.family {
        Family::Identifier => is_numericoid(value),
        Family::Name => false,
        Family::Boolean => is_boolean(value),
        Family::Integer => is_integer(value),
        Family::Octet => true,
        Family::Time => is_time(value),
        Family::Ignore
        | Family::Exact
        | Family::Numeric
        | Family::Telephone
        | Family::Ia5
        | Family::Ia5Exact => text_of(value).is_some(),
    }
}

/// Under a rule that is used on its syntax (`is_used_on`), a value means something exactly where it is in the syntax:
/// so `key_of` answers E11 exactly where it is not.
pub fn values_mean()
    ensures { ValuesOfTheSyntaxMean }
{}

/// Keys compare as meanings do, and a value has a key exactly where it has a meaning.
pub fn keys_compare()
    ensures present { KeysArePresentAsMeanings }
    ensures equal { KeysAreEqualAsMeanings }
    ensures ordered { KeysAreOrderedAsMeanings }
{}

/// A key has the keys of parts exactly where the value's meaning has the parts.
pub fn parts_compare()
    ensures { PartsStandAsMeanings }
{}
