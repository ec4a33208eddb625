//! Makes items into tests, and tests an attribute's keys.

ghost use Rattle.std.specs.Prelude.{◌≡◌, ℕ, List, IfOk, map};
ghost use Rattle.std.specs.Option.{option_map};
ghost use Rattle.std.specs.List.{list_any};
ghost use Rattle.ldap_dn.specs.ldap_schema.Schema.{SchemaModel};
ghost use Rattle.ldap_match.specs.Item as item;
ghost use Rattle.ldap_match.specs.Item.{Item, equal, at_least, at_most, substrings, is_answerable};
ghost use Rattle.ldap_match.specs.Parts.{has_parts};
ghost use Rattle.ldap_match.specs.Truth.{truth_of};
ghost use Rattle.ldap_match.specs.Keyed.{key_at, test_for, test_value, AreKeysOf, is_same_key, is_key_at_least, is_key_at_most};

use crate::keying::key;
use crate::parts::{PartKeys, part_keys};
use crate::ruling::{ordering_rule, substrings_rule};
use crate::truth::Truth;
use ldap_dn::{
    Key, Rule, Schema, TypeId, ValueError, equality_rule, keys_compare, name_keys_are_of_names,
    parts_compare,
};
use std::alloc::{AllocError, Global};

/// What an item asks of the attributes of one type, with the assertion's key under the rule of that type.
pub enum Test {
    /// That there is one.
    Present,
    /// What nobody can tell: the type lacks the rule, or the assertion is not in its syntax.
    Unknown,
    /// That a value's key is this one.
    Equal(Key),
    /// That a value's key does not stand before this one.
    AtLeast(Key),
    /// That a value's key stands before this one or is this one.
    AtMost(Key),
    /// That a value's key has these parts.
    Parts(PartKeys),
}

// Not derived: see "What the gate takes" in docs/ARCHITECTURE.md.
impl Drop for Test {
    fn drop(self) {
        match self {
            Test::Present => {}
            Test::Unknown => {}
            Test::Equal(_) => {}
            Test::AtLeast(_) => {}
            Test::AtMost(_) => {}
            Test::Parts(_) => {}
        }
    }
}

/// The value's key under the rule; none, where it means nothing under it.
pub fn key_or_none(
    alloc: Global,
    schema: &Schema,
    rule: Rule,
    value: &[u8],
) -> Result<Option<Key>, AllocError>
    ensures { IfOk result (λ k. k ≡ key_at schema.now rule value.now) }
{
    match key(alloc, schema, rule, value) {
        Ok(key) => Ok(Some(key)),
        Err(ValueError::NotInSyntax) => {
            keys_compare();
            Ok(None)
        }
        Err(ValueError::NoMemory) => Err(AllocError),
    }
}

/// The test that an equality item makes of the attributes of the type.
pub fn equality_test(
    alloc: Global,
    schema: &Schema,
    type_id: TypeId,
    assertion: &[u8],
) -> Result<Test, AllocError>
    ensures { IfOk result (λ t. t ≡ test_for schema.now (equal assertion.now) type_id) }
{
    let Some(rule) = equality_rule(schema, type_id) else {
        return Ok(Test::Unknown);
    };
    match key_or_none(alloc, schema, rule, assertion)? {
        Some(key) => Ok(Test::Equal(key)),
        None => Ok(Test::Unknown),
    }
}

/// The test that a greaterOrEqual item makes of the attributes of the type.
pub fn at_least_test(
    alloc: Global,
    schema: &Schema,
    type_id: TypeId,
    assertion: &[u8],
) -> Result<Test, AllocError>
    ensures { IfOk result (λ t. t ≡ test_for schema.now (at_least assertion.now) type_id) }
{
    let Some(rule) = ordering_rule(schema, type_id) else {
        return Ok(Test::Unknown);
    };
    match key_or_none(alloc, schema, rule, assertion)? {
        Some(key) => Ok(Test::AtLeast(key)),
        None => Ok(Test::Unknown),
    }
}

/// The test that a lessOrEqual item makes of the attributes of the type.
pub fn at_most_test(
    alloc: Global,
    schema: &Schema,
    type_id: TypeId,
    assertion: &[u8],
) -> Result<Test, AllocError>
    ensures { IfOk result (λ t. t ≡ test_for schema.now (at_most assertion.now) type_id) }
{
    let Some(rule) = ordering_rule(schema, type_id) else {
        return Ok(Test::Unknown);
    };
    match key_or_none(alloc, schema, rule, assertion)? {
        Some(key) => Ok(Test::AtMost(key)),
        None => Ok(Test::Unknown),
    }
}

/// The test that a substrings item makes of the attributes of the type.
pub fn substrings_test(
    alloc: Global,
    schema: &Schema,
    type_id: TypeId,
    initial: &Option<Vec<u8>>,
    any: &[Vec<u8>],
    last: &Option<Vec<u8>>,
) -> Result<Test, AllocError>
    ensures { IfOk result (λ t. t ≡ test_for schema.now (substrings (record {
      initial = option_map (λ v. v.items) initial.now;
      any = map (λ v. v.items) any.now;
      last = option_map (λ v. v.items) last.now;
    })) type_id) }
{
    let Some(rule) = substrings_rule(schema, type_id) else {
        return Ok(Test::Unknown);
    };
    match part_keys(alloc, rule, initial, any, last) {
        Ok(keys) => Ok(Test::Parts(keys)),
        Err(ValueError::NotInSyntax) => Ok(Test::Unknown),
        Err(ValueError::NoMemory) => Err(AllocError),
    }
}

/// Whether a substrings item on the type can be answered: the type has a SUBSTR rule, and each part is a part of a
/// value of its syntax.
pub fn has_parts_of(
    alloc: Global,
    schema: &Schema,
    type_id: TypeId,
    initial: &Option<Vec<u8>>,
    any: &[Vec<u8>],
    last: &Option<Vec<u8>>,
) -> Result<bool, AllocError>
    ensures { IfOk result (λ b. b ≡ is_answerable schema.now (substrings (record {
      initial = option_map (λ v. v.items) initial.now;
      any = map (λ v. v.items) any.now;
      last = option_map (λ v. v.items) last.now;
    })) type_id) }
{
    let Some(rule) = substrings_rule(schema, type_id) else {
        return Ok(false);
    };
    match part_keys(alloc, rule, initial, any, last) {
        Ok(_) => Ok(true),
        Err(ValueError::NotInSyntax) => Ok(false),
        Err(ValueError::NoMemory) => Err(AllocError),
    }
}

/// The value of an item on one attribute (RFC 4511 4.5.1.7), from the test made of the item and the keys of the
/// attribute's values.
pub fn item_on_attribute(test: &Test, keys: &[Key]) -> Truth
    ensures tested { result ≡ test_value test.now keys.now }

    // With the test of an item, and the keys of values of the same type, it is the item on the attribute.
    ensures value { (s : SchemaModel) (asked : Item) (t : ℕ) (values : List (List ℕ)) → test.now ≡ test_for s asked t
        → AreKeysOf s t values keys.now → result ≡ item.item_on_attribute s asked t values }
{
    tests_are_items();
    tested(test, keys)
}

/// A test on keys.
fn tested(test: &Test, keys: &[Key]) -> Truth
    ensures { result ≡ test_value test.now keys.now }
{
    match test {
        Test::Present => Truth::True,
        Test::Unknown => Truth::Undefined,
        Test::Equal(key) => truth(has_key(keys, key)),
        Test::AtLeast(key) => truth(has_key_at_least(keys, key)),
        Test::AtMost(key) => truth(has_key_at_most(keys, key)),
        Test::Parts(parts) => truth(has_key_with(keys, parts)),
    }
}

/// The test of an item, on the keys of an attribute's values, is the item on the attribute.
pub fn tests_are_items()
    ensures { (s : SchemaModel) (asked : Item) (t : ℕ) (values keys : List (List ℕ)) → AreKeysOf s t values keys
        → test_value (test_for s asked t) keys ≡ item.item_on_attribute s asked t values }
{
    keys_compare();
    parts_compare();
    name_keys_are_of_names();
}

/// The truth of what is decided.
fn truth(decided: bool) -> Truth
    ensures { result ≡ truth_of decided }
{
    if decided { Truth::True } else { Truth::False }
}

/// Whether a key is among the keys.
fn has_key(keys: &[Key], key: &Key) -> bool
    ensures { result ≡ list_any (is_same_key key.now) keys.now }
{
    keys.iter().any(|other| other.is_same(key))
}

/// Whether one of the keys does not stand before the key.
fn has_key_at_least(keys: &[Key], key: &Key) -> bool
    ensures { result ≡ list_any (is_key_at_least key.now) keys.now }
{
    keys.iter().any(|other| !other.is_before(key))
}

/// Whether one of the keys stands before the key or is the key.
fn has_key_at_most(keys: &[Key], key: &Key) -> bool
    ensures { result ≡ list_any (is_key_at_most key.now) keys.now }
{
    keys.iter()
        .any(|other| other.is_before(key) || other.is_same(key))
}

/// Whether one of the keys has the parts.
fn has_key_with(keys: &[Key], parts: &PartKeys) -> bool
    ensures { result ≡ list_any (has_parts parts.now) keys.now }
{
    keys.iter().any(|other| parts.stand_in(other))
}
