// Makes items that name a rule into tests, and runs these on the keys and texts of values.

ghost use Rattle.std.specs.Prelude.{◌≡◌, ℕ, List, IfOk, map};
ghost use Rattle.std.specs.List.{list_any};
ghost use Rattle.std.specs.Option.{option_copied};
ghost use Rattle.dir_entry.specs.ldap_schema.Schema.{SchemaModel};
ghost use Rattle.dir_entry.specs.ldap_syntax.Forms.{form_of, is_met, is_met_by, is_text_met};
ghost use Rattle.dir_entry.specs.ldap_dn.Pairs.{PairModel};
ghost use Rattle.dir_entry.specs.ldap_match.Truth.{truth_of};
ghost use Rattle.dir_entry.specs.ldap_match.Item.{is_valid_by};
ghost use Rattle.dir_entry.specs.ldap_match.Keyed.{AreKeysOf};
ghost use Rattle.ldap_eval.specs.Matching.{rule_for as rule_for_type, match_on_values as item_on_values, match_on_pair as item_on_pair};
ghost use Rattle.ldap_eval.specs.Matched.{match_for, match_of_key, match_value, match_pair};
ghost use Rattle.ldap_eval.specs.declared.naming_rules.How.{How};

use crate::naming_rules::{How, asks_less, goes_by_key, rule_for};
use dir_entry::{
    Attribute, Form, Key, Octets, Rule, Schema, Truth, TypeAndValue, TypeId, is_meaningful,
    key_or_none, keys_compare, meets, name_keys_are_of_names, parts_compare, texts_tell,
};
use std::alloc::{AllocError, Global};

/// What an item asks of a key: to be this one, or to stand before it.
#[derive(Drop)]
pub struct Asserted {
    pub less: bool,
    pub key: Key,
}

/// What an item that names a rule asks of the values of one type, with the assertion's key under that rule.
pub enum MatchTest {
    /// What nobody can tell: the type doesn't support the rule, or the assertion is not in its syntax.
    Unknown,
    /// That a value's key, as it is kept, meets the asserted one.
    Kept(Asserted),
    /// That a value's text under the rule meets the asserted key.
    Text(Rule, Asserted),
}

// Not derived: see "What the gate takes" in docs/ARCHITECTURE.md.
impl Drop for MatchTest {
    fn drop(self) {
        match self {
            MatchTest::Unknown => {}
            MatchTest::Kept(_) => {}
            MatchTest::Text(_, _) => {}
        }
    }
}

/// The test of an assertion that has a key or none.
fn match_by(schema: &Schema, how: How, type_id: TypeId, rule: Rule, key: Option<Key>) -> MatchTest
    ensures { result ≡ match_of_key schema.now how type_id rule key }
{
    let Some(key) = key else {
        return MatchTest::Unknown;
    };
    let asserted = Asserted {
        less: asks_less(how),
        key,
    };
    if goes_by_key(schema, how, type_id) {
        MatchTest::Kept(asserted)
    } else {
        MatchTest::Text(rule, asserted)
    }
}

/// The test that an item makes of the values of the type.
pub fn match_test(
    alloc: Global,
    schema: &Schema,
    how: How,
    type_id: TypeId,
    assertion: &[u8],
) -> Result<MatchTest, AllocError>
    ensures { IfOk result (λ t. t ≡ match_for schema.now how assertion.now type_id) }
{
    let Some(rule) = rule_for(schema, how, type_id) else {
        return Ok(MatchTest::Unknown);
    };
    let key = key_or_none(alloc, schema, rule, assertion)?;
    Ok(match_by(schema, how, type_id, rule, key))
}

/// Whether the type supports the item's rule, and the assertion means something under it. Its only error is want of
/// memory.
pub fn is_matchable(
    alloc: Global,
    schema: &Schema,
    how: How,
    type_id: TypeId,
    assertion: &[u8],
) -> Result<bool, AllocError>
    ensures { IfOk result (λ b. b ≡ is_valid_by schema.now (rule_for_type schema.now how type_id) assertion.now) }
{
    match rule_for(schema, how, type_id) {
        Some(rule) => is_meaningful(alloc, schema, rule, assertion),
        None => Ok(false),
    }
}

/// The truth of what is decided.
pub fn truth(decided: bool) -> Truth
    ensures { result ≡ truth_of decided }
{
    if decided { Truth::True } else { Truth::False }
}

/// Whether one of the keys meets the asserted one.
fn has_kept(keys: &[Key], asserted: &Asserted) -> bool
    ensures { result ≡ list_any (is_met asserted.now.less asserted.now.key) keys.now }
{
    keys.iter()
        .any(|key| meets(key, asserted.less, &asserted.key))
}

/// Whether one of the values has a text that meets the asserted key.
fn has_text(values: &[Octets], forms: &[Form], rule: Rule, asserted: &Asserted) -> bool
    requires forms { forms.now ≡ map form_of values.now }
    ensures { result ≡ list_any (is_text_met rule asserted.now.less asserted.now.key) values.now }
{
    let mut rest = forms;
    for value in values {
        match rest.split_first() {
            Some((form, behind)) => {
                if form.meets(rule, value.as_slice(), asserted.less, &asserted.key) {
                    return true;
                }
                rest = behind;
            }
            None => return false,
        }
    }
    false
}

/// A test on values, with their texts and their keys.
fn match_on_values(test: &MatchTest, values: &[Octets], forms: &[Form], keys: &[Key]) -> Truth
    requires forms { forms.now ≡ map form_of values.now }
    ensures { result ≡ match_value test.now values.now keys.now }
{
    match test {
        MatchTest::Unknown => Truth::Undefined,
        MatchTest::Kept(asserted) => truth(has_kept(keys, asserted)),
        MatchTest::Text(rule, asserted) => truth(has_text(values, forms, *rule, asserted)),
    }
}

/// A test on the values of an attribute, part by part.
pub fn match_on_attribute(test: &MatchTest, attribute: &Attribute) -> Truth
    ensures { result ≡ match_value test.now attribute.now.values attribute.now.keys }
{
    let Some((first, others)) = attribute.parts().split_first() else {
        return match_on_values(test, &[], &[], &[]);
    };
    let mut rest = others;
    let mut truth = match_on_values(test, first.values, first.forms, first.keys);
    while let Some((part, others)) = rest.split_first() {
        if truth == Truth::True {
            return truth;
        }
        truth = truth.or(match_on_values(test, part.values, part.forms, part.keys));
        rest = others;
    }
    truth
}

/// Whether there is a key that meets the asserted one.
fn is_kept_met(key: Option<&Key>, asserted: &Asserted) -> bool
    ensures { result ≡ is_met_by asserted.now.less asserted.now.key (option_copied key.entry) }
{
    match key {
        Some(key) => meets(key, asserted.less, &asserted.key),
        None => false,
    }
}

/// A test on a pair of a name: a type with a value, and the value's key.
pub fn match_on_pair(test: &MatchTest, written: &TypeAndValue, key: Option<&Key>) -> Truth
    ensures { result ≡ match_pair test.now (record {
      kind = written.now.kind;
      value = written.now.value;
      key =
          option_copied key.entry;
    }) }
{
    match test {
        MatchTest::Unknown => Truth::Undefined,
        MatchTest::Kept(asserted) => truth(is_kept_met(key, asserted)),
        MatchTest::Text(rule, asserted) => truth(
            written.form().meets(
                *rule,
                written.value().as_bytes(),
                asserted.less,
                &asserted.key,
            ),
        ),
    }
}

/// The test of an item that names a rule, on the keys and texts of an attribute's values, or on a pair of a name, is
/// the item there.
pub fn matches_are_items()
    ensures values { (s : SchemaModel) (h : How) (a : List ℕ) (t : ℕ) (values keys : List (List ℕ)) →
        AreKeysOf s t values keys
        → match_value (match_for s h a t) values keys ≡ item_on_values s h a t values }
    ensures pairs { (s : SchemaModel) (h : How) (a : List ℕ) (p : PairModel) → match_pair (match_for s h a p.kind) p ≡
        item_on_pair s h a p }
{
    keys_compare();
    parts_compare();
    name_keys_are_of_names();
    texts_tell();
}
