// Binds a filter to a schema: makes the keys of its assertions once.

ghost use Rattle.std.specs.Prelude.{◌≡◌, ◌<◌, ◌++◌, ℕ, true, false, IfOk, OnOk, List, length, None, Some, string_bytes};
ghost use Rattle.ldap_filter.specs.View.{view};
ghost use Rattle.ldap_filter.specs.private.View.{views};
ghost use Rattle.dir_entry.specs.ldap_match.Item.{is_answerable as is_answerable_item};
ghost use Rattle.dir_entry.specs.ldap_match.Keyed.{test_for};
ghost use Rattle.ldap_eval.specs.private.Asked.{item_of};
ghost use Rattle.dir_entry.specs.ldap_schema.Schema.{find};
ghost use Rattle.ldap_eval.specs.Bound.{IsBoundTo, leaves_for};
ghost use Rattle.ldap_eval.specs.private.Bound.{AreBoundTo, IsBoundItem};
ghost use Rattle.ldap_eval.specs.Made.{IsMadeOf, AreMadeOf, IsItemFor, IsItemOn, IsExtensible, IsMatchOn, is_equality_item, type_with_equality};
ghost use Rattle.ldap_filter.specs.ItemView.{extensible_view};
ghost use Rattle.ldap_eval.specs.Value.{how_of as how_of_name, type_of as type_of_name, is_matched as can_be_matched, is_looked_at as looks_at, item_on, match_with};
ghost use Rattle.ldap_eval.specs.Bound.{bound_value, matches_for, matches_with};
ghost use Rattle.ldap_eval.specs.private.Bound.{IsBoundMatch};
ghost use Rattle.std.specs.Option.{option_map};
ghost use Rattle.dir_entry.specs.ldap_dn.Names.{RdnModel};
ghost use Rattle.dir_entry.specs.Entry.{KeyedAttribute, IsKeyedBy, attributes_of};

use crate::asking::{Asked, KnownItem};
use crate::bound::{BoundFilter, Leaf, Match};
use crate::matching::{is_matchable, match_test, matches_are_items};
use crate::naming_rules::{How, NamedRule, named_rule, rule_for};
use dir_entry::{
    Schema, Test, TypeId, at_least_test, at_most_test, equality_rule, equality_test, has_parts_of,
    is_comparable, is_of_syntax, is_ordered, substrings_test, tests_are_items,
};
use ldap_filter::{Filter, MatchingRuleAssertion};
use std::alloc::{AllocError, Global};

/// The filter bound under the schema: `value` of it, on an entry that is keyed by the schema, is the filter's value.
#[cycle(bind)]
pub fn bind(alloc: Global, schema: &Schema, filter: &Filter) -> Result<BoundFilter, AllocError>
    ensures value { IfOk result (λ b. IsBoundTo schema.now (view filter.now) b) }

    // It is made of the filter part by part: no part is added, left out or made another.
    ensures parts { IfOk result (λ b. IsMadeOf schema.now (view filter.now) b) }
{
    match filter {
        Filter::And(filters) => Ok(BoundFilter::And(bind_all(alloc, schema, filters)?)),
        Filter::Or(filters) => Ok(BoundFilter::Or(bind_all(alloc, schema, filters)?)),
        Filter::Not(inner) => Ok(BoundFilter::Not(Box::new(alloc, bind(alloc, schema, inner)?)?)),
        Filter::Equal {
            description,
            assertion,
        }
        | Filter::Approx {
            description,
            assertion,
        } => bind_item(
            alloc,
            schema,
            description.as_str(),
            Asked::Equality(assertion.as_slice()),
        ),
        Filter::Substrings(parts) => bind_item(
            alloc,
            schema,
            parts.description.as_str(),
            Asked::Substrings(parts),
        ),
        Filter::AtLeast {
            description,
            assertion,
        } => bind_item(
            alloc,
            schema,
            description.as_str(),
            Asked::AtLeast(assertion.as_slice()),
        ),
        Filter::AtMost {
            description,
            assertion,
        } => bind_item(
            alloc,
            schema,
            description.as_str(),
            Asked::AtMost(assertion.as_slice()),
        ),
        Filter::Present(description) => {
            bind_item(alloc, schema, description.as_str(), Asked::Presence)
        }
        Filter::Extensible(asked) => bind_extensible(alloc, schema, asked),
    }
}

#[cycle(bind)]
fn bind_all(
    alloc: Global,
    schema: &Schema,
    filters: &[Filter],
) -> Result<Vec<BoundFilter>, AllocError>
    ensures value { IfOk result (λ v. AreBoundTo schema.now (views filters.now) v.items) }
    ensures parts { IfOk result (λ v. AreMadeOf schema.now (views filters.now) v.items) }
{
    let mut parts = Vec::new(alloc);
    for filter in filters {
        parts.push(bind(alloc, schema, filter)?)?;
    }
    Ok(parts)
}

/// An item, as an `or` of leaves; Undefined, where the description is not recognised, or its type can't answer the
/// item.
fn bind_item(
    alloc: Global,
    schema: &Schema,
    description: &str,
    asked: Asked,
) -> Result<BoundFilter, AllocError>
    ensures value { IfOk result (λ b. IsBoundItem schema.now description.now (item_of asked.entry) b) }
    ensures parts { IfOk result (λ b. IsItemFor schema.now (item_of asked.entry) (find schema.now description.now) b) }
{
    let Some(type_id) = schema.find(description) else {
        return Ok(BoundFilter::Undefined);
    };
    bind_on_type(alloc, schema, asked, type_id)
}

/// An item on a type, as an `or` of leaves; Undefined, where the type can't answer it.
fn bind_on_type(
    alloc: Global,
    schema: &Schema,
    asked: Asked,
    type_id: TypeId,
) -> Result<BoundFilter, AllocError>
    ensures value { IfOk result (λ b. type_id < length schema.now.types →
        (n : List RdnModel) (e : List KeyedAttribute) → IsKeyedBy schema.now e
        → bound_value n e b ≡ item_on schema.now (item_of asked.entry) (Some type_id) (attributes_of e)) }
    ensures parts { IfOk result (λ b. IsItemOn schema.now (item_of asked.entry) type_id b) }
{
    tests_are_items();
    if !is_answerable(alloc, schema, asked, type_id)? {
        return Ok(BoundFilter::Undefined);
    }
    Ok(BoundFilter::Or(leaves(alloc, schema, asked, type_id)?))
}

/// Whether the type has the item's rule, and the assertion is in its syntax.
fn is_answerable(
    alloc: Global,
    schema: &Schema,
    asked: Asked,
    type_id: TypeId,
) -> Result<bool, AllocError>
    ensures { IfOk result (λ b. b ≡ is_answerable_item schema.now (item_of asked.entry) type_id) }
{
    match asked {
        Asked::Presence => Ok(true),
        Asked::Equality(assertion) => is_comparable(alloc, schema, type_id, assertion),
        Asked::AtLeast(assertion) | Asked::AtMost(assertion) => {
            Ok(is_ordered(schema, type_id, assertion))
        }
        Asked::Substrings(parts) => has_parts_of(
            alloc,
            schema,
            type_id,
            &parts.initial,
            &parts.any,
            &parts.last,
        ),
    }
}

/// A leaf for each type under the type, with the test that the item makes of it.
fn leaves(
    alloc: Global,
    schema: &Schema,
    asked: Asked,
    type_id: TypeId,
) -> Result<Vec<BoundFilter>, AllocError>
    ensures { IfOk result (λ v. v.items ≡ leaves_for schema.now (item_of asked.entry) type_id) }
{
    let mut leaves = Vec::new(alloc);
    for number in 0..schema.count_of_types() {
        let below = TypeId::new(number);
        if schema.is_under(below, type_id) {
            let test = item_test(alloc, schema, asked, below)?;
            leaves.push(BoundFilter::Leaf(Leaf {
                type_id: below,
                test,
            }))?;
        }
    }
    Ok(leaves)
}

/// The test that the item makes of the attributes of the type.
fn item_test(
    alloc: Global,
    schema: &Schema,
    asked: Asked,
    type_id: TypeId,
) -> Result<Test, AllocError>
    ensures { IfOk result (λ t. t ≡ test_for schema.now (item_of asked.entry) type_id) }
{
    match asked {
        Asked::Presence => Ok(Test::Present),
        Asked::Equality(assertion) => equality_test(alloc, schema, type_id, assertion),
        Asked::AtLeast(assertion) => at_least_test(alloc, schema, type_id, assertion),
        Asked::AtMost(assertion) => at_most_test(alloc, schema, type_id, assertion),
        Asked::Substrings(parts) => substrings_test(
            alloc,
            schema,
            type_id,
            &parts.initial,
            &parts.any,
            &parts.last,
        ),
    }
}

/// How an extensible item compares values; none, where it names what is no equality or ordering rule.
fn how_of(rule: &Option<String>) -> Option<How>
    ensures { result ≡ how_of_name (option_map string_bytes rule.now) }
{
    match rule {
        Some(word) => match named_rule(word.as_bytes()) {
            Some(named) => Some(How::Named(named)),
            None => None,
        },
        None => Some(How::Own),
    }
}

/// The type that an extensible item names, or that it names none; nothing, where the description is not recognised.
fn type_of(schema: &Schema, description: &Option<String>) -> Option<Option<TypeId>>
    ensures { result ≡ type_of_name schema.now (option_map string_bytes description.now) }
{
    match description {
        Some(text) => match schema.find(text) {
            Some(type_id) => Some(Some(type_id)),
            None => None,
        },
        None => Some(None),
    }
}

/// The type of an item that is an equality item: it names a type with an EQUALITY rule and no rule, and does not ask
/// for the name.
fn equality_type(
    schema: &Schema,
    asked: &MatchingRuleAssertion,
    how: How,
    asked_type: &Option<TypeId>,
) -> Option<TypeId>
    ensures some { (t : ℕ) → result ≡ Some t → (how ≡ How.Own) × (asked_type.now ≡ Some t)
        × (is_equality_item schema.now (extensible_view asked.now) (Some how) (Some asked_type.now) ≡ true) }
    ensures none { result ≡ None → is_equality_item schema.now (extensible_view asked.now) (Some how)
        (Some asked_type.now) ≡ false }
{
    match how {
        How::Own => own_type(schema, asked.dn_attributes, asked_type),
        How::Named(_) => None,
    }
}

/// The type that is asked for, if it has an EQUALITY rule, and the name is not asked for.
fn own_type(schema: &Schema, in_name: bool, asked_type: &Option<TypeId>) -> Option<TypeId>
    ensures { result ≡ type_with_equality schema.now in_name asked_type.now }
{
    match asked_type {
        Some(above) => {
            if !in_name && equality_rule(schema, *above).is_some() {
                Some(*above)
            } else {
                None
            }
        }
        None => None,
    }
}

/// Whether some type supports the rule, and has the assertion in its syntax.
fn is_matched_somewhere(
    alloc: Global,
    schema: &Schema,
    rule: NamedRule,
    assertion: &[u8],
) -> Result<bool, AllocError>
    ensures { IfOk result (λ b. b ≡ can_be_matched schema.now (How.Named rule) None assertion.now) }
{
    for number in 0..schema.count_of_types() {
        let type_id = TypeId::new(number);
        if is_matchable(alloc, schema, How::Named(rule), type_id, assertion)? {
            return Ok(true);
        }
    }
    Ok(false)
}

/// Whether the item can be matched.
fn is_matched(
    alloc: Global,
    schema: &Schema,
    how: How,
    asked_type: &Option<TypeId>,
    assertion: &[u8],
) -> Result<bool, AllocError>
    ensures { IfOk result (λ b. b ≡ can_be_matched schema.now how asked_type.now assertion.now) }
{
    match asked_type {
        Some(above) => is_matched_on(alloc, schema, how, *above, assertion),
        None => is_matched_alone(alloc, schema, how, assertion),
    }
}

/// Whether the item can be matched on a type.
fn is_matched_on(
    alloc: Global,
    schema: &Schema,
    how: How,
    type_id: TypeId,
    assertion: &[u8],
) -> Result<bool, AllocError>
    ensures { IfOk result (λ b. b ≡ can_be_matched schema.now how (Some type_id) assertion.now) }
{
    match how {
        How::Own => is_of_syntax(alloc, schema, type_id, assertion),
        How::Named(_) => is_matchable(alloc, schema, how, type_id, assertion),
    }
}

/// Whether the item can be matched without a type.
fn is_matched_alone(
    alloc: Global,
    schema: &Schema,
    how: How,
    assertion: &[u8],
) -> Result<bool, AllocError>
    ensures { IfOk result (λ b. b ≡ can_be_matched schema.now how None assertion.now) }
{
    match how {
        How::Own => Ok(false),
        How::Named(rule) => is_matched_somewhere(alloc, schema, rule, assertion),
    }
}

/// Whether the item looks at attributes of a type.
fn is_looked_at(schema: &Schema, how: How, asked_type: &Option<TypeId>, type_id: TypeId) -> bool
    ensures { result ≡ looks_at schema.now how asked_type.now type_id }
{
    match asked_type {
        Some(above) => schema.is_under(type_id, *above),
        None => rule_for(schema, how, type_id).is_some(),
    }
}

/// Puts a match for each type that the item looks at, on the attributes, or on the pairs of the name.
fn push_matches(
    alloc: Global,
    schema: &Schema,
    item: &KnownItem,
    in_name: bool,
    matches: &mut Vec<BoundFilter>,
) -> Result<(), AllocError>
    ensures { OnOk result (matches.new.items ≡ matches.old.items ++ matches_for schema.now item.now.how
        item.now.asked_type.now item.now.assertion.now in_name) }
{
    for number in 0..schema.count_of_types() {
        let type_id = TypeId::new(number);
        if is_looked_at(schema, item.how, item.asked_type, type_id) {
            let test = match_test(alloc, schema, item.how, type_id, item.assertion)?;
            matches.push(BoundFilter::Match(Match {
                type_id,
                test,
                in_name,
            }))?;
        }
    }
    Ok(())
}

/// A match for each type that the item looks at, on the attributes, and if the item asks for it on the pairs of the
/// name too.
fn matches(
    alloc: Global,
    schema: &Schema,
    item: &KnownItem,
    dn_attributes: bool,
) -> Result<Vec<BoundFilter>, AllocError>
    ensures { IfOk result (λ v. v.items ≡ matches_with schema.now item.now.how item.now.asked_type.now
        item.now.assertion.now dn_attributes) }
{
    let mut matches = Vec::new(alloc);
    push_matches(alloc, schema, item, false, &mut matches)?;
    if dn_attributes {
        push_matches(alloc, schema, item, true, &mut matches)?;
    }
    Ok(matches)
}

/// An extensible item that is no equality item, as an `or` of matches; Undefined, where it can't be matched.
fn bind_match(
    alloc: Global,
    schema: &Schema,
    item: &KnownItem,
    dn_attributes: bool,
) -> Result<BoundFilter, AllocError>
    ensures value { IfOk result (λ b. ((t : ℕ) → item.now.asked_type.now ≡ Some t → t < length schema.now.types)
        → (n : List RdnModel) (e : List KeyedAttribute) → IsKeyedBy schema.now e → bound_value n e b
        ≡ match_with schema.now item.now.how item.now.asked_type.now item.now.assertion.now dn_attributes n
        (attributes_of e)) }
    ensures parts { IfOk result (λ b. IsMatchOn schema.now item.now.how item.now.asked_type.now item.now.assertion.now
        dn_attributes b) }
{
    matches_are_items();
    if !is_matched(alloc, schema, item.how, item.asked_type, item.assertion)? {
        return Ok(BoundFilter::Undefined);
    }
    Ok(BoundFilter::Or(matches(alloc, schema, item, dn_attributes)?))
}

/// An extensible item whose rule and type are known.
fn bind_known(
    alloc: Global,
    schema: &Schema,
    asked: &MatchingRuleAssertion,
    how: How,
    asked_type: &Option<TypeId>,
) -> Result<BoundFilter, AllocError>
    ensures value { IfOk result (λ b. how_of_name (extensible_view asked.now).matching_rule ≡ Some how
        → type_of_name schema.now (extensible_view asked.now).description ≡ Some asked_type.now →
        IsBoundMatch schema.now (extensible_view asked.now) b) }
    ensures parts { IfOk result (λ b. IsExtensible schema.now (extensible_view asked.now) (Some how)
        (Some asked_type.now) b) }
{
    match equality_type(schema, asked, how, asked_type) {
        Some(above) => bind_on_type(
            alloc,
            schema,
            Asked::Equality(asked.match_value.as_slice()),
            above,
        ),
        None => {
            let item = KnownItem {
                how,
                asked_type,
                assertion: asked.match_value.as_slice(),
            };
            bind_match(alloc, schema, &item, asked.dn_attributes)
        }
    }
}

/// An extensible item whose rule is known; Undefined, where its description is not recognised.
fn bind_named(
    alloc: Global,
    schema: &Schema,
    asked: &MatchingRuleAssertion,
    how: How,
) -> Result<BoundFilter, AllocError>
    ensures value { IfOk result (λ b. how_of_name (extensible_view asked.now).matching_rule ≡ Some how
        → IsBoundMatch schema.now (extensible_view asked.now) b) }
    ensures parts { IfOk result (λ b. IsExtensible schema.now (extensible_view asked.now) (Some how)
        (type_of_name schema.now (extensible_view asked.now).description) b) }
{
    match type_of(schema, &asked.description) {
        Some(asked_type) => bind_known(alloc, schema, asked, how, &asked_type),
        None => Ok(BoundFilter::Undefined),
    }
}

/// An extensible item (RFC 4511 4.5.1.7.7): an `or` of matches, or the equality item that it is; Undefined, where it
/// can't be matched.
fn bind_extensible(
    alloc: Global,
    schema: &Schema,
    asked: &MatchingRuleAssertion,
) -> Result<BoundFilter, AllocError>
    ensures value { IfOk result (λ b. IsBoundMatch schema.now (extensible_view asked.now) b) }
    ensures parts { IfOk result (λ b. IsExtensible schema.now (extensible_view asked.now)
        (how_of_name (extensible_view asked.now).matching_rule)
        (type_of_name schema.now (extensible_view asked.now).description) b) }
{
    match how_of(&asked.matching_rule) {
        Some(how) => bind_named(alloc, schema, asked, how),
        None => Ok(BoundFilter::Undefined),
    }
}
