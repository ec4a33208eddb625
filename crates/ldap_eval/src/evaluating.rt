// Evaluates a bound filter on an entry. It takes no memory.

ghost use Rattle.std.specs.Prelude.{◌≡◌, ◌<◌, length, map, Some, slice_get};
ghost use Rattle.dir_entry.specs.ldap_schema.Schema.{SchemaModel};
ghost use Rattle.dir_entry.specs.ldap_match.Truth.{conjunction, disjunction};
ghost use Rattle.dir_entry.specs.ldap_match.Keyed.{test_value};
ghost use Rattle.ldap_filter.specs.Tree.{Tree};
ghost use Rattle.dir_entry.specs.Entry.{KeyedAttribute, attributes_of, IsKeyedBy};
ghost use Rattle.ldap_eval.specs.Value.{filter_value};
ghost use Rattle.ldap_eval.specs.Bound.{bound_value, leaf_value as value_of_leaf, leaf_on as leaf_on_attribute, match_on as match_on_one, match_on_name_pair, match_of_entry, IsBoundTo};
ghost use Rattle.dir_entry.specs.ldap_dn.Names.{RdnModel};
ghost use Rattle.dir_entry.specs.ldap_dn.Pairs.{pair_in, pairs_in, pairs_of};

use crate::bound::{BoundFilter, Leaf, Match};
use crate::matching::{match_on_attribute, match_on_pair, truth};
use crate::name_pairs::NamePairs;
use dir_entry::{Attribute, Entry, Rdn, Test, Truth, TypeAndValue, item_on_attribute};

/// The value of a bound filter on an entry, by its name and its attributes (RFC 4511 4.5.1.7). Takes no memory.
pub fn value<N: NamePairs>(bound: &BoundFilter, entry: &Entry, name: &N) -> Truth
    // What a bound filter says of an entry's name and keys.
    ensures keys { result ≡ bound_value (N.name name.now) entry.now bound.now }

    // On an entry that is keyed by the schema that the filter is bound under, it is the filter's value.
    ensures value { (s : SchemaModel) (t : Tree) → IsBoundTo s t bound.now → IsKeyedBy s entry.now
        → result ≡ filter_value s t (N.name name.now) (attributes_of entry.now) }
{
    bound_truth(bound, entry, name)
}

#[cycle(value)]
fn bound_truth<N: NamePairs>(bound: &BoundFilter, entry: &Entry, name: &N) -> Truth
    ensures { result ≡ bound_value (N.name name.now) entry.now bound.now }
{
    match bound {
        BoundFilter::And(parts) => all(parts, entry, name),
        BoundFilter::Or(parts) => any(parts, entry, name),
        BoundFilter::Not(part) => bound_truth(part, entry, name).not(),
        BoundFilter::Undefined => Truth::Undefined,
        BoundFilter::Leaf(leaf) => leaf_truth(leaf, entry),
        BoundFilter::Match(matching) => match_truth(matching, entry, name),
    }
}

#[cycle(value)]
fn all<N: NamePairs>(parts: &[BoundFilter], entry: &Entry, name: &N) -> Truth
    ensures { result ≡ conjunction (map (bound_value (N.name name.now) entry.now) parts.now) }
{
    let mut truth = Truth::True;
    for part in parts {
        truth = truth.and(bound_truth(part, entry, name));
        if truth == Truth::False {
            return truth;
        }
    }
    truth
}

#[cycle(value)]
fn any<N: NamePairs>(parts: &[BoundFilter], entry: &Entry, name: &N) -> Truth
    ensures { result ≡ disjunction (map (bound_value (N.name name.now) entry.now) parts.now) }
{
    let mut truth = Truth::False;
    for part in parts {
        truth = truth.or(bound_truth(part, entry, name));
        if truth == Truth::True {
            return truth;
        }
    }
    truth
}

/// A match on an entry: on the pairs of its name, or on its attributes.
fn match_truth<N: NamePairs>(matching: &Match, entry: &Entry, name: &N) -> Truth
    ensures { result ≡ match_of_entry (N.name name.now) entry.now matching.now }
{
    if matching.in_name {
        any_in_name(matching, name)
    } else {
        any_match(matching, entry.attributes())
    }
}

/// The `or` of the match over the attributes.
fn any_match(matching: &Match, attributes: &[Attribute]) -> Truth
    ensures { result ≡ disjunction (map (match_on_one matching.now) attributes.now) }
{
    let mut truth = Truth::False;
    for attribute in attributes {
        truth = truth.or(match_on(matching, attribute));
        if truth == Truth::True {
            return truth;
        }
    }
    truth
}

/// The match on one attribute: its test, where the attribute is of its type.
fn match_on(matching: &Match, attribute: &Attribute) -> Truth
    ensures { result ≡ match_on_one matching.now attribute.now }
{
    if attribute.type_id() != matching.type_id {
        return Truth::False;
    }
    match_on_attribute(&matching.test, attribute)
}

/// The `or` of the match over the pairs of the name, relative name by relative name, from the last one up.
fn any_in_name<N: NamePairs>(matching: &Match, name: &N) -> Truth
    ensures { result ≡ disjunction (map (match_on_name_pair matching.now) (pairs_of (N.name name.now))) }
{
    let mut truth = Truth::False;
    let mut number = name.number();
    while let Some((above, rdn)) = name.superior(number) {
        truth = truth.or(any_in_rdn(matching, rdn));
        number = above;
    }
    truth.or(any_by_place(matching, name, number))
}

/// The `or` of the match over the pairs of the name of a number, place by place.
fn any_by_place<N: NamePairs>(matching: &Match, name: &N, number: u64) -> Truth
    ensures { result ≡ disjunction (map (match_on_name_pair matching.now) (pairs_of (N.named name.now number))) }
{
    let mut truth = Truth::False;
    for at in 0..name.count(number) {
        truth = truth.or(in_name_at(matching, name, number, at));
    }
    truth
}

/// The `or` of the match over the pairs of the relative name at a place.
fn in_name_at<N: NamePairs>(matching: &Match, name: &N, number: u64, at: usize) -> Truth
    ensures { (r : RdnModel) → slice_get (N.named name.now number) at ≡ Some r
        → result ≡ disjunction (map (match_on_name_pair matching.now) (pairs_in r)) }
{
    match name.pairs(number, at) {
        Some(rdn) => any_in_rdn(matching, rdn),
        None => Truth::False,
    }
}

/// The `or` of the match over the pairs of a relative name.
fn any_in_rdn(matching: &Match, rdn: &Rdn) -> Truth
    ensures { result ≡ disjunction (map (match_on_name_pair matching.now) (pairs_in rdn.now)) }
{
    any_written(matching, rdn, rdn.types_and_values())
}

/// The `or` of the match over some of the pairs of a relative name.
fn any_written(matching: &Match, rdn: &Rdn, written: &[TypeAndValue]) -> Truth
    ensures { result ≡ disjunction (map (λ v. match_on_name_pair matching.now (pair_in rdn.now.keys v)) written.now) }
{
    let mut truth = Truth::False;
    for one in written {
        truth = truth.or(match_on_written(matching, rdn, one));
    }
    truth
}

/// The match on one pair: its test, where the pair is of its type.
fn match_on_written(matching: &Match, rdn: &Rdn, written: &TypeAndValue) -> Truth
    ensures { result ≡ match_on_name_pair matching.now (pair_in rdn.now.keys written.now) }
{
    if written.type_id() != matching.type_id {
        return Truth::False;
    }
    match_on_pair(&matching.test, written, rdn.key_for(written.type_id()))
}

/// The `or` of the leaf over the attributes.
fn leaf_truth(leaf: &Leaf, entry: &Entry) -> Truth
    ensures { result ≡ value_of_leaf entry.now leaf.now }
{
    let mut truth = Truth::False;
    for place in 0..entry.attributes().len() {
        truth = truth.or(leaf_at(leaf, entry, place));
        if truth == Truth::True {
            return truth;
        }
    }
    truth
}

/// The leaf on the attribute at a place: its test, where the attribute is of its type. The others aren't read.
fn leaf_at(leaf: &Leaf, entry: &Entry, place: usize) -> Truth
    requires { place < length entry.now }
    ensures { (a : KeyedAttribute) → slice_get entry.now place ≡ Some a → result ≡ leaf_on_attribute leaf.now a }
{
    if entry.type_at(place) == leaf.type_id {
        tested(&leaf.test, &entry.attributes()[place])
    } else {
        Truth::False
    }
}

/// A test on the keys of an attribute. Whether it has a key, the attribute finds without a look at each.
fn tested(test: &Test, attribute: &Attribute) -> Truth
    ensures { result ≡ test_value test.now attribute.now.keys }
{
    match test {
        Test::Equal(key) => truth(attribute.has(true, key.as_octets())),
        _ => tested_by_parts(test, attribute),
    }
}

/// A test on the keys of an attribute, part by part.
fn tested_by_parts(test: &Test, attribute: &Attribute) -> Truth
    ensures { result ≡ test_value test.now attribute.now.keys }
{
    let Some((first, others)) = attribute.parts().split_first() else {
        return item_on_attribute(test, &[]);
    };
    let mut rest = others;
    let mut truth = item_on_attribute(test, first.keys);
    while let Some((part, others)) = rest.split_first() {
        if truth == Truth::True {
            return truth;
        }
        truth = truth.or(item_on_attribute(test, part.keys));
        rest = others;
    }
    truth
}
