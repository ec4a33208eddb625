//! Says by a schema whether a value meets an assertion, as a three-valued truth, and makes the keys of values.
//!
//! The key of any value (`keying`), names too (`naming`), and the truth of an item on one attribute. `parts` and
//! `testing` make an assertion's keys once and test values by them; `Truth` is three-valued.
//!
//! Proved: truth has its laws (`laws`). Values that are names have equal keys exactly where they are one name (`key`,
//! `equal_values_are_one_name`). An item (presence, equality, `>=`, `<=`, substrings) is its definition
//! (`item_on_attribute`, `tests_are_items`).
#![tactic(auto)]

mod keying;
mod naming;
mod parts;
mod ruling;
mod testing;
mod truth;

pub use keying::{is_comparable, is_meaningful, is_of_syntax, is_ordered, key};
pub use ldap_dn::{
    ClassId, ClassKind, Family, Form, Key, Name, NameError, Rdn, Rule, Schema, Syntax,
    TypeAndValue, TypeId, ValueError, are_same, equality_family, equality_rule, has_ordering,
    is_front, is_used_on, keys_compare, meets, name_keys_are_of_names, number_of_digits,
    ordering_family, parts_compare, print_before, print_behind, print_from_leaf, texts_tell,
};
pub use naming::equal_values_are_one_name;
pub use parts::{PartKeys, part_keys};
pub use ruling::{ordering_rule, substrings_rule};
pub use testing::{
    Test, at_least_test, at_most_test, equality_test, has_parts_of, item_on_attribute, key_or_none,
    substrings_test, tests_are_items,
};
pub use truth::{Truth, laws};
