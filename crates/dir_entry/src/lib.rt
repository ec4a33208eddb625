//! Entries: attributes with the keys of their values.
//!
//! Refuses what an attribute may not be (`entry`, `repeats`). How an attribute keeps its values is `value_parts`', which
//! callers read in parts.
//!
//! Proved: an attribute is added with its keys, or refused with the code of the first check that fails (21, 20), and
//! then nothing changes (`Entry::add`).
#![tactic(auto)]

mod attribute;
mod entry;
mod fault;
mod repeats;

pub use attribute::{Attribute, copy_values};
pub use entry::{Entry, has_type, valid_attribute};
pub use fault::EntryError;
pub use ldap_match::{
    ClassId, ClassKind, Family, Form, Key, Name, NameError, PartKeys, Rdn, Rule, Schema, Syntax,
    Test, Truth, TypeAndValue, TypeId, ValueError, are_same, at_least_test, at_most_test,
    equality_family, equality_rule, equality_test, has_ordering, has_parts_of, is_comparable,
    is_front, is_meaningful, is_of_syntax, is_ordered, is_used_on, item_on_attribute, key,
    key_or_none, keys_compare, meets, name_keys_are_of_names, number_of_digits, ordering_family,
    ordering_rule, parts_compare, print_before, print_behind, print_from_leaf, substrings_rule,
    substrings_test, tests_are_items, texts_tell,
};
pub use shared_map::{
    Cursor, NumberSet, NumberWalk, Octets, Shared, SharedMap, Sought, ValueChange, Walk,
};
pub use value_parts::{Part, Parts};
