//! Gives the three-valued value of a filter on an entry, once the filter is bound to a schema.
//!
//! Binds a filter to a schema, and gives its value on an entry and its name (`name_pairs`) without memory. An item
//! becomes an `or` of leaves, one for each type under its type, each with its own rule and key. An extensible item that
//! no such leaf says becomes a `Match`. `naming_rules` knows the rule that an extensible item names and whether a type
//! supports it; `matching` compares values and the pairs of a name by it.
//!
//! Proved: a filter's value is that of RFC 4511 4.5.1.7, for filters of any kind; a bound filter is made part by part
//! (`bind`, `value`). An extensible item is its definition on an attribute and on a pair of a name
//! (`matching::matches_are_items`).
#![tactic(auto)]

mod asking;
mod binding;
mod bound;
mod evaluating;
mod matching;
mod name_pairs;
mod naming_rules;

pub use binding::bind;
pub use bound::{BoundFilter, Leaf, Match};
pub use dir_entry::{Key, PartKeys, Test, Truth, TypeId, tests_are_items};
pub use evaluating::value;
pub use ldap_filter::Filter;
pub use name_pairs::NamePairs;
