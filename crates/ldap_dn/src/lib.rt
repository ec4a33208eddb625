//! Reads names, compares them by their relative names, and prints them in one form; and makes the keys of values that
//! are no names. There an object identifier may be spelled by a name of the schema.
//!
//! Names are read (RFC 4514) in three steps. `scanning` undoes the escapes: an octet becomes a token, plain or escaped.
//! `cutting` cuts at plain separators and trims plain spaces; `reading` makes types, values and keys by the schema.
//! `value_keys` has the keys of all values but names. A relative name keeps its types with their keys in rising order
//! of type, by which `comparing` compares without memory; `digesting` makes one number of them, for maps. `printing`
//! prints types and values, which it keeps as written. `keying` writes a name's key as a value.
//!
//! Proved: a text is read as the name that it spells by the grammar, both ways, else E17 (`Name::read`,
//! `names_are_of_texts`), and printed in its one form (`print`). Names are compared as lists of sets of types with keys
//! (`same`, `is_below`, `parent`), and have one key exactly where they are one name (`Name::key`,
//! `name_keys_are_of_names`); a digest is that of types and keys (`Rdn::digest`). A value that is no name has a key
//! exactly where it means something (`key`, `is_meaningful`).
#![tactic(auto)]

mod comparing;
mod cutting;
mod digesting;
mod fault;
mod keying;
mod name;
mod ordering;
mod printing;
mod rdn;
mod reading;
mod scanning;
mod token;
mod value_keys;

pub use comparing::{are_same, is_front};
pub use cutting::pieces_are_parted;
pub use fault::NameError;
pub use keying::name_keys_are_of_names;
pub use ldap_schema::{
    ClassId, ClassKind, Family, Rule, Schema, Syntax, TypeId, equality_rule, has_ordering,
    has_substrings, number_of_digits,
};
pub use ldap_syntax::{
    Form, Key, Part, ValueError, equality_family, is_in_syntax, is_used_on, keys_compare, meets,
    ordering_family, part_key_of, parts_compare, texts_tell,
};
pub use name::{Name, names_are_of_texts};
pub use ordering::equal_is_same;
pub use printing::{print_before, print_behind, print_from_leaf};
pub use rdn::{Rdn, TypeAndKey, TypeAndValue, keys_are_rising};
pub use scanning::tokens_are_spelled;
pub use token::Token;
pub use value_keys::{is_identifier, is_meaningful, key};
