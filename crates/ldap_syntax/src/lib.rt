//! Says which values a syntax has, and makes the keys by which a matching rule compares them.
//!
//! `admitting` and `timing` say which values a syntax has. `mapping` maps, normalizes and folds characters (by
//! `unicode_normalization` and `caseless`); `spacing` writes the words and the spaces round them. `keying` makes a
//! rule's key of a value and of a part, `number_keys` that of an integer; `searching` looks for parts in a key (by
//! `memchr`). The key of a text takes two allocations for ASCII, else three, or five where case is folded; that of
//! octets takes one. For a rule of text that a value's type lacks, `form` has what is compared: made of the octets
//! during the comparison (`plain`), or kept where letters beyond ASCII need it (`texts`).
//!
//! Proved, for twelve families on ten syntaxes: a key exists exactly where the value means something. Keys are equal,
//! and in order, exactly as meanings are, in any script (`key_of`, `keys_compare`, `values_mean`). A key has the keys
//! of an assertion's parts exactly where the value has the parts (`part_key_of`, `Key::has_parts`, `parts_compare`). A
//! form tells, without memory, what keys under rules of text tell (`Form::meets`, `texts_tell`).
#![tactic(auto)]

mod admitting;
mod fault;
mod form;
mod key;
mod keying;
mod mapping;
mod number_keys;
mod plain;
mod preparing;
mod searching;
mod spacing;
mod texts;
mod timing;

pub use admitting::{is_in_syntax, is_part_of};
pub use fault::ValueError;
pub use form::{Form, texts_tell};
pub use key::Key;
pub use keying::{has_meaning, key_of, keys_compare, part_key_of, parts_compare, values_mean};
pub use ldap_words::{Family, Rule, Syntax, equality_family, is_used_on, ordering_family};
pub use preparing::{Part, prepare};
pub use texts::meets;
