//! Reads the descriptions in a schema's text, and finds the first line that is none.
//!
//! `text` cuts a text into lines; each description is taken from octets to tokens to fields.
//!
//! Proved: descriptions are those of RFC 4512's grammar, both ways, but for what E12 refuses (`read_text`,
//! `descriptions_are_of_octets`, `tokens_are_spelled`).
#![tactic(auto)]

mod arguments;
mod description;
mod fields;
mod grammar;
mod keyword;
mod pieces;
mod scanning;
mod text;
mod token;
mod words;

pub use description::{Description, Field};
pub use grammar::{descriptions_are_of_octets, lines_are_of_text, tokens_are_spelled};
pub use keyword::{Keyword, Section};
pub use ldap_words::{
    Family, Rule, Syntax, compare_folded, equality_family, family_number, has_ordering,
    has_substrings, is_number, is_numericoid, is_oid, is_same_word, is_used_on, lower_case,
    ordering_family, substrings_family, syntax_of,
};
pub use text::{SchemaText, is_skipped, lines, read_text};
pub use words::ends_with;
