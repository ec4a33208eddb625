//! Words that schemas, filters, names and LDIF are spelled with (RFC 4512 1.4), and the syntaxes and matching rules
//! that exist (RFC 4517).
//!
//! Words are descriptions (`describing`), numbers (`numbering`), object identifiers (`identifying`), hexadecimal digits
//! (`hexadecimal`), and octets in order without regard to case (`folding`). Syntaxes and matching rules (`rule`) are
//! found by name and object identifier (`rules_by_name`); `offering` has what each family offers.
//!
//! Proved: words are told by their grammar (`is_descr`, `is_numericoid`, `is_description`, `number_of_digits`,
//! `hex_octet`), rules, syntaxes and families by their table (`equality_family`, `syntax_of`, `has_ordering`,
//! `is_used_on`).
#![tactic(auto)]

mod describing;
mod folding;
mod hexadecimal;
mod identifying;
mod numbering;
mod offering;
mod rule;
mod rules_by_name;

pub use describing::{is_alpha, is_descr, is_description, is_key_octet, is_oid, is_same_word};
pub use folding::{compare_folded, lower_case};
pub use hexadecimal::{hex_digit, hex_octet};
pub use identifying::is_numericoid;
pub use numbering::{is_digit, is_integer, is_number, number_of_digits};
pub use offering::{has_ordering, has_substrings, is_used_on};
pub use rule::{Family, Rule, Syntax};
pub use rules_by_name::{
    equality_family, family_number, ordering_family, substrings_family, syntax_of,
};
