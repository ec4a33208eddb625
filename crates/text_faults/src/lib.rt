//! Explains why a filter, a name or a line of a lab script is refused, and what a result code says.
//!
//! What is refused is decided by others; here it is put into words: `filters`, `names`, `scripts`, `codes`. `showing`
//! prints a word of a text within a sentence, and `fronts` finds the word that a line begins with. `schema_faults` and
//! `ldif_faults` use them too.
//!
//! Proved: each sentence is its definition (`code_word`, `filter_fault`, `name_fault`, `script_fault`), and so is a
//! word as a sentence shows it (`shown`), and a text as a line of a log does (`one_line`). Where the cause isn't found, the sentence says less.
#![tactic(auto)]

mod codes;
mod filters;
mod fronts;
mod names;
mod scripts;
mod showing;

pub use codes::code_word;
pub use filters::filter_fault;
pub use fronts::{colon, first_word, front_of, place_of};
pub use names::name_fault;
pub use scripts::script_fault;
pub use showing::{about_octet, about_word, about_words, octet_shown, one_line, said, shown};
