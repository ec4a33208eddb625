//! Proves laws of schemas that were read: printed names are read again, names are one where they
//! mean one, and rules, loops and missing superclasses are those of the chains.
//!
//! Laws of every schema that is read; no code runs here. The crate builds on `dir_store` and `ldap_eval`, since some
//! laws speak of entries' names.
//!
//! Proved: a printed name is read as that name again (`read_names_are_read_again`, `printed_is_read`). Names are one
//! exactly where their values mean one thing (`names_are_one_by_meaning`). A type's rules are of one family
//! (`read_types_are_of_one_family`). Effects, loops and missing superclasses are what chains of SUPs say
//! (`effects_are_inherited`, `loops_lead_back`, `missing_are_above`); a refusal names the first faulty line
//! (`refused_at_first_faults`). Entries' names are of relative names that were read, and items on their pairs are told
//! by meanings (`entries_have_read_names`, `pairs_are_attributes`).
#![tactic(auto)]

mod chaining;
mod faulting;
mod naming;
mod ruling;

pub use chaining::{effects_are_inherited, loops_lead_back, missing_are_above};
pub use faulting::refused_at_first_faults;
pub use naming::{
    entries_have_read_names, names_are_one_by_meaning, pairs_are_attributes, printed_is_read,
    read_names_are_read_again,
};
pub use ruling::{built_in_rules_are_of_one_family, read_types_are_of_one_family};
