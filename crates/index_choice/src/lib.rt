//! Index choices: which indexes each attribute type has.
//!
//! Reads which indexes each type has; the lines are cut as a schema's. `reading` (over `words`) finds what each line
//! says, or the first that is wrong; `choosing` puts the kinds of each type together.
//!
//! Proved: a text is read as the index choice that it means, or refused as E12, E13 or E16 with the first line that the
//! order names (`Indexes::read`).
#![tactic(auto)]

mod choice;
mod choosing;
mod error;
mod kinds;
mod line;
mod reading;
mod words;

pub use choice::Indexes;
pub use dir_entry::{
    Attribute, Entry, EntryError, Key, Name, NameError, NumberSet, NumberWalk, Octets, Rdn, Schema,
    Shared, SharedMap, Sought, Truth, TypeAndValue, TypeId, ValueChange, Walk, are_same,
    copy_values, is_of_syntax, print_before, print_behind, print_from_leaf,
};
pub use error::IndexError;
pub use kinds::Kinds;
