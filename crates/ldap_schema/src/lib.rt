//! Schemas: finds their types and classes by name and by number.
//!
//! One call makes the table of types and classes (`Schema::of_parts`), wherever they come from. `name_index`, over
//! `name_table`, finds them by halving in an order of lower-case names and object identifiers. Chains of SUPs are
//! walked.
//!
//! A class has a greater rank than its superclasses. `ranking` takes the step by which a walk up has left the class and
//! tests it on every edge, so the walk is trusted with nothing. Classes are put in line by a sort by rank and a look
//! from each to the next, no further up than its rank (`lines`). Where superclasses lead back to themselves there are
//! no ranks, and classes are compared two by two (`pairs`). A set of numbers says which classes are gathered
//! (`gathered`).
//!
//! Proved: names are found in any case and by object identifier, and what is under what is as the chain says (`find`,
//! `is_under`, `subclass_law`). So are classes in line, the lowest of them, and missing superclasses in order
//! (`are_in_line`, `lowest`, `missing_superclasses`).
#![tactic(auto)]

mod attribute_type;
mod class;
mod gathered;
mod lines;
mod name_index;
mod name_table;
mod naming;
mod pairs;
mod ranking;
mod ruling;
mod schema;
mod superclasses;
mod tables;

pub use attribute_type::{AttributeType, TypeId};
pub use class::{ClassId, ClassKind, ObjectClass};
pub use gathered::is_class_among;
pub use ldap_words::{
    Family, Rule, Syntax, has_ordering, has_substrings, hex_octet, is_numericoid, number_of_digits,
};
pub use lines::rank_of;
pub use ruling::equality_rule;
pub use schema::Schema;
pub use superclasses::{superclasses_of, with_superclasses};
pub use tables::{class_called, is_type_among, superiors, type_called};
